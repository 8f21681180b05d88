// Tests of the crates of logday: its records, its pile, and the words of its command line. They stand in a crate of their
// own since the tests in a crate are proved together with all of that crate once more.
#![tactic(auto)]

#[cfg(test)]
mod arguments;
#[cfg(test)]
mod checks;
#[cfg(test)]
mod recordings;
#[cfg(test)]
mod records;
