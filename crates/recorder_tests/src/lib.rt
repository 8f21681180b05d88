// Tests of the recorder's crates, of what they print and read in particular. They stand in a crate of their own since the
// tests in a crate are proved together with all of that crate once more.
#![tactic(auto)]

#[cfg(test)]
mod answers;
#[cfg(test)]
mod books;
#[cfg(test)]
mod card_runs;
#[cfg(test)]
mod checks;
#[cfg(test)]
mod command_lines;
#[cfg(test)]
mod conditions;
#[cfg(test)]
mod new_piles;
#[cfg(test)]
mod options;
#[cfg(test)]
mod scripts;
