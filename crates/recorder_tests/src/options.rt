// What command lines ask for.
use recorder_options::{Asked, Options, OptionsError, parse};
use std::alloc::Global;
use std::test::Fail;

// The words of the line are set apart by spaces.
pub fn asked(heap: Global, line: &str) -> Result<Result<Asked, OptionsError>, Fail> {
    let mut words = Vec::new(heap);
    for word in line.split_whitespace() {
        words.push(String::from_str(heap, word)?)?;
    }
    Ok(parse(heap, &words))
}

// The options of a run.
pub fn options(heap: Global, line: &str) -> Result<Options, Fail> {
    match asked(heap, line)?? {
        Asked::Run(options) => Ok(options),
        Asked::Help => Err("a run is expected".into()),
    }
}
