// The words of the command line, and the text of each error.
use crate::checks::same;
use logday_options::Options;
use shift_log::Shift;
use std::alloc::Global;
use std::env::Args;
use std::test::Fail;

// The words as the program is given them.
fn given(heap: Global, words: &[&str]) -> Result<Args, Fail> {
    let mut args = Vec::new(heap);
    for word in words {
        args.push(String::from_str(heap, word)?)?;
    }
    Ok(args.into_iter())
}

// What is read from these words.
fn read(heap: Global, words: &[&str]) -> Result<Option<Options>, Fail> {
    Ok(Options::parse(given(heap, words)?)?)
}

// The shift's seconds and how often the brake acts, and the stores, as they are read from these words.
fn numbers(heap: Global, words: &[&str]) -> Result<(u32, u32, u32), Fail> {
    let options = read(heap, words)?.ok_or("a shift is expected")?;
    let Shift {
        seconds,
        brake_every,
    } = options.shift;
    Ok((seconds, brake_every, options.stores))
}

#[test]
fn three_numbers_are_read_in_order(rt: HostRuntime) -> Result<(), Fail> {
    same(numbers(rt.alloc(), &["5", "2", "3"])?, (5, 2, 3))
}

#[test]
fn words_left_out_have_their_defaults(rt: HostRuntime) -> Result<(), Fail> {
    same(numbers(rt.alloc(), &[])?, (24, 8, 12))?;
    same(numbers(rt.alloc(), &["86400"])?, (86_400, 8, 12))?;
    let rarest = numbers(rt.alloc(), &["0", "4294967295"])?;
    same(rarest, (0, u32::MAX, 12))
}

// Is the help asked for in these words?
fn asks_for_help(heap: Global, words: &[&str]) -> Result<bool, Fail> {
    Ok(read(heap, words)?.is_none())
}

// The first word alone asks for it; what follows is not read.
#[test]
fn help_is_asked_for(rt: HostRuntime) -> Result<(), Fail> {
    same(asks_for_help(rt.alloc(), &["--help"])?, true)?;
    same(asks_for_help(rt.alloc(), &["--help", "x"])?, true)
}

// These words are refused with this text.
fn refused(heap: Global, words: &[&str], text: &str) -> Result<(), Fail> {
    let Err(error) = Options::parse(given(heap, words)?) else {
        return Err("an error is expected".into());
    };
    same(error.to_string(heap)?.as_str(), text)
}

#[test]
fn errors_say_why(rt: HostRuntime) -> Result<(), Fail> {
    let no_number =
        "an argument is no number from 0 to 4294967295; logday --help tells what it takes";
    refused(rt.alloc(), &["x"], no_number)?;
    refused(rt.alloc(), &["-2"], no_number)?;
    refused(rt.alloc(), &["4294967296"], no_number)?;
    refused(rt.alloc(), &["24", "8", "4294967296"], no_number)?;
    refused(rt.alloc(), &["24", "--help"], no_number)?;
    let too_long = "a shift lasts at most 86400 seconds";
    refused(rt.alloc(), &["86401"], too_long)?;
    let too_many = "too many arguments; logday --help tells what it takes";
    refused(rt.alloc(), &["1", "2", "3", "4"], too_many)
}
