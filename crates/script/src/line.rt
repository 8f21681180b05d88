// A line of a script.
ghost use Rattle.std.specs.Prelude.{◌≡◌, IfOk};
ghost use Rattle.std.specs.Option.{option_map};
ghost use Rattle.script.specs.Digits.{number_between};
ghost use Rattle.script.specs.Data.{most_bytes, data_bytes};
ghost use Rattle.script.specs.Lines.{Gives, cdb_bytes, word_at, meant, field, option, end_at, host_at, cdb_at, data_out_at, data_in_at, command_at, verb_of, call_at, line_at, command, asked};

use crate::data::{MOST_BYTES, data_bytes};
use crate::digits::{hex_bytes, number, number_between};
use crate::error::{Expected, LineError};
use crate::words::next_word;
use std::alloc::{AllocError, Global};

// so many bytes of data-in where a line does not say
const DATA_IN_BYTES: u32 = 65_536;

#[derive(Debug, Drop)]
pub enum Line {
    // blank, or a comment
    Skipped,
    Reset,
    Command(CommandLine),
}

#[derive(Debug, Drop)]
pub struct CommandLine {
    pub host: u32,
    pub cdb: Vec<u8>,
    pub data_out: Vec<u8>,
    // so many bytes of data-in
    pub data_in: u32,
}

#[derive(Clone, Copy)]
enum Verb {
    Reset,
    Command,
}

// The next word, and what follows it.
fn word_at(line: &[u8], expected: Expected) -> Result<(&[u8], &[u8]), LineError>
    ensures { Gives (λ w. (w.0.now, w.1.now)) result (word_at expected line.now) }
{
    next_word(line).ok_or(LineError::Ended(expected))
}

// What a word stands for, or the error that it stands for nothing.
fn meant<T>(heap: Global, expected: Expected, word: &[u8], value: Option<T>) -> Result<T, LineError>
    ensures { Gives (λ x. x) result (meant expected word.now value) }
{
    match value {
        Some(value) => Ok(value),
        None => match String::from_utf8_lossy(heap, word) {
            Ok(found) => Err(LineError::Found { expected, found }),
            Err(error) => Err(LineError::Memory(error)),
        },
    }
}

#[tactic(auto, unfolding(crate::specs::Lines::end_at))]
fn end_at(heap: Global, expected: Expected, line: &[u8]) -> Result<(), LineError>
    ensures { Gives (λ x. x) result (end_at expected line.now) }
{
    match next_word(line) {
        None => Ok(()),
        Some((word, _)) => meant(heap, expected, word, None),
    }
}

#[tactic(auto, unfolding(crate::specs::Lines::field))]
fn host_at(heap: Global, line: &[u8]) -> Result<(u32, &[u8]), LineError>
    ensures { Gives (λ x. (x.0, x.1.now)) result (host_at line.now) }
{
    let (word, rest) = word_at(line, Expected::Host)?;
    let host = meant(heap, Expected::Host, word, number(word))?;
    Ok((host, rest))
}

// `-` stands for no bytes.
fn cdb_bytes(heap: Global, word: &[u8]) -> Result<Option<Vec<u8>>, AllocError>
    ensures { IfOk result (λ found. option_map (λ v. v.items) found ≡ cdb_bytes word.now) }
{
    if word == b"-".as_slice() {
        return Ok(Some(Vec::new(heap)));
    }
    hex_bytes(heap, word)
}

#[tactic(auto, unfolding(crate::specs::Lines::field))]
fn cdb_at(heap: Global, line: &[u8]) -> Result<(Vec<u8>, &[u8]), LineError>
    ensures { Gives (λ x. (x.0.items, x.1.now)) result (cdb_at line.now) }
{
    let (word, rest) = word_at(line, Expected::Cdb)?;
    let bytes = cdb_bytes(heap, word).map_err(LineError::Memory)?;
    let cdb = meant(heap, Expected::Cdb, word, bytes)?;
    Ok((cdb, rest))
}

#[tactic(auto, unfolding(crate::specs::Lines::field))]
fn data_out_field(heap: Global, line: &[u8]) -> Result<(Vec<u8>, &[u8]), LineError>
    ensures { Gives (λ x. (x.0.items, x.1.now)) result (field Expected.DataOut data_bytes line.now) }
{
    let (word, rest) = word_at(line, Expected::DataOut)?;
    let bytes = data_bytes(heap, word).map_err(LineError::Memory)?;
    let data = meant(heap, Expected::DataOut, word, bytes)?;
    Ok((data, rest))
}

// The bytes after `out`, none without it.
#[tactic(auto, unfolding(crate::specs::Lines::option))]
fn data_out_at(heap: Global, line: &[u8]) -> Result<(Vec<u8>, &[u8]), LineError>
    ensures { Gives (λ x. (x.0.items, x.1.now)) result (data_out_at line.now) }
{
    match next_word(line) {
        Some((word, rest)) if word == b"out".as_slice() => data_out_field(heap, rest),
        _ => Ok((Vec::new(heap), line)),
    }
}

#[tactic(auto, unfolding(crate::specs::Lines::field))]
fn data_in_field(heap: Global, line: &[u8]) -> Result<(u32, &[u8]), LineError>
    ensures { Gives (λ x. (x.0, x.1.now)) result (field Expected.DataIn (number_between 0 most_bytes) line.now) }
{
    let (word, rest) = word_at(line, Expected::DataIn)?;
    let count = meant(
        heap,
        Expected::DataIn,
        word,
        number_between(word, 0, MOST_BYTES),
    )?;
    Ok((count, rest))
}

// The number after `in`, or the default.
#[tactic(auto, unfolding(crate::specs::Lines::option))]
fn data_in_at(heap: Global, line: &[u8]) -> Result<(u32, &[u8]), LineError>
    ensures { Gives (λ x. (x.0, x.1.now)) result (data_in_at line.now) }
{
    match next_word(line) {
        Some((word, rest)) if word == b"in".as_slice() => data_in_field(heap, rest),
        _ => Ok((DATA_IN_BYTES, line)),
    }
}

#[tactic(auto, unfolding(crate::specs::Lines::command_at))]
fn command_at(heap: Global, line: &[u8]) -> Result<CommandLine, LineError>
    ensures { Gives command result (command_at line.now) }
{
    let (host, line) = host_at(heap, line)?;
    let (cdb, line) = cdb_at(heap, line)?;
    let (data_out, line) = data_out_at(heap, line)?;
    let (data_in, line) = data_in_at(heap, line)?;
    end_at(heap, Expected::More, line)?;
    Ok(CommandLine {
        host,
        cdb,
        data_out,
        data_in,
    })
}

fn verb_of(word: &[u8]) -> Option<Verb>
    ensures { result ≡ verb_of word.now }
{
    if word == b"reset".as_slice() {
        Some(Verb::Reset)
    } else if word == b"command".as_slice() {
        Some(Verb::Command)
    } else {
        None
    }
}

fn call_at(heap: Global, verb: Verb, line: &[u8]) -> Result<Line, LineError>
    ensures { Gives asked result (call_at verb line.now) }
{
    match verb {
        Verb::Reset => {
            end_at(heap, Expected::End, line)?;
            Ok(Line::Reset)
        }
        Verb::Command => Ok(Line::Command(command_at(heap, line)?)),
    }
}

// What a line asks for. A blank line and one whose first character is `#` are skipped.
#[tactic(auto, unfolding(crate::specs::Lines::line_at))]
pub fn parse_line(heap: Global, line: &[u8]) -> Result<Line, LineError>
    ensures { Gives asked result (line_at line.now) }
{
    if line.first() == Some(&b'#') {
        return Ok(Line::Skipped);
    }
    let Some((word, rest)) = next_word(line) else {
        return Ok(Line::Skipped);
    };
    let verb = meant(heap, Expected::Call, word, verb_of(word))?;
    call_at(heap, verb, rest)
}
