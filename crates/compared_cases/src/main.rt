// Plays the cases on standard input, each a script on a pile of its own, and prints for each its replies and what is then
// found on the medium. A line `case ORDER [options]` begins a case; the lines until the next one are its script.
#![tactic(auto)]

use anyhow::{Context, anyhow};
use outcomes::Outcome;
use pile_runs::{calls_of, data_in_for, play_with};
use recorder_options::{Asked, Options, parse};
use script::parse_script;
use session::Call;
use std::alloc::{AllocError, Global};
use std::io;
use std::io::{BufWriter, Read, Write};

fn words_of(heap: Global, line: &str) -> Result<Vec<String>, AllocError> {
    let mut words = Vec::new(heap);
    for word in line.split_whitespace() {
        words.push(String::from_str(heap, word)?)?;
    }
    Ok(words)
}

// What the words behind `case` ask for.
fn options_of(heap: Global, line: &str) -> anyhow::Result<Options> {
    match parse(heap, &words_of(heap, line)?)? {
        Asked::Run(options) => Ok(options),
        Asked::Help => Err(anyhow!("a case has no --help")),
    }
}

// What the run of a script leaves.
fn play_script(heap: Global, options: &Options, script: &str) -> anyhow::Result<Outcome> {
    let lines = parse_script(heap, script.as_bytes())?;
    let data_in = data_in_for(heap, &lines)?;
    let calls = calls_of(heap, &lines, &data_in)?;
    play_calls(heap, options, &calls)
}

fn play_calls(heap: Global, options: &Options, calls: &[Call<'_>]) -> anyhow::Result<Outcome> {
    let run = play_with(heap, options, options.grant, calls)?;
    Ok(Outcome::of(heap, options.grant, calls, run)?)
}

// A case: its words, and behind them its script.
fn play_case<W: Write + Drop>(heap: Global, out: &mut W, case: &str) -> anyhow::Result<()> {
    let (words, script) = case.split_once('\n').unwrap_or((case, ""));
    let options = options_of(heap, words)?;
    let outcome = play_script(heap, &options, script)?;
    write!(out, "case {words}\n{outcome}")?;
    Ok(())
}

fn play_cases(rt: &HostRuntime, text: &str) -> anyhow::Result<()> {
    let heap = rt.alloc();
    let mut out = BufWriter::new(heap, io::writer(rt))?;
    let cases = text.strip_prefix("case ").context("expected a case")?;
    for case in cases.split("\ncase ") {
        play_case(heap, &mut out, case)?;
    }
    Ok(out.flush()?)
}

fn main(rt: HostRuntime) -> anyhow::Result<()> {
    let mut text = String::new(rt.alloc());
    rt.reader().read_to_string(&mut text)?;
    play_cases(&rt, &text)
}
