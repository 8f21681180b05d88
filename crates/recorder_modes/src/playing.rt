// A script played whole.
use crate::input;
use outcomes::Outcome;
use pile_runs::{calls_of, data_in_for, play_with};
use recorder_options::Options;
use script::Line;
use session::Call;
use std::alloc::Global;
use std::io;
use std::io::{BufWriter, Write};

// What the run of the calls leaves, with this grant of block stores.
pub fn run_calls(
    heap: Global,
    options: &Options,
    grant: u32,
    calls: &[Call<'_>],
) -> anyhow::Result<Outcome> {
    let run = play_with(heap, options, grant, calls)?;
    Ok(Outcome::of(heap, grant, calls, run)?)
}

// The same for the calls that the lines ask for, with the grant of the options.
pub fn run_lines(heap: Global, options: &Options, lines: &[Line]) -> anyhow::Result<Outcome> {
    let data_in = data_in_for(heap, lines)?;
    let calls = calls_of(heap, lines, &data_in)?;
    run_calls(heap, options, options.grant, &calls)
}

pub fn play(rt: &HostRuntime, options: &Options) -> anyhow::Result<()> {
    let lines = input::lines(rt)?;
    let outcome = run_lines(rt.alloc(), options, &lines)?;
    let mut out = BufWriter::new(rt.alloc(), io::writer(rt))?;
    write!(out, "{outcome}")?;
    Ok(out.flush()?)
}
