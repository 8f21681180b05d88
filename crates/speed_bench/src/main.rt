// Times calls on a pile and on a module over it, for bench/speed.sh.
#![tactic(auto)]

mod blocks;
mod cases;
mod cdbs;
mod passes;
mod timing;

use anyhow::ensure;
use cases::{LONGEST, TimeCases};
use pile_runs::medium_kind;
use piles::{new_medium, with_pile};
use recorder_options::{Asked, Options, parse};
use std::env;

const USAGE: &str = "usage: speed_bench ORDER [--blocks N] [--pages N] [--grant N]
  the words are those of recorder; of blocks there are 128 or more
prints for each case: its name, how many blocks were timed, the nanoseconds that they took";

fn time_pile(rt: &HostRuntime, options: &Options) -> anyhow::Result<()> {
    let Options { blocks, grant, .. } = *options;
    ensure!(
        blocks >= LONGEST,
        "a WRITE of {LONGEST} blocks wants as many"
    );
    let medium = new_medium(rt.alloc(), medium_kind(options), blocks, grant)?;
    with_pile(
        rt.alloc(),
        medium,
        &options.caches,
        TimeCases { rt, blocks },
    )?
}

fn main(rt: HostRuntime) -> anyhow::Result<()> {
    let mut args = env::args(&rt)?;
    let _program = args.next();
    let words: Vec<String> = args.collect(rt.alloc())?;
    if let Asked::Run(options) = parse(rt.alloc(), &words)? {
        time_pile(&rt, &options)?;
    } else {
        println!(&rt; "{USAGE}")?;
    }
    Ok(())
}
