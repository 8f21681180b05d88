// What the program recorder does: it plays a script, maps power cuts, serves another program, or plays its own scene.
#![tactic(auto)]

mod help;
mod input;
mod map;
mod playing;
mod scene;
mod serving;

use help::HELP;
use recorder_options::{Asked, Mode, Options, parse};
use std::env;

fn run(rt: &HostRuntime, options: &Options) -> anyhow::Result<()> {
    match options.mode {
        Mode::Play => playing::play(rt, options),
        Mode::Map => map::play_and_map(rt, options),
        Mode::Serve => serving::serve_calls(rt, options),
    }
}

// The words after the program's name.
fn words(rt: &HostRuntime) -> anyhow::Result<Vec<String>> {
    let mut args = env::args(rt)?;
    let _program = args.next();
    Ok(args.collect(rt.alloc())?)
}

// What the words of the command line ask for; without words, the scene.
pub fn run_recorder(rt: &HostRuntime) -> anyhow::Result<()> {
    let words = words(rt)?;
    if words.is_empty() {
        return scene::play_scene(rt);
    }
    match parse(rt.alloc(), &words)? {
        Asked::Help => Ok(println!(rt; "{HELP}")?),
        Asked::Run(options) => run(rt, &options),
    }
}
