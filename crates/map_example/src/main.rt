// A map of power cuts, as recorder --map prints it: its words are in args, its script is in stdin.
#![tactic(auto)]

use recorder_modes::run_recorder;

fn main(rt: HostRuntime) -> anyhow::Result<()> {
    run_recorder(&rt)
}
