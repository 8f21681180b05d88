// Calls answered one by one, as recorder --serve answers them: its words are in args, its script is in stdin.
#![tactic(auto)]

use recorder_modes::run_recorder;

fn main(rt: HostRuntime) -> anyhow::Result<()> {
    run_recorder(&rt)
}
