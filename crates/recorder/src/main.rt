// Plays a script of calls on a recorder module over a pile; `recorder --help` tells all of it.
#![tactic(auto)]

use recorder_modes::run_recorder;

fn main(rt: HostRuntime) -> anyhow::Result<()> {
    run_recorder(&rt)
}
