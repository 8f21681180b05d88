// A case's time.
ghost use Rattle.std.specs.Prelude.{◌≡◌};

use anyhow::bail;
use std::time::Instant;

// how many blocks a pass handles
pub const PASS_BLOCKS: u32 = 65536;

// so many milliseconds at least are timed
const LEAST: u128 = 200;

// Makes a pass, and then times passes until so much time is over. Prints the case, the blocks, the nanoseconds.
pub fn time<F: FnMut() -> anyhow::Result<()>>(
    rt: &HostRuntime,
    case: &str,
    mut pass: F,
) -> anyhow::Result<()>
    requires { F.IsAlwaysCallable pass }
{
    pass()?;
    let start = Instant::now(rt)?;
    for passes in 1..=u32::MAX {
        pass()?;
        let time = start.elapsed(rt)?;
        if time.as_millis() >= LEAST {
            let blocks = u64::from(passes) * u64::from(PASS_BLOCKS);
            println!(rt; "{case} {blocks} {}", time.as_nanos())?;
            return Ok(());
        }
    }
    bail!("the clock stands still")
}
