// The cases: calls of a store, and then commands to a module over it.
ghost use Rattle.std.specs.Prelude.{◌≡◌, ◌*◌, ◌≤◌, vec_len, IfOk};

use crate::blocks::{Calls, shuffled};
use crate::cdbs::{READ, TEST_UNIT_READY, WRITE, cdbs};
use crate::passes::{command_all, put_all, read_all, synchronize_all};
use crate::timing::time;
use anyhow::ensure;
use piles::{Pile, Task};
use rbc::Module;
use std::alloc::Global;
use store::{BLOCK_BYTES, Store};

// the blocks of the longest command
pub const LONGEST: u32 = 128;

// the byte that the timed puts of a store put
const PUT: u8 = 2;

// Each of so many blocks is put once, so that a card is full, and then the cases are timed.
#[derive(Drop)]
pub struct TimeCases<'a> {
    pub rt: &'a HostRuntime,
    pub blocks: u32,
    pub ghost enough: { 128 ≤ blocks },
}

impl Task for TimeCases<'_> {
    type Output = anyhow::Result<()>;

    // nothing is promised of what is timed
    ghost gives = { λ task steps meaning held state output. Unit {0} };

    fn run<S: Pile>(self, pile: S) -> anyhow::Result<()> {
        let TimeCases { rt, blocks } = self;
        let mut pile = pile;
        time_calls(rt, blocks, &mut pile)?;
        let mut module = Module::make(pile);
        // the answer is the unit attention
        let _ = module.command(0, &TEST_UNIT_READY, &[], &mut []);
        time_commands(rt, blocks, &mut module)
    }
}

fn time_calls<S: Store>(rt: &HostRuntime, blocks: u32, store: &mut S) -> anyhow::Result<()>
    requires { 1 ≤ blocks }
{
    put_all(store, &shuffled(rt.alloc(), blocks)?, &[1; BLOCK_BYTES])?;
    time_puts(rt, "put-random", store, Calls::random(blocks, 1))?;
    time_puts(rt, "put-rising", store, Calls::rising(blocks, 1))?;
    time_reads(rt, "read-random", store, Calls::random(blocks, 1))?;
    time_reads(rt, "read-rising", store, Calls::rising(blocks, 1))
}

fn time_commands<S: Store>(
    rt: &HostRuntime,
    blocks: u32,
    module: &mut Module<S>,
) -> anyhow::Result<()>
    requires { 128 ≤ blocks }
{
    time_writes(rt, "write-1", module, Calls::random(blocks, 1))?;
    time_writes(rt, "write-8", module, Calls::random(blocks, 8))?;
    time_writes(rt, "write-128", module, Calls::rising(blocks, 128))?;
    time_read_commands(rt, "read-1", module, Calls::random(blocks, 1))?;
    time_read_commands(rt, "read-8", module, Calls::random(blocks, 8))?;
    time_read_commands(rt, "read-128", module, Calls::rising(blocks, 128))?;
    time_synchronized(rt, "sync-8", module, Calls::random(blocks, 8))
}

// A buffer for the bytes of so many blocks.
fn buffer(heap: Global, byte: u8, length: u16) -> anyhow::Result<Vec<u8>>
    ensures { IfOk result (λ bytes. vec_len bytes ≡ length * 512) }
{
    Ok(vec![in heap; byte; usize::from(length) * BLOCK_BYTES]?)
}

fn time_puts<S: Store>(
    rt: &HostRuntime,
    case: &str,
    store: &mut S,
    calls: Calls,
) -> anyhow::Result<()> {
    let blocks = calls.starts(rt.alloc())?;
    let data = buffer(rt.alloc(), PUT, 1)?;
    // from memory: what a compiler knows it would not copy
    let content = data.first_chunk().unwrap();
    time(rt, case, || put_all(store, &blocks, content))
}

fn time_reads<S: Store>(
    rt: &HostRuntime,
    case: &str,
    store: &mut S,
    calls: Calls,
) -> anyhow::Result<()> {
    let blocks = calls.starts(rt.alloc())?;
    let mut content = [0; BLOCK_BYTES];
    time(rt, case, || read_all(store, &blocks, &mut content))?;
    // a compiler could leave out reads whose content nobody looks at
    ensure!(
        content == [PUT; BLOCK_BYTES],
        "a read shows what was not put"
    );
    Ok(())
}

fn time_writes<S: Store>(
    rt: &HostRuntime,
    case: &str,
    module: &mut Module<S>,
    calls: Calls,
) -> anyhow::Result<()> {
    let cdbs = cdbs(rt.alloc(), WRITE, calls)?;
    let data_out = buffer(rt.alloc(), 3, calls.length)?;
    time(rt, case, || command_all(module, &cdbs, &data_out, &mut []))
}

fn time_read_commands<S: Store>(
    rt: &HostRuntime,
    case: &str,
    module: &mut Module<S>,
    calls: Calls,
) -> anyhow::Result<()> {
    let cdbs = cdbs(rt.alloc(), READ, calls)?;
    let mut data_in = buffer(rt.alloc(), 0, calls.length)?;
    time(rt, case, || command_all(module, &cdbs, &[], &mut data_in))
}

fn time_synchronized<S: Store>(
    rt: &HostRuntime,
    case: &str,
    module: &mut Module<S>,
    calls: Calls,
) -> anyhow::Result<()> {
    let cdbs = cdbs(rt.alloc(), WRITE, calls)?;
    let data_out = buffer(rt.alloc(), 4, calls.length)?;
    time(rt, case, || synchronize_all(module, &cdbs, &data_out))
}
