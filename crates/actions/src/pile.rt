// Actions on a store and the logical unit over it, each lent by whoever has it: on the store, and on the unit once the
// store has done its part.
ghost use Rattle.std.specs.Prelude.{◌≡◌, ◌+◌, ◌*◌, ◌^◌, ◌<◌, length};
ghost use Rattle.store.specs.Steps.{stepped};
ghost use Rattle.commands.specs.Codes.{power_code};
ghost use Rattle.logical_unit.specs.Hosts.{host_number};
ghost use Rattle.logical_unit.specs.ModePage.{selected};
ghost use Rattle.rbc_steps.specs.Module.{joined, run_write, run_start_stop, run_change, run_select};

use commands::StartStop;
use host_data::Extent;
use logical_unit::{Host, LogicalUnit, Settings};
use store::{BLOCK_BYTES, Store, StoreError};
use transfer::write_blocks;

// WRITE: each block is forced after its put if FUA or WCD says so.
pub fn write<S: Store>(
    store: &mut S,
    unit: &LogicalUnit,
    force: bool,
    extent: Extent,
    bytes: &[u8],
) -> Result<(), StoreError>
    requires { (extent.address + extent.length < 2 ^ 32) × (length bytes.now ≡ 512 * extent.length) }
    ensures { stepped result (joined (S.Store.model store.new) unit.now) ≡ run_write S.Store.steps force extent.address extent.length bytes.now (joined (S.Store.model store.old) unit.now) }
{
    let (blocks, _) = bytes.as_chunks::<BLOCK_BYTES>();
    let force = force || unit.settings.wcd;
    write_blocks(store, force, extent.address, blocks)
}

// START STOP UNIT: SLEEP, STOPPED and unloading flush first.
pub fn start_stop<S: Store>(
    store: &mut S,
    unit: &mut LogicalUnit,
    request: StartStop,
) -> Result<(), StoreError>
    ensures { stepped result (joined (S.Store.model store.new) unit.new) ≡ run_start_stop S.Store.steps (power_code request.condition) request.start request.load_eject (joined (S.Store.model store.old) unit.old) }
{
    if request.flushes_first() {
        store.flush()?;
    }
    unit.start_stop(request);
    Ok(())
}

// New settings: WCD from 0 to 1 flushes first.
fn change_settings<S: Store>(
    store: &mut S,
    unit: &mut LogicalUnit,
    host: Host,
    settings: Settings,
) -> Result<(), StoreError>
    ensures { stepped result (joined (S.Store.model store.new) unit.new) ≡ run_change S.Store.steps (host_number host) settings (joined (S.Store.model store.old) unit.old) }
{
    if settings.wcd && !unit.settings.wcd {
        store.flush()?;
    }
    unit.change_settings(host, settings);
    Ok(())
}

// MODE SELECT: an empty list changes nothing.
pub fn mode_select<S: Store>(
    store: &mut S,
    unit: &mut LogicalUnit,
    host: Host,
    list: &[u8],
) -> Result<(), StoreError>
    ensures { stepped result (joined (S.Store.model store.new) unit.new) ≡ run_select S.Store.steps (host_number host) (selected list.now) (joined (S.Store.model store.old) unit.old) }
{
    match Settings::from_list(list) {
        Some(settings) => change_settings(store, unit, host, settings),
        None => Ok(()),
    }
}
