// What each command does once it has passed the ladder, over a store and the logical unit.
#![tactic(auto)]

ghost use Rattle.std.specs.Prelude.{◌≡◌, length};
ghost use Rattle.store.specs.Steps.{stepped};
ghost use Rattle.commands.specs.Carried.{order};
ghost use Rattle.logical_unit.specs.Hosts.{host_number};
ghost use Rattle.ladder.specs.Ladder.{Runs};
ghost use Rattle.rbc_steps.specs.Module.{exchange, joined, run};
ghost use Rattle.actions.specs.Modeled.{device_model};

use actions::{Device, inquire, mode_select, report_capacity, sense_mode, start_stop, write};
use commands::{Command, Removal};
use logical_unit::{Host, LogicalUnit};
use store::{Store, StoreError};
use transfer::{read_blocks, verify_blocks};

// A command that has passed the ladder, on a device; the count of bytes that it returns.
pub fn run<S: Store>(
    device: &mut Device<S>,
    host: Host,
    command: Command<'_>,
    data_in: &mut [u8],
) -> Result<u32, StoreError>
    requires { Runs (S.Store.steps.count (S.Store.model device.old.store)) (length data_in.old) (order command) }
    ensures { stepped result (exchange (device_model S.Store.model device.new) data_in.new) ≡ run S.Store.steps (host_number host) (order command.entry) (exchange (device_model S.Store.model device.old) data_in.old) }
{
    run_on(&mut device.store, &mut device.unit, host, command, data_in)
}

// The same on a store and a logical unit that are lent.
pub fn run_on<S: Store>(
    store: &mut S,
    unit: &mut LogicalUnit,
    host: Host,
    command: Command<'_>,
    data_in: &mut [u8],
) -> Result<u32, StoreError>
    requires { Runs (S.Store.steps.count (S.Store.model store.old)) (length data_in.old) (order command) }
    ensures { stepped result (exchange (joined (S.Store.model store.new) unit.new) data_in.new) ≡ run S.Store.steps (host_number host) (order command.entry) (exchange (joined (S.Store.model store.old) unit.old) data_in.old) }
{
    match command {
        Command::TestUnitReady => Ok(0),
        Command::Inquiry { allocation, .. } => Ok(inquire(data_in, allocation)),
        Command::ModeSelect { list, .. } => {
            mode_select(store, unit, host, list)?;
            Ok(0)
        }
        Command::Reserve => {
            unit.reserve(host.number());
            Ok(0)
        }
        Command::Release => {
            unit.release(host.number());
            Ok(0)
        }
        Command::ModeSense {
            control,
            allocation,
            ..
        } => {
            let settings = unit.shown_settings(control);
            Ok(sense_mode(data_in, settings, store.count(), allocation))
        }
        Command::PreventAllow { removal } => {
            unit.set_bar(host, removal == Removal::Prevented);
            Ok(0)
        }
        Command::StartStopUnit { request } => {
            start_stop(store, unit, request)?;
            Ok(0)
        }
        Command::ReadCapacity => Ok(report_capacity(data_in, store.count())),
        Command::Read { extent, .. } => {
            read_blocks(store, extent, data_in)?;
            Ok(extent.byte_count() as u32)
        }
        Command::Write {
            force,
            extent,
            data,
            ..
        } => {
            write(store, unit, force, extent, data)?;
            Ok(0)
        }
        Command::Verify { extent, .. } => {
            verify_blocks(store, extent)?;
            Ok(0)
        }
        Command::SynchronizeCache => {
            store.flush()?;
            Ok(0)
        }
    }
}
