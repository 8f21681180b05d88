// Actions on the parts of a device.
ghost use Rattle.std.specs.Prelude.{◌≡◌, ◌+◌, ◌*◌, ◌^◌, ◌<◌, length};
ghost use Rattle.store.specs.Steps.{stepped};
ghost use Rattle.commands.specs.Codes.{power_code};
ghost use Rattle.logical_unit.specs.Hosts.{host_number};
ghost use Rattle.logical_unit.specs.ModePage.{selected};
ghost use Rattle.rbc_steps.specs.Module.{run_write, run_start_stop, run_select};
ghost use Rattle.actions.specs.Modeled.{device_model};

use super::Device;
use crate::pile::{mode_select, start_stop, write};
use commands::StartStop;
use host_data::Extent;
use logical_unit::Host;
use store::{Store, StoreError};

impl<S: Store> Device<S> {
    // WRITE: each block is forced after its put if FUA or WCD says so.
    pub fn write(&mut self, force: bool, extent: Extent, bytes: &[u8]) -> Result<(), StoreError>
        requires { (extent.address + extent.length < 2 ^ 32) × (length bytes.now ≡ 512 * extent.length) }
        ensures { stepped result (device_model S.Store.model self.new) ≡ run_write S.Store.steps force extent.address extent.length bytes.now (device_model S.Store.model self.old) }
    {
        write(&mut self.store, &self.unit, force, extent, bytes)
    }

    // START STOP UNIT: SLEEP, STOPPED and unloading flush first.
    pub fn start_stop(&mut self, request: StartStop) -> Result<(), StoreError>
        ensures { stepped result (device_model S.Store.model self.new) ≡ run_start_stop S.Store.steps (power_code request.condition) request.start request.load_eject (device_model S.Store.model self.old) }
    {
        start_stop(&mut self.store, &mut self.unit, request)
    }

    // MODE SELECT: an empty list changes nothing.
    pub fn mode_select(&mut self, host: Host, list: &[u8]) -> Result<(), StoreError>
        ensures { stepped result (device_model S.Store.model self.new) ≡ run_select S.Store.steps (host_number host) (selected list.now) (device_model S.Store.model self.old) }
    {
        mode_select(&mut self.store, &mut self.unit, host, list)
    }
}
