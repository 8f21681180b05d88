// A command with its fields; WRITE and MODE SELECT borrow the host's data.
use crate::fields::{PageControl, Removal, StartStop};
use host_data::Extent;

#[derive(Clone, Copy, PartialEq, Eq, Debug)]
pub enum Command<'a> {
    TestUnitReady,
    Inquiry {
        // asks for vital product data
        vital: bool,
        // a number, and no enum beside the flag: of both it is asked alone whether they are zero
        page: u8,
        allocation: u8,
    },
    ModeSelect {
        // as the CDB says: the host may have sent fewer bytes, and is then refused
        length: u8,
        list: &'a [u8],
    },
    Reserve,
    Release,
    ModeSense {
        control: PageControl,
        // a number: any page code can be asked for, and all but two are refused alike
        page: u8,
        allocation: u8,
    },
    StartStopUnit {
        request: StartStop,
    },
    PreventAllow {
        removal: Removal,
    },
    ReadCapacity,
    Read {
        relative: bool,
        extent: Extent,
    },
    Write {
        relative: bool,
        // FUA: force unit access
        force: bool,
        extent: Extent,
        // what the host sent of it
        data: &'a [u8],
    },
    Verify {
        relative: bool,
        extent: Extent,
    },
    SynchronizeCache,
}
