// The bytes that INQUIRY, READ CAPACITY and MODE SENSE put into data-in. What differs in the three is the bytes;
// `deliver` is what they share.
ghost use Rattle.std.specs.Prelude.{◌≡◌, ◌≤◌, min, length, take};
ghost use Rattle.store.specs.Bytes.{placed};
ghost use Rattle.logical_unit.specs.ModePage.{mode_data};
ghost use Rattle.rbc_steps.specs.Data.{inquiry_data, capacity_data};

use commands::{CAPACITY_BYTES, INQUIRY_BYTES};
use host_data::deliver;
use logical_unit::Settings;
use store::BLOCK_BYTES;

// features, vendor, product and revision
const INQUIRY_DATA: [u8; INQUIRY_BYTES] =
    *b"\x0e\x80\x04\x02\x1f\0\0\0BERGBAHNBRAKE LOG MODULE0100";

pub fn inquire(data_in: &mut [u8], allocation: u8) -> u32
    requires { min allocation 36 ≤ length data_in.old }
    ensures count { result ≡ min allocation 36 }
    ensures front { data_in.new ≡ placed data_in.old 0 (take allocation inquiry_data) }
{
    deliver(data_in, &INQUIRY_DATA, allocation)
}

pub fn report_capacity(data_in: &mut [u8], count: u32) -> u32
    requires { (8 ≤ length data_in.old) × (1 ≤ count) }
    ensures count { result ≡ 8 }
    ensures front { data_in.new ≡ placed data_in.old 0 (take 8 (capacity_data count)) }
{
    let [a, b, c, d] = (count - 1).to_be_bytes();
    let [e, f, g, h] = (BLOCK_BYTES as u32).to_be_bytes();
    deliver(data_in, &[a, b, c, d, e, f, g, h], CAPACITY_BYTES as u8)
}

pub fn sense_mode(data_in: &mut [u8], settings: Settings, count: u32, allocation: u8) -> u32
    requires { min allocation 17 ≤ length data_in.old }
    ensures count { result ≡ min allocation 17 }
    ensures front { data_in.new ≡ placed data_in.old 0 (take allocation (mode_data count settings)) }
{
    deliver(data_in, &settings.mode_data(count), allocation)
}
