// The CDBs of commands on blocks.
use crate::blocks::Calls;
use std::alloc::{AllocError, Global};

pub type Cdb = [u8; 10];

pub const READ: u8 = 0x28;

pub const WRITE: u8 = 0x2a;

pub const TEST_UNIT_READY: [u8; 6] = [0; 6];

pub const SYNCHRONIZE_CACHE: Cdb = [0x35, 0, 0, 0, 0, 0, 0, 0, 0, 0];

fn cdb(opcode: u8, start: u32, length: u16) -> Cdb {
    let [a, b, c, d] = start.to_be_bytes();
    let [high, low] = length.to_be_bytes();
    [opcode, 0, a, b, c, d, 0, high, low, 0]
}

// Those of a pass.
pub fn cdbs(heap: Global, opcode: u8, calls: Calls) -> Result<Vec<Cdb>, AllocError> {
    calls
        .starts(heap)?
        .iter()
        .map(|&start| cdb(opcode, start, calls.length))
        .collect(heap)
}
