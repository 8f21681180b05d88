// Commands taken out of their CDBs (command descriptor blocks).
#![tactic(auto)]

mod decoding;
mod opcode;

pub use decoding::decode;
pub use opcode::{SixByte, TenByte};
