// A medium of blocks, whatever its layout: the check before one is made, the parts of its memory, and the grant of stores.
#![tactic(auto)]

ghost use Rattle.std.specs.Prelude.{◌≡◌};
ghost use Rattle.medium.specs.Check.{check_number};

use thiserror::Error;

mod block_medium;
pub mod grant;
mod layout;
pub mod memory;

pub use block_medium::BlockMedium;
pub use layout::Layout;

// A medium has at most so many blocks.
pub const MAX_BLOCKS: u32 = 16_777_216;

// Why memory and a block count do not make a medium.
#[derive(Clone, Copy, PartialEq, Eq, Debug, Error)]
pub enum Unfit {
    #[error("a medium has 1 to {} blocks", MAX_BLOCKS)]
    Count,
    #[error("the memory is too small for the medium")]
    Memory,
}

// The number of a check's answer, as the rules of a medium name it: 0 fit, 17 count out of range, 18 memory too small.
pub fn check_number(answer: Result<(), Unfit>) -> u8
    ensures { result ≡ check_number answer }
{
    match answer {
        Ok(()) => 0,
        Err(Unfit::Count) => 17,
        Err(Unfit::Memory) => 18,
    }
}
