// The stores at work on examples: the media, the pages of the flash card, the caches, and a pile of them.
#![tactic(auto)]

ghost use Rattle.std.specs.Prelude.{◌≡◌, replicate};

use store::BLOCK_BYTES;

pub mod memory;
#[cfg(test)]
mod tests;

// A content of one byte throughout.
pub fn filled(byte: u8) -> [u8; BLOCK_BYTES]
    ensures { result ≡ replicate 512 byte }
{
    [byte; BLOCK_BYTES]
}
