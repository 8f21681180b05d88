// The blocks that a host names.
ghost use Rattle.std.specs.Prelude.{◌≡◌, ◌+◌, ◌*◌, ◌^◌, ◌<◌, nat_le};

use store::BLOCK_BYTES;

// So many blocks from an address on. That they end below 2^32 is no invariant: a host may name any, and is refused.
#[derive(Clone, Copy, PartialEq, Eq, Debug)]
pub struct Extent {
    pub address: u32,
    pub length: u16,
}

impl Extent {
    // Do the blocks end within the count? The sum does not wrap.
    pub fn ends_within(self, count: u32) -> bool
        ensures { result ≡ nat_le (self.address + self.length) count }
    {
        u64::from(self.address) + u64::from(self.length) <= u64::from(count)
    }

    // The block after the last.
    pub fn end(self) -> u32
        requires { self.address + self.length < 2 ^ 32 }
        ensures { result ≡ self.address + self.length }
    {
        self.address + u32::from(self.length)
    }

    // How many bytes the blocks hold.
    pub fn byte_count(self) -> usize
        ensures { result ≡ 512 * self.length }
    {
        BLOCK_BYTES * usize::from(self.length)
    }
}
