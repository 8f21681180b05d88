// Parts of a medium's memory.
ghost use Rattle.std.specs.Prelude.{◌≡◌, ◌+◌, ◌≤◌, length};
ghost use Rattle.store.specs.Bytes.{part};
ghost use Rattle.medium.specs.Check.{checked};

use crate::{MAX_BLOCKS, Unfit};

// Is the count in range, and does the memory hold the bytes that it needs?
pub fn check(memory: &[u8], count: u32, needed: usize) -> Result<(), Unfit>
    ensures { result ≡ checked count needed (length memory.now) }
{
    if !(1..=MAX_BLOCKS).contains(&count) {
        Err(Unfit::Count)
    } else if memory.len() < needed {
        Err(Unfit::Memory)
    } else {
        Ok(())
    }
}

// The N bytes from place `at`.
pub fn array_at<const N: usize>(memory: &[u8], at: usize) -> [u8; N]
    requires { at + N ≤ length memory.now }
    ensures { result ≡ part memory.now at N }
{
    // a slice of N bytes, so that a compiler sees that it has them
    *memory[at..at + N].first_chunk().unwrap()
}
