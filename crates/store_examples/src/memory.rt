// Memory for a medium, made from what is to stand in it.
ghost use Rattle.std.specs.Prelude.{◌≡◌, IfOk};
ghost use Rattle.store_examples.specs.Memory.{block_memory, page_memory};

use crate::filled;
use std::alloc::{AllocError, Global};

// the owner that the layout gives a page of no block: the tests' own, to which the card is held
const NOBODY: u32 = u32::MAX;

// The memory of a flat medium: for each byte a block that has it throughout.
pub fn blocks(heap: Global, bytes: &[u8]) -> Result<Vec<u8>, AllocError>
    ensures { IfOk result (λ memory. memory.items ≡ block_memory bytes.now) }
{
    // a block at a time: as a `flat_map` over each byte's repetitions it took nearly thirteen times as long
    let mut memory = Vec::new(heap);
    for byte in bytes {
        memory.extend_from_slice(&filled(*byte))?;
    }
    Ok(memory)
}

// A page of a flash card, with one byte throughout its content.
#[derive(Clone, Copy)]
pub struct Page {
    pub owner: u32,
    pub byte: u8,
}

// A page with an owner, be it a block of the card or not.
pub fn owned(owner: u32, byte: u8) -> Page
    ensures { (result.owner ≡ owner) × (result.byte ≡ byte) }
{
    Page { owner, byte }
}

// A page that belongs to no block.
pub fn free(byte: u8) -> Page
    ensures { (result.owner ≡ 0xffff_ffff) × (result.byte ≡ byte) }
{
    owned(NOBODY, byte)
}

// The memory of a flash card with these pages.
pub fn pages(heap: Global, pages: &[Page]) -> Result<Vec<u8>, AllocError>
    ensures { IfOk result (λ memory. memory.items ≡ page_memory pages.now) }
{
    // a loop: tried as `flat_map` over the owner's bytes and the content: the proof didn't close
    let mut memory = Vec::new(heap);
    for page in pages {
        memory.extend_from_slice(&page.owner.to_be_bytes())?;
        memory.extend_from_slice(&filled(page.byte))?;
    }
    Ok(memory)
}
