// The memory of a flash card with as few pages as it can have, and each block on one of them.
use rand::Rng;
use rand::seq::SliceRandom;
use std::alloc::{AllocError, Global};
use store::BLOCK_BYTES;

// the owner of a page that belongs to no block
const NOBODY: u32 = u32::MAX;

// The blocks lie in an order that the generator gives, and hold zeros. The page in the middle is free.
pub fn full_card<R: Rng>(heap: Global, rng: &mut R, blocks: u32) -> Result<Vec<u8>, AllocError> {
    let owners = owners(heap, rng, blocks)?;
    let mut memory = Vec::new(heap);
    for owner in &owners {
        push_page(&mut memory, *owner)?;
    }
    Ok(memory)
}

// The owner of each page.
fn owners<R: Rng>(heap: Global, rng: &mut R, blocks: u32) -> Result<Vec<u32>, AllocError> {
    let mut owners: Vec<u32> = (0..blocks).collect(heap)?;
    owners.shuffle(rng);
    owners.insert(owners.len() / 2, NOBODY)?;
    Ok(owners)
}

fn push_page(memory: &mut Vec<u8>, owner: u32) -> Result<(), AllocError> {
    memory.extend_from_slice(&owner.to_be_bytes())?;
    memory.extend_from_slice(&[0; BLOCK_BYTES])
}
