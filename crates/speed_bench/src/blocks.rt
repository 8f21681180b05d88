// Which blocks the calls of a pass are on. A length is how many blocks a call is on.
ghost use Rattle.std.specs.Prelude.{◌≤◌};

use crate::timing::PASS_BLOCKS;
use rand::RngExt;
use rand::seq::SliceRandom;
use rand_pcg::Pcg32;
use std::alloc::{AllocError, Global};

#[derive(Clone, Copy)]
enum Order {
    Random,
    Rising,
}

// The calls of a pass over a store of so many blocks.
#[derive(Clone, Copy)]
pub struct Calls {
    order: Order,
    blocks: u32,
    pub length: u16,
    ghost fit: { (1 ≤ length) × (length ≤ blocks) },
}

impl Calls {
    // Calls anywhere, the same at each run.
    pub fn random(blocks: u32, length: u16) -> Calls
        requires { (1 ≤ length) × (length ≤ blocks) }
    {
        Calls {
            order: Order::Random,
            blocks,
            length,
        }
    }

    // Calls one after the other, and then from block 0 again.
    pub fn rising(blocks: u32, length: u16) -> Calls
        requires { (1 ≤ length) × (length ≤ blocks) }
    {
        Calls {
            order: Order::Rising,
            blocks,
            length,
        }
    }

    // The first block of each call.
    pub fn starts(self, heap: Global) -> Result<Vec<u32>, AllocError> {
        match self.order {
            Order::Random => random(heap, self.blocks, self.length),
            Order::Rising => rising(heap, self.blocks, self.length),
        }
    }
}

fn random(heap: Global, blocks: u32, length: u16) -> Result<Vec<u32>, AllocError>
    requires { (1 ≤ length) × (length ≤ blocks) }
{
    let mut rng = Pcg32::new(42, 54);
    let mut starts = Vec::new(heap);
    for _ in 0..PASS_BLOCKS / u32::from(length) {
        starts.push(rng.random_range(0..=blocks - u32::from(length)))?;
    }
    Ok(starts)
}

fn rising(heap: Global, blocks: u32, length: u16) -> Result<Vec<u32>, AllocError>
    requires { (1 ≤ length) × (length ≤ blocks) }
{
    let step = u32::from(length);
    let mut starts = Vec::new(heap);
    let mut start = 0;
    for _ in 0..PASS_BLOCKS / step {
        starts.push(start)?;
        start = if blocks - start >= 2 * step {
            start + step
        } else {
            0
        };
    }
    Ok(starts)
}

// All blocks, in a random order.
pub fn shuffled(heap: Global, blocks: u32) -> Result<Vec<u32>, AllocError> {
    let mut order: Vec<u32> = (0..blocks).collect(heap)?;
    order.shuffle(&mut Pcg32::new(42, 54));
    Ok(order)
}
