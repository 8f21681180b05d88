// The flat medium, such as battery-held memory: block b stands at bytes 512 × b to 512 × b + 511.
#![tactic(auto)]

ghost use Rattle.std.specs.Prelude.{◌*◌, true};
ghost use Rattle.medium.specs.Medium.{Stores};
ghost use Rattle.flat_medium.specs.Flat.{FlatModel, FlatGood, flat};
ghost use Rattle.flat_medium.specs.Modeled.{flat_model};
ghost use Rattle.flat_medium.specs.FlatKeeps.{flat_keeps, flat_stores};
ghost use Rattle.std.proofs.Common.{rules, arith};

use medium::memory::array_at;
use medium::{BlockMedium, Layout};
use std::alloc::AllocFailed;
use store::{BLOCK_BYTES, overwrite};

pub type FlatMedium = BlockMedium<Flat>;

// The blocks one after the other.
#[derive(Drop)]
pub struct Flat {
    memory: Vec<u8>,
}

impl Layout for Flat {
    ghost Model = { FlatModel };

    ghost model = { flat_model };

    ghost medium = { flat };

    ghost good = { FlatGood };

    ghost stores = { Stores flat };

    ghost needed = { λ count. count * 512 };

    ghost bytes = { λ l. l.memory };

    ghost made = { λ _ _. true };

    ghost fresh = { λ _. Unit {0} };

    ghost refusable = { ⊥ };

    ghost counts = { Prim.search rules };

    ghost grants = { Prim.search rules };

    ghost valid = { first_of (Prim.search rules, Prim.grind (arith, Self.row.coded.inj)) };

    ghost keeps = { flat_keeps };

    ghost lawful = { flat_stores };

    fn needed(count: u32) -> usize {
        count as usize * BLOCK_BYTES
    }

    // Nothing is kept beside the memory, so there is nothing to refuse.
    fn over(memory: Vec<u8>, _count: u32) -> Result<Flat, AllocFailed<Vec<u8>>> {
        Ok(Flat { memory })
    }

    fn into_memory(self) -> Vec<u8> {
        self.memory
    }

    fn content(&self, _count: u32, block: u32) -> [u8; BLOCK_BYTES] {
        array_at(&self.memory, block as usize * BLOCK_BYTES)
    }

    fn store(&mut self, _count: u32, block: u32, content: &[u8; BLOCK_BYTES]) {
        overwrite(&mut self.memory, block as usize * BLOCK_BYTES, content);
    }
}
