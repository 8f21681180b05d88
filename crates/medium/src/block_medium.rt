// A medium of blocks, of any layout.
ghost use Rattle.std.specs.Prelude.{◌≡◌, ◌<◌, ◌≤◌, true, length, vec_len, IfErr, MatchResult};
ghost use Rattle.store.specs.Steps.{stepped};
ghost use Rattle.medium.specs.Check.{check_number, checked};
ghost use Rattle.medium.specs.Medium.{medium_steps, medium_meaning};

use crate::Unfit;
use crate::grant::spend;
use crate::layout::Layout;
use crate::memory::check;
use std::alloc::AllocFailed;
use store::{BLOCK_BYTES, Store, StoreError, require_power};

// The grant is how many block stores the medium will still make; power is on while there is some left.
#[derive(Drop)]
pub struct BlockMedium<L: Layout> {
    layout: L,
    count: u32,
    grant: u32,
    ghost some: { 1 ≤ count },
    ghost few: { count ≤ 16777216 },
    ghost granted: { grant ≤ 4294967295 },
    ghost room: { L.needed count ≤ vec_len (L.bytes layout) },
    ghost made: { L.made layout count ≡ true },
}

impl<L: Layout> BlockMedium<L> {
    // Do memory and count make a medium?
    pub fn check(memory: &[u8], count: u32) -> Result<(), Unfit>
        ensures { result ≡ checked count (L.needed count) (length memory.now) }
    {
        check(memory, count, L::needed(count))
    }

    // A medium over memory so checked, which is left as it is, or that memory back for want of more.
    pub fn new(
        memory: Vec<u8>,
        count: u32,
        grant: u32,
    ) -> Result<BlockMedium<L>, AllocFailed<Vec<u8>>>
        requires { check_number (checked count (L.needed count) (vec_len memory)) ≡ 0 }
        ensures medium { MatchResult result (λ medium. (L.bytes medium.layout ≡ memory) × (medium.count ≡ count) × (medium.grant ≡ grant) × L.fresh medium.layout) (λ back. back.value ≡ memory) }
        ensures refused { IfErr result (λ _. L.refusable) }
    {
        Ok(BlockMedium {
            layout: L::over(memory, count)?,
            count,
            grant,
        })
    }

    // How many block stores the medium will still make.
    pub fn grant(&self) -> u32
        ensures { result ≡ self.now.grant }
    {
        self.grant
    }

    // The memory back, to see what stands on the medium.
    pub fn into_memory(self) -> Vec<u8>
        ensures { result ≡ L.bytes self.layout }
    {
        let BlockMedium {
            layout,
            count: _,
            grant: _,
        } = self;
        layout.into_memory()
    }
}

impl<L: Layout> Store for BlockMedium<L> {
    ghost Model = { L.Model };

    ghost model = { λ s. L.model s.layout s.count s.grant };

    ghost steps = { medium_steps L.medium };

    ghost meaning = { medium_meaning L.medium };

    ghost good = { L.good };

    ghost keeps = { L.keeps };

    ghost valid = { λ s. L.valid s.layout s.count s.grant (record { some = s.some; few = s.few; granted = s.granted; room = s.room }) };

    fn count(&self) -> u32 {
        self.count
    }

    fn power(&self) -> bool {
        self.grant > 0
    }

    fn read_block(&mut self, block: u32) -> Result<[u8; BLOCK_BYTES], StoreError> {
        self.admit(block)?;
        Ok(self.layout.content(self.count, block))
    }

    // One store: the block takes the content, and the grant is lower by 1.
    fn put_block(&mut self, block: u32, content: &[u8; BLOCK_BYTES]) -> Result<(), StoreError>
        ensures steps { let before = L.model self.old.layout self.old.count self.old.grant in let after = L.model self.new.layout self.new.count self.new.grant in stepped result after ≡ (medium_steps L.medium).put before block content.now }
        ensures stores { let before = L.model self.old.layout self.old.count self.old.grant in let after = L.model self.new.layout self.new.count self.new.grant in block < self.old.count → 0 < self.old.grant → L.stores block content.now before after }
    {
        self.admit(block)?;
        self.layout.store(self.count, block, content);
        spend(&mut self.grant)
    }

    fn force_block(&mut self, block: u32) -> Result<(), StoreError> {
        self.admit(block)
    }

    fn flush(&mut self) -> Result<(), StoreError> {
        require_power(self.power())
    }
}
