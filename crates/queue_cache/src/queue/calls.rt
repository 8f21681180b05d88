// How entries come in and are written back.
ghost use Rattle.std.specs.Prelude.{◌≡◌, None, refl};
ghost use Rattle.std.specs.Option.{option_copied};
ghost use Rattle.store.specs.Steps.{stepped};
ghost use Rattle.cache.specs.Kinds.{holding};
ghost use Rattle.queue_cache.specs.Modeled.{queue_held};
ghost use Rattle.queue_cache.specs.Queue.{latest, holds, evict_oldest, queue_kind};
ghost use Rattle.queue_cache.specs.QueueKeeps.{queue_keeps, queue_within};

use super::QueueBuffer;
use cache::{Buffer, Entry, write_back};
use std::alloc::{AllocError, Global};
use std::collections::VecDeque;
use store::{BLOCK_BYTES, Store, StoreError};

pub const PLACES: usize = 16;

// The block's newest content, of entries in order of arrival.
fn latest_in(entries: &[Entry], block: u32) -> Option<&[u8; BLOCK_BYTES]>
    ensures { option_copied result ≡ latest None entries.now block }
{
    let newest = entries.iter().rev().find(|entry| block == entry.block)?;
    Some(&newest.content)
}

impl QueueBuffer {
    // The newest content held for the block.
    fn latest(&self, block: u32) -> Option<&[u8; BLOCK_BYTES]>
        ensures { option_copied result ≡ latest None (queue_held self.now) block }
    {
        if self.entries.is_empty() {
            return None;
        }
        let (older, newer) = self.entries.as_slices();
        match latest_in(newer, block) {
            Some(content) => Some(content),
            None => latest_in(older, block),
        }
    }

    // Whether a content of the block is held.
    fn holds(&self, block: u32) -> bool
        ensures { result ≡ holds block (queue_held self.now) }
    {
        self.latest(block).is_some()
    }

    // The oldest entry, if there is one, is written back.
    fn evict_oldest<S: Store>(&mut self, below: &mut S) -> Result<(), StoreError>
        ensures { stepped result (holding (queue_held self.new) (S.Store.model below.new)) ≡ evict_oldest S.Store.steps (S.Store.model below.old) (queue_held self.old) }
    {
        let entry = self.entries.pop_front();
        write_back(below, entry)
    }
}

impl<S: Store> Buffer<S> for QueueBuffer {
    ghost kind = { queue_kind };

    ghost model = { queue_held };

    ghost none = { refl };

    ghost valid = { λ buffer. buffer.fits };

    ghost keeps = { queue_keeps S.Store.steps S.Store.meaning S.Store.good S.Store.keeps };

    ghost preserves = { queue_within S.Store.steps S.Store.meaning S.Store.good S.Store.keeps };

    // An empty queue with all its places.
    fn new(heap: Global) -> Result<QueueBuffer, AllocError> {
        let entries = VecDeque::with_capacity(heap, PLACES)?;
        Ok(QueueBuffer { entries })
    }

    // How many places are taken.
    fn pending(&self) -> usize {
        self.entries.len()
    }

    fn lookup(&self, block: u32) -> Option<&[u8; BLOCK_BYTES]> {
        self.latest(block)
    }

    // The entry goes to the end; if all places are taken, the oldest is written back first.
    fn put(&mut self, below: &mut S, entry: Entry) -> Result<(), StoreError> {
        if self.entries.len() >= PLACES {
            self.evict_oldest(below)?;
        }
        self.entries.push_back_reserved(entry);
        Ok(())
    }

    // The oldest are written back until none of the block remains.
    #[tactic(auto, using(crate::proofs::Draining::drain_next, crate::proofs::Draining::drain_done))]
    fn evict(&mut self, below: &mut S, block: u32) -> Result<(), StoreError> {
        while self.holds(block) {
            self.evict_oldest(below)?;
        }
        Ok(())
    }

    // All are written back, oldest first. The loop of `evict` again: a closure for its test would need more clauses than it saves lines.
    #[tactic(auto, using(crate::proofs::Draining::drain_next, crate::proofs::Draining::drain_done))]
    fn evict_all(&mut self, below: &mut S) -> Result<(), StoreError> {
        while !self.entries.is_empty() {
            self.evict_oldest(below)?;
        }
        Ok(())
    }
}
