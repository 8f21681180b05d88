// What a write cache holds above the store below, and how it writes that back.
ghost use Rattle.std.specs.Prelude.{◌≡◌, [], length, IfOk};
ghost use Rattle.std.specs.Option.{option_copied};
ghost use Rattle.store.specs.Keeps.{Keeps};
ghost use Rattle.store.specs.Steps.{stepped};
ghost use Rattle.cache.specs.Kinds.{CacheKind, holding, cache_steps, cache_meaning, CacheGood, BlocksWithin};
ghost use Rattle.cache.specs.Preserves.{Preserves};

use crate::Entry;
use std::alloc::{AllocError, Global};
use store::{BLOCK_BYTES, Store, StoreError};

// The contents that a write cache holds over a store S. Each call's promise is an equation with the steps of
// its kind.
pub trait Buffer<S: Store>: Drop {
    // the kind of cache that holds its contents so
    ghost kind: { CacheKind };

    // what is held, as the steps see it
    ghost model: { Self → kind.Held };

    // With nothing held.
    fn new(heap: Global) -> Result<Self, AllocError>
        ensures { IfOk result (λ buffer. model buffer ≡ kind.empty) };

    // How many contents are held.
    fn pending(&self) -> usize
        ensures { result ≡ length (kind.entries (model self.now)) };

    // The newest content held for the block.
    fn lookup(&self, block: u32) -> Option<&[u8; BLOCK_BYTES]>
        ensures { option_copied result ≡ kind.lookup (model self.now) block };

    // The entry comes in; another may have to be written back for it.
    fn put(&mut self, below: &mut S, entry: Entry) -> Result<(), StoreError>
        ensures { stepped result (holding (model self.new) (S.Store.model below.new)) ≡ kind.put S.Store.steps (holding (model self.old) (S.Store.model below.old)) entry };

    // Entries are written back until none of the block is held.
    fn evict(&mut self, below: &mut S, block: u32) -> Result<(), StoreError>
        ensures { stepped result (holding (model self.new) (S.Store.model below.new)) ≡ kind.evict S.Store.steps (holding (model self.old) (S.Store.model below.old)) block };

    // All entries are written back.
    fn evict_all(&mut self, below: &mut S) -> Result<(), StoreError>
        ensures { stepped result (holding (model self.new) (S.Store.model below.new)) ≡ kind.evict_all S.Store.steps (holding (model self.old) (S.Store.model below.old)) };

    ghost none: { kind.entries kind.empty ≡ [] };

    ghost valid: { (buffer : Self) → kind.fits (model buffer) };

    ghost keeps: { Keeps (cache_steps kind S.Store.steps) (cache_meaning kind S.Store.meaning) (CacheGood kind S.Store.good) };

    ghost preserves: { Preserves (cache_steps kind S.Store.steps) (CacheGood kind S.Store.good) (BlocksWithin kind S.Store.meaning) };
}
