// A write cache of any kind: a store above the store below.
ghost use Rattle.std.specs.Prelude.{◌≡◌, ◌+◌, ◌<◌, length, MatchResult};
ghost use Rattle.store.specs.Meaning.{held};
ghost use Rattle.cache.specs.Kinds.{CacheModel, cache_steps, cache_meaning, CacheGood, BlocksWithin};
ghost use Rattle.cache.specs.Modeled.{cache_model};
ghost use Rattle.cache.specs.Preserves.{Preserves};

use crate::{Buffer, Entry};
use std::alloc::{AllocFailed, Global};
use store::{BLOCK_BYTES, Store, StoreError, require_power};

#[derive(Drop)]
pub struct Cache<S, B> {
    below: S,
    held: B,
}

impl<S: Store, B: Buffer<S>> Cache<S, B> {
    // With nothing held over the store below, or that store back for want of memory. It will only ever hold
    // blocks below the count.
    pub fn new(heap: Global, below: S) -> Result<Cache<S, B>, AllocFailed<S>>
        ensures made { MatchResult result (λ cache. (cache.below ≡ below) × (B.model cache.held ≡ B.kind.empty) × BlocksWithin B.kind S.Store.meaning (cache_model B.model S.Store.model cache)) (λ back. back.value ≡ below) }
        ensures within { Preserves (cache_steps B.kind S.Store.steps) (CacheGood B.kind S.Store.good) (BlocksWithin B.kind S.Store.meaning) }
    {
        match B::new(heap) {
            Ok(held) => Ok(Cache { below, held }),
            Err(_) => Err(AllocFailed { value: below }),
        }
    }

    // The store below, without what is held above it.
    pub fn into_below(self) -> S
        ensures { result ≡ self.below }
    {
        let Cache { below, held: _ } = self;
        below
    }

    // How many contents are held here. With power on, they are held beside those held below; without power
    // they are lost.
    pub fn pending(&self) -> usize
        ensures value { result ≡ length (B.kind.entries (B.model self.now.held)) }
        ensures held { BlocksWithin B.kind S.Store.meaning (cache_model B.model S.Store.model self.now) → 0 < (S.Store.meaning (S.Store.model self.now.below)).grant → held (cache_meaning B.kind S.Store.meaning (cache_model B.model S.Store.model self.now)) ≡ held (S.Store.meaning (S.Store.model self.now.below)) + result }
    {
        self.held.pending()
    }
}

impl<S: Store, B: Buffer<S>> Store for Cache<S, B> {
    ghost Model = { CacheModel B.kind.Held S.Store.Model };

    ghost model = { cache_model B.model S.Store.model };

    ghost steps = { cache_steps B.kind S.Store.steps };

    ghost meaning = { cache_meaning B.kind S.Store.meaning };

    ghost good = { CacheGood B.kind S.Store.good };

    ghost keeps = { B.keeps };

    ghost valid = { λ cache. record { below = S.Store.valid cache.below; held = B.valid cache.held } };

    fn count(&self) -> u32 {
        self.below.count()
    }

    fn power(&self) -> bool {
        self.below.power()
    }

    fn read_block(&mut self, block: u32) -> Result<[u8; BLOCK_BYTES], StoreError> {
        self.admit(block)?;
        if let Some(content) = self.held.lookup(block) {
            return Ok(*content);
        }
        self.below.read_block(block)
    }

    fn put_block(&mut self, block: u32, content: &[u8; BLOCK_BYTES]) -> Result<(), StoreError> {
        self.admit(block)?;
        let content = *content;
        self.held.put(&mut self.below, Entry { block, content })
    }

    fn force_block(&mut self, block: u32) -> Result<(), StoreError> {
        self.admit(block)?;
        self.held.evict(&mut self.below, block)?;
        self.below.force_block(block)
    }

    fn flush(&mut self) -> Result<(), StoreError> {
        require_power(self.power())?;
        self.held.evict_all(&mut self.below)?;
        self.below.flush()
    }
}
