// What the write caches have in common: an entry, how one is written back to the store below, and the cache
// itself, over what each kind holds.
#![tactic(auto)]

ghost use Rattle.std.specs.Prelude.{◌≡◌};
ghost use Rattle.store.specs.Steps.{stepped};
ghost use Rattle.cache.specs.WriteBack.{write_back};

use store::{BLOCK_BYTES, Store, StoreError};

mod buffer;
mod write_cache;

pub use buffer::Buffer;
pub use write_cache::Cache;

// A content held for a block.
#[derive(Clone, Copy)]
pub struct Entry {
    pub block: u32,
    pub content: [u8; BLOCK_BYTES],
}

// An entry, if there is one, is put to the store below; only a lost power ends the call.
pub fn write_back<S: Store>(below: &mut S, entry: Option<Entry>) -> Result<(), StoreError>
    ensures { stepped result (S.Store.model below.new) ≡ write_back S.Store.steps (S.Store.model below.old) entry }
{
    let Some(entry) = entry else {
        return Ok(());
    };
    match below.put_block(entry.block, &entry.content) {
        Err(StoreError::NoSuchBlock) => Ok(()),
        answer => answer,
    }
}
