// How the slots are filled and written back.
ghost use Rattle.std.specs.Prelude.{◌≡◌, ◌<◌, refl};
ghost use Rattle.store.specs.Steps.{stepped};
ghost use Rattle.cache.specs.Kinds.{holding};
ghost use Rattle.table_cache.specs.Modeled.{table_held};
ghost use Rattle.table_cache.specs.Table.{evict, table_kind};
ghost use Rattle.table_cache.specs.TableKeeps.{table_keeps, table_within};

use super::TableBuffer;
use cache::{Buffer, Entry, write_back};
use slot_table::{SLOTS, SlotTable};
use std::alloc::{AllocError, Global};
use store::{BLOCK_BYTES, Store, StoreError};

impl TableBuffer {
    // The slot at place i is written back and emptied.
    fn evict_slot<S: Store>(&mut self, below: &mut S, i: usize) -> Result<(), StoreError>
        requires { i < 8 }
        ensures { stepped result (holding (table_held self.new) (S.Store.model below.new)) ≡ evict S.Store.steps (holding (table_held self.old) (S.Store.model below.old)) i }
    {
        let entry = self.table.slot(i).take();
        write_back(below, entry)
    }
}

impl<S: Store> Buffer<S> for TableBuffer {
    ghost kind = { table_kind };

    ghost model = { table_held };

    ghost none = { refl };

    ghost valid = { λ buffer. buffer.fits };

    ghost keeps = { table_keeps S.Store.steps S.Store.meaning S.Store.good S.Store.keeps };

    ghost preserves = { table_within S.Store.steps S.Store.meaning S.Store.good S.Store.keeps };

    // Eight empty slots, with the hand at the first.
    fn new(heap: Global) -> Result<TableBuffer, AllocError> {
        let table = SlotTable::new(heap)?;
        Ok(TableBuffer { table })
    }

    // How many slots are full.
    fn pending(&self) -> usize {
        self.table.count_full()
    }

    fn lookup(&self, block: u32) -> Option<&[u8; BLOCK_BYTES]> {
        Some(&self.table.lookup(block)?.content)
    }

    // The entry goes into its own slot, else into an empty one, else into the one at the hand, which is written back first.
    fn put(&mut self, below: &mut S, entry: Entry) -> Result<(), StoreError> {
        if let Some(place) = self.table.place_for(entry.block) {
            *self.table.slot(place) = Some(entry);
            return Ok(());
        }
        let hand = self.table.hand;
        self.evict_slot(below, hand)?;
        *self.table.slot(hand) = Some(entry);
        self.table.hand = (hand + 1) % SLOTS;
        Ok(())
    }

    // The block's slot, if it has one, is written back and emptied.
    #[tactic(auto, using(crate::proofs::Evicting::evict_past, store::proofs::Places::below_none))]
    fn evict(&mut self, below: &mut S, block: u32) -> Result<(), StoreError> {
        match self.table.slot_of(block) {
            Some(place) => self.evict_slot(below, place),
            None => Ok(()),
        }
    }

    // All slots are written back and emptied, from 0 to 7.
    #[tactic(auto, using(store::proofs::InTurn::goes_on), unfolding(crate::specs::Table::evict_first))]
    fn evict_all(&mut self, below: &mut S) -> Result<(), StoreError> {
        // by index: a flush is to be a loop over the slots with their index
        for i in 0..SLOTS {
            self.evict_slot(below, i)?;
        }
        Ok(())
    }
}
