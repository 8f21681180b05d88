// A table of eight slots, each empty or with an entry, and a hand.
#![tactic(auto)]

ghost use Rattle.std.specs.Prelude.{◌≡◌, ◌<◌, length, replicate, IfOk, None, vec_len, slice_index_or};
ghost use Rattle.std.specs.Borrow.{sem, follows};
ghost use Rattle.std.specs.Option.{option_copied};
ghost use Rattle.std.specs.Vec.{with_item};
ghost use Rattle.std.specs.contracts.option.Option.{the_row as option-row};
ghost use Rattle.cache.specs.contracts.Entry.{the_row as entry_row};
ghost use Rattle.slot_table.specs.contracts.SlotTable.{the_row};
ghost use Rattle.slot_table.specs.Slots.{has_block, at_place, slot_of, empty_slot, place_for, full};

use cache::Entry;
use std::alloc::{AllocError, Global};

pub const SLOTS: usize = 8;

#[derive(Drop)]
pub struct SlotTable {
    // always eight, and yet no array: an element lent out of an array gets no generated proof
    pub slots: Vec<Option<Entry>>,
    pub hand: usize,
}

impl SlotTable {
    // Eight empty slots, with the hand at the first.
    pub fn new(heap: Global) -> Result<SlotTable, AllocError>
        ensures { IfOk result (λ t. (t.slots.items ≡ replicate 8 None) × (t.hand ≡ 0)) }
    {
        let slots = vec![in heap; None; SLOTS]?;
        Ok(SlotTable { slots, hand: 0 })
    }

    pub fn count_full(&self) -> usize
        ensures { result ≡ length (full self.now.slots.items) }
    {
        self.slots.iter().filter(|slot| slot.is_some()).count()
    }

    // The place of the block's slot.
    pub fn slot_of(&self, block: u32) -> Option<usize>
        ensures { result ≡ at_place self.now.slots.items (slot_of self.now.slots.items block) }
    {
        self.slots.iter().position(|slot| has_block(slot, block))
    }

    // The place of the first empty slot.
    fn empty_slot(&self) -> Option<usize>
        ensures { result ≡ at_place self.now.slots.items (empty_slot self.now.slots.items) }
    {
        self.slots.iter().position(Option::is_none)
    }

    // The entry in the block's slot.
    pub fn lookup(&self, block: u32) -> Option<&Entry>
        ensures { option_copied result ≡ slice_index_or self.now.slots.items (slot_of self.now.slots.items block) None }
    {
        self.slots[self.slot_of(block)?].as_ref()
    }

    // Where a content for the block goes if no slot has to be written back: its own slot, else the first empty one.
    pub fn place_for(&self, block: u32) -> Option<usize>
        ensures { result ≡ at_place self.now.slots.items (place_for self.now.slots.items block) }
    {
        self.slot_of(block).or_else(|| self.empty_slot())
    }

    // One slot, lent to be replaced or emptied.
    pub fn slot(&mut self, i: usize) -> &mut Option<Entry>
        requires { i < vec_len self.old.slots }
        ensures value { result.now ≡ slice_index_or self.old.slots.items i result.now }
        ensures* follows { sem 𝓛 (follows the_row (option-row entry_row) self.entry.ghost_name result.ghost_name (λ w. record { slots = with_item self.old.slots i w; hand = self.old.hand })) }
    {
        &mut self.slots[i]
    }
}

fn has_block(slot: &Option<Entry>, block: u32) -> bool
    ensures { result ≡ has_block block slot.now }
{
    match slot {
        Some(entry) => block == entry.block,
        None => false,
    }
}
