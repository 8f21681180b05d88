// What the card keeps beside its bytes, so that no call searches the pages: which page each block shows, which blocks have
// further pages, and which pages are free.
ghost use Rattle.std.specs.Prelude.{◌≡◌, ◌+◌, ◌<◌, false, length, replicate, IfOk, slice_index_or, slice_set, vec_len};
ghost use Rattle.flash_card.specs.Card.{pages};
ghost use Rattle.flash_card.specs.Tables.{Entered, Further, Unmarked};

use crate::free_pages::FreePages;
use crate::pages::Pages;
use std::alloc::{AllocError, Global};

#[derive(Drop)]
pub struct Tables {
    // each block's first page, or the number of pages if it has none
    pub shown: Vec<usize>,
    // may the block have further pages?
    stale: Vec<bool>,
    pub free: FreePages,
}

impl Tables {
    // The tables of a card with so many blocks, from one pass over its pages.
    // A block is marked only if it has a page behind its first.
    pub fn of(heap: Global, card: &Pages, count: u32) -> Result<Tables, AllocError>
        ensures entered { IfOk result (λ t. Entered card.now.memory.items (pages card.now.memory.items) t.shown.items t.stale.items t.free.pages) }
        ensures further { IfOk result (λ t. Further card.now.memory.items (pages card.now.memory.items) t.shown.items t.stale.items) }
        ensures count { IfOk result (λ t. vec_len t.shown ≡ count) }
    {
        let mut tables = Tables::empty(heap, card.count(), count)?;
        for page in 0..card.count() {
            tables.enter(card, page);
        }
        Ok(tables)
    }

    // The tables before any page is entered.
    fn empty(heap: Global, page_count: usize, count: u32) -> Result<Tables, AllocError>
        ensures { IfOk result (λ t. (t.shown.items ≡ replicate count page_count) × (t.stale.items ≡ replicate count false) × (t.free.pages ≡ replicate page_count false)) }
    {
        let shown = vec![in heap; page_count; count as usize]?;
        let stale = vec![in heap; false; count as usize]?;
        let free = FreePages::none(heap, page_count)?;
        Ok(Tables { shown, stale, free })
    }

    // The page after those already entered.
    fn enter(&mut self, card: &Pages, page: usize)
        requires inside { page < pages card.now.memory.items }
        requires before { Entered card.now.memory.items page self.old.shown.items self.old.stale.items self.old.free.pages }
        requires further { Further card.now.memory.items page self.old.shown.items self.old.stale.items }
        requires later { Unmarked page self.old.free.pages }
        ensures after { Entered card.now.memory.items (page + 1) self.new.shown.items self.new.stale.items self.new.free.pages }
        ensures further { Further card.now.memory.items (page + 1) self.new.shown.items self.new.stale.items }
        ensures later { Unmarked (page + 1) self.new.free.pages }
        ensures count { vec_len self.new.shown ≡ vec_len self.old.shown }
    {
        let owner = card.owner(page) as usize;
        if owner >= self.shown.len() {
            self.free.insert(page);
        } else if self.shown[owner] < page {
            self.stale[owner] = true;
            self.free.insert(page);
        } else {
            self.shown[owner] = page;
        }
    }

    // May the block have further pages?
    pub fn is_marked(&self, block: u32) -> bool
        requires { block < vec_len self.now.stale }
        ensures { result ≡ slice_index_or self.now.stale.items block false }
    {
        self.stale[block as usize]
    }

    // The block shows the page, and has no other.
    pub fn take(&mut self, block: u32, page: usize)
        requires block { block < vec_len self.old.shown }
        requires mark { block < vec_len self.old.stale }
        requires page { page < length self.old.free.pages }
        ensures shown { self.new.shown.items ≡ slice_set self.old.shown.items block page }
        ensures stale { self.new.stale.items ≡ slice_set self.old.stale.items block false }
        ensures free { self.new.free.pages ≡ slice_set self.old.free.pages page false }
    {
        self.shown[block as usize] = page;
        self.stale[block as usize] = false;
        self.free.remove(page);
    }
}
