// Which pages are free: a bit for each page, and a mark for each word of pages that has a free one.
ghost use Rattle.std.specs.Prelude.{◌≡◌, ◌<◌, ◌≤◌, false, true, length, replicate, IfOk, slice_set};
ghost use Rattle.flash_card.specs.Tables.{FirstMarked, Grouped};

use crate::bits::{Bits, WORD_BITS};
use crate::marks::Marks;
use std::alloc::{AllocError, Global};

#[derive(Drop)]
pub struct FreePages {
    pub pages: Bits,
    words: Marks,
    ghost grouped: { Grouped pages words.marks },
}

impl FreePages {
    // So many pages, none of them free.
    pub fn none(heap: Global, count: usize) -> Result<FreePages, AllocError>
        ensures { IfOk result (λ free. free.pages ≡ replicate count false) }
    {
        let pages = Bits::none(heap, count)?;
        let words = Marks::none(heap, count / WORD_BITS + 1)?;
        Ok(FreePages { pages, words })
    }

    pub fn insert(&mut self, page: usize)
        requires { page < length self.old.pages }
        ensures { self.new.pages ≡ slice_set self.old.pages page true }
    {
        self.pages.set(page);
        self.words.set(page / WORD_BITS);
    }

    pub fn remove(&mut self, page: usize)
        requires { page < length self.old.pages }
        ensures { self.new.pages ≡ slice_set self.old.pages page false }
    {
        self.pages.clear(page);
        if self.pages.word_is_empty(page) {
            self.words.clear(page / WORD_BITS);
        }
    }

    // The first free page of those from `start` on and before `end`.
    pub fn first_between(&self, start: usize, end: usize) -> Option<usize>
        requires { end ≤ length self.now.pages }
        ensures { FirstMarked self.now.pages start end result }
    {
        let mut page = start;
        while page < end {
            if let Some(found) = self.pages.first_in_word(page, end) {
                return Some(found);
            }
            let word = self
                .words
                .first_between(page / WORD_BITS + 1, end.div_ceil(WORD_BITS))?;
            page = word * WORD_BITS;
        }
        None
    }
}
