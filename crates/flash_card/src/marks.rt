// A row of bits, and a bit for each word of them that has one set, so that a search passes over words that have none.
ghost use Rattle.std.specs.Prelude.{◌≡◌, ◌<◌, ◌≤◌, false, true, length, replicate, IfOk, slice_set};
ghost use Rattle.flash_card.specs.Tables.{FirstMarked, Grouped};

use crate::bits::{Bits, WORD_BITS};
use std::alloc::{AllocError, Global};

#[derive(Drop)]
pub struct Marks {
    pub marks: Bits,
    words: Bits,
    ghost grouped: { Grouped marks words },
}

impl Marks {
    // So many, none of them set.
    pub fn none(heap: Global, count: usize) -> Result<Marks, AllocError>
        ensures { IfOk result (λ row. row.marks ≡ replicate count false) }
    {
        let marks = Bits::none(heap, count)?;
        let words = Bits::none(heap, count / WORD_BITS + 1)?;
        Ok(Marks { marks, words })
    }

    pub fn set(&mut self, place: usize)
        requires { place < length self.old.marks }
        ensures { self.new.marks ≡ slice_set self.old.marks place true }
    {
        self.marks.set(place);
        self.words.set(place / WORD_BITS);
    }

    pub fn clear(&mut self, place: usize)
        requires { place < length self.old.marks }
        ensures { self.new.marks ≡ slice_set self.old.marks place false }
    {
        self.marks.clear(place);
        if self.marks.word_is_empty(place) {
            self.words.clear(place / WORD_BITS);
        }
    }

    // The first mark of those from `start` on and before `end`.
    pub fn first_between(&self, start: usize, end: usize) -> Option<usize>
        requires { end ≤ length self.now.marks }
        ensures { FirstMarked self.now.marks start end result }
    {
        let mut place = start;
        while place < end {
            if let Some(found) = self.marks.first_in_word(place, end) {
                return Some(found);
            }
            let word = self
                .words
                .first_between(place / WORD_BITS + 1, end.div_ceil(WORD_BITS))?;
            place = word * WORD_BITS;
        }
        None
    }
}
