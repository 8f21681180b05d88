// A row of bits, in words of 64.
ghost use Rattle.std.specs.Prelude.{◌≡◌, ℕ, ◌+◌, ◌*◌, ◌/◌, ◌<◌, ◌≤◌, Bool, true, false, List, length, min, replicate, IfOk, IsFalse, IsTrue, slice_index_or, slice_set};
ghost use Rattle.flash_card.specs.Bits.{row, Holds};
ghost use Rattle.flash_card.specs.Tables.{FirstMarked, HasMark};

use std::alloc::{AllocError, Global};
use std::marker::Model;

pub const WORD_BITS: usize = 64;

#[derive(Drop)]
pub struct Bits {
    words: Vec<u64>,
    count: usize,
}

// Clauses see the bits as a row of marks.
impl Model for Bits {
    ghost Value = { List Bool };

    ghost view = { λ b. row b.count b.words.items };

    ghost invariant = { λ b. Holds b.count b.words.items };
}

impl Bits {
    // So many, none of them set.
    pub fn none(heap: Global, count: usize) -> Result<Bits, AllocError>
        ensures { IfOk result (λ bits. bits ≡ replicate count false) }
    {
        let words = vec![in heap; 0; count / WORD_BITS + 1]?;
        Ok(Bits { words, count })
    }

    pub fn set(&mut self, place: usize)
        requires { place < length self.old }
        ensures { self.new ≡ slice_set self.old place true }
    {
        self.words[place / WORD_BITS] |= 1 << (place % WORD_BITS);
    }

    pub fn clear(&mut self, place: usize)
        requires { place < length self.old }
        ensures { self.new ≡ slice_set self.old place false }
    {
        self.words[place / WORD_BITS] &= !(1 << (place % WORD_BITS));
    }

    // Is no bit of the word set in which this place stands?
    pub fn word_is_empty(&self, place: usize) -> bool
        requires { place < length self.now }
        ensures empty { IsTrue result → (k : ℕ) → k / 64 ≡ place / 64 → slice_index_or self.now k false ≡ false }
        ensures some { IsFalse result → HasMark self.now (place / 64) }
    {
        self.words[place / WORD_BITS] == 0
    }

    // The first bit that is set, from `start` on to the end of its word, and before `end`.
    pub fn first_in_word(&self, start: usize, end: usize) -> Option<usize>
        requires some { start < end }
        requires within { end ≤ length self.now }
        ensures { FirstMarked self.now start (min end (start / 64 * 64 + 64)) result }
    {
        let rest = self.words[start / WORD_BITS] >> (start % WORD_BITS);
        if rest == 0 {
            return None;
        }
        let place = start + rest.trailing_zeros() as usize;
        if place < end { Some(place) } else { None }
    }

    // The first bit that is set, from `start` on and before `end`, word by word.
    pub fn first_between(&self, start: usize, end: usize) -> Option<usize>
        requires { end ≤ length self.now }
        ensures { FirstMarked self.now start end result }
    {
        let mut place = start;
        while place < end {
            if let Some(found) = self.first_in_word(place, end) {
                return Some(found);
            }
            place += (WORD_BITS - place % WORD_BITS).min(end - place);
        }
        None
    }
}
