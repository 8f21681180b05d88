// A block that was written, and what is found there.
ghost use Rattle.std.specs.Prelude.{◌≡◌, ◌<◌, IfOk, map, replicate, not};
ghost use Rattle.std.specs.Str.{bytes_eq};
ghost use Rattle.piles.specs.Bottoms.{bottom_meaning, counted, granted};
ghost use Rattle.book.specs.Rows.{row};
ghost use Rattle.outcomes.specs.Found.{found_below};
ghost use Rattle.outcomes.specs.Views.{found_view};

use crate::hex::Hex;
use book::{Book, Numbers};
use piles::Bottom;
use std::alloc::{AllocError, Global};
use std::fmt;
use store::BLOCK_BYTES;

// so many bytes of a block are shown
const SHOWN: usize = 16;

// what a block of a new medium shows
const NEW: [u8; BLOCK_BYTES] = [0; BLOCK_BYTES];

#[derive(Clone, Copy)]
pub struct FoundBlock {
    pub block: u32,
    pub content: [u8; BLOCK_BYTES],
    pub numbers: Numbers,
}

impl FoundBlock {
    // The blocks with contents in the book, as they are found on the medium at the next power-on.
    pub fn all(heap: Global, medium: Bottom, book: &Book<'_>) -> Result<Vec<FoundBlock>, AllocError>
        ensures { IfOk result (λ found. map found_view found.items ≡ found_below (λ b. ((bottom_meaning medium).line b).first) (row book.now.rows.items) (counted medium)) }
    {
        FoundBlock::read_written(heap, medium.reopened()?, book)
    }

    // The same of a medium with power on.
    fn read_written(
        heap: Global,
        medium: Bottom,
        book: &Book<'_>,
    ) -> Result<Vec<FoundBlock>, AllocError>
        requires { 0 < granted medium }
        ensures { IfOk result (λ found. map found_view found.items ≡ found_below (λ b. ((bottom_meaning medium).line b).first) (row book.now.rows.items) (counted medium)) }
    {
        let mut found = Vec::new(heap);
        let mut medium = medium;
        for block in 0..medium.count() {
            let row = book.row(block);
            if row.is_empty() {
                continue;
            }
            if let Ok(content) = medium.read(block) {
                let numbers = Numbers::of(row, &content);
                found.push(FoundBlock {
                    block,
                    content,
                    numbers,
                })?;
            }
        }
        Ok(found)
    }

    // Is the content another than the one that the block began with?
    pub(crate) fn is_changed(&self) -> bool
        ensures { result ≡ not (bytes_eq self.now.content (replicate 512 0)) }
    {
        self.content != NEW
    }
}

impl fmt::Display for FoundBlock {
    fn fmt<W: fmt::Write>(&self, f: &mut fmt::Formatter<W>) -> fmt::Result {
        let FoundBlock {
            block,
            content,
            numbers,
        } = self;
        write!(f, "block {block} {} {numbers}", Hex(&content[..SHOWN]))
    }
}
