// The pages of a flash card: as many as fit, each a 4-byte owner and the content of a block.
ghost use Rattle.std.specs.Prelude.{◌≡◌, ◌+◌, ◌*◌, ◌<◌, ◌≤◌, vec_len};
ghost use Rattle.flash_card.specs.Card.{pages, owner, page_content, round, write_page};

use medium::memory::array_at;
use store::{BLOCK_BYTES, overwrite};

const OWNER_BYTES: usize = 4;

pub const PAGE_BYTES: usize = OWNER_BYTES + BLOCK_BYTES;

// A page's number is bounded at each method: a type for it would have to borrow the pages, also while one is written.
// Methods that write say that the length stays: of a `Vec` inside, unlike a slice, it is not known by itself.
#[derive(Drop)]
pub struct Pages {
    pub memory: Vec<u8>,
}

impl Pages {
    pub fn count(&self) -> usize
        ensures { result ≡ pages self.now.memory.items }
    {
        self.memory.len() / PAGE_BYTES
    }

    #[tactic(auto, unfolding(crate::specs::Card::owner))]
    pub fn owner(&self, page: usize) -> u32
        requires { page < pages self.now.memory.items }
        ensures { result ≡ owner self.now.memory.items page }
    {
        u32::from_be_bytes(array_at(&self.memory, page * PAGE_BYTES))
    }

    #[tactic(auto, unfolding(crate::specs::Card::page_content))]
    pub fn content(&self, page: usize) -> [u8; BLOCK_BYTES]
        requires { page < pages self.now.memory.items }
        ensures { result ≡ page_content self.now.memory.items page }
    {
        array_at(&self.memory, page * PAGE_BYTES + OWNER_BYTES)
    }

    // The page takes the content, and then the block as its owner.
    pub fn write(&mut self, page: usize, block: u32, content: &[u8; BLOCK_BYTES])
        requires { page < pages self.old.memory.items }
        ensures items { self.new.memory.items ≡ write_page self.old.memory.items page block content.now }
        ensures len { vec_len self.new.memory ≡ vec_len self.old.memory }
    {
        let at = page * PAGE_BYTES;
        overwrite(&mut self.memory, at + OWNER_BYTES, content);
        overwrite(&mut self.memory, at, &block.to_be_bytes());
    }
}

// Place i, counted round n pages.
pub fn round(n: usize, i: usize) -> usize
    ensures place { result ≡ round n i }
    ensures within { i < n + n → result < n }
{
    if i < n { i } else { i - n }
}
