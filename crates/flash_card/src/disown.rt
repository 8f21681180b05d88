// The pages that a block no longer shows are given to nobody, and so are free.
ghost use Rattle.std.specs.Prelude.{◌≡◌, ℕ, ◌*◌, ◌<◌, true, false, cond, ◌==◌, ◌≢◌, length, slice_index, slice_index_or, slice_set, vec_len};
ghost use Rattle.store.specs.Bytes.{placed, to_be32};
ghost use Rattle.flash_card.specs.Card.{pages, owner, nobody, disown, disown_first};

use crate::free_pages::FreePages;
use crate::pages::{PAGE_BYTES, Pages};
use crate::tables::Tables;
use store::overwrite;

// the owner that the layout gives a page of no block
const NOBODY: u32 = u32::MAX;

impl Pages {
    // The block's pages, but for the page taken: one at most, unless the block is marked to have more.
    pub fn disown_others(&mut self, tables: &mut Tables, block: u32, taken: usize)
        requires inside { block < vec_len tables.old.shown }
        requires mark { block < vec_len tables.old.stale }
        requires room { length tables.old.free.pages ≡ pages self.old.memory.items }
        requires first { let first = slice_index tables.old.shown.items block in first < pages self.old.memory.items → (first ≢ taken) × (owner self.old.memory.items first ≡ block) }
        requires single { slice_index_or tables.old.stale.items block false ≡ false → (j : ℕ) → j < pages self.old.memory.items → (j ≢ taken) → owner self.old.memory.items j ≡ block → j ≡ slice_index tables.old.shown.items block }
        ensures items { self.new.memory.items ≡ disown_first self.old.memory.items block taken (pages self.old.memory.items) }
        ensures len { vec_len self.new.memory ≡ vec_len self.old.memory }
        ensures shown { tables.new.shown.items ≡ tables.old.shown.items }
        ensures stale { tables.new.stale.items ≡ tables.old.stale.items }
        ensures free_len { length tables.new.free.pages ≡ length tables.old.free.pages }
        ensures free { (j : ℕ) → j < pages self.old.memory.items → (j ≢ taken) → slice_index_or tables.new.free.pages j false ≡ cond (owner self.old.memory.items j == block) true (slice_index_or tables.old.free.pages j false) }
    {
        let first = tables.shown[block as usize];
        if tables.is_marked(block) {
            self.disown_each(&mut tables.free, block, taken);
        } else if first < self.count() {
            self.disown(first);
            tables.free.insert(first);
        }
    }

    // All of the block's pages, but for the page taken.
    fn disown_each(&mut self, free: &mut FreePages, block: u32, taken: usize)
        requires room { length free.old.pages ≡ pages self.old.memory.items }
        ensures items { self.new.memory.items ≡ disown_first self.old.memory.items block taken (pages self.old.memory.items) }
        ensures len { vec_len self.new.memory ≡ vec_len self.old.memory }
        ensures free_len { length free.new.pages ≡ length free.old.pages }
        ensures free { (j : ℕ) → j < pages self.old.memory.items → (j ≢ taken) → slice_index_or free.new.pages j false ≡ cond (owner self.old.memory.items j == block) true (slice_index_or free.old.pages j false) }
    {
        // by number: of a memory lent in chunks a proof knows the length alone, as `transfer` has it
        for page in 0..self.count() {
            self.disown_page(free, block, taken, page);
        }
    }

    // The page, if the block owns it and it is not the one taken.
    fn disown_page(&mut self, free: &mut FreePages, block: u32, taken: usize, page: usize)
        requires inside { page < pages self.old.memory.items }
        requires room { page < length free.old.pages }
        ensures items { self.new.memory.items ≡ disown self.old.memory.items block taken page }
        ensures len { vec_len self.new.memory ≡ vec_len self.old.memory }
        ensures free { free.new.pages ≡ cond (page == taken) free.old.pages (cond (owner self.old.memory.items page == block) (slice_set free.old.pages page true) free.old.pages) }
    {
        if page != taken && self.owner(page) == block {
            self.disown(page);
            free.insert(page);
        }
    }

    fn disown(&mut self, page: usize)
        requires { page < pages self.old.memory.items }
        ensures items { self.new.memory.items ≡ placed self.old.memory.items (page * 516) (to_be32 nobody) }
        ensures len { vec_len self.new.memory ≡ vec_len self.old.memory }
    {
        overwrite(&mut self.memory, page * PAGE_BYTES, &NOBODY.to_be_bytes());
    }
}
