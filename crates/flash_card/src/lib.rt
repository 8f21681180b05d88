// The flash card: each put goes to a free page, and the block's other pages are given up.
#![tactic(auto)]

ghost use Rattle.std.specs.Prelude.{◌/◌, ◌<◌, length, vec_items, vec_len};
ghost use Rattle.flash_card.specs.Tables.{Entered};

mod bits;
mod disown;
mod free_pages;
mod layout;
mod marks;
mod pages;
mod tables;

use medium::BlockMedium;
pub use pages::PAGE_BYTES;
use pages::Pages;
use tables::Tables;

pub type FlashCard = BlockMedium<Card>;

// The pages, the hand, at which the search for a free one begins, and the tables, which say of each page and block what
// the pages do.
#[derive(Drop)]
pub struct Card {
    pages: Pages,
    hand: usize,
    tables: Tables,
    ghost within: { hand < vec_len pages.memory / 516 },
    ghost entered: { Entered (vec_items pages.memory) (length (vec_items pages.memory) / 516) (vec_items tables.shown) (vec_items tables.stale) tables.free.pages },
}
