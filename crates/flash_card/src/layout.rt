// How the card's blocks lie in its pages.
ghost use Rattle.std.specs.Prelude.{◌≡◌, ◌+◌, ◌*◌, ◌/◌, ◌<◌, ◌≤◌, length, nat_eq, vec_items, vec_len};
ghost use Rattle.store.specs.Places.{if_below};
ghost use Rattle.flash_card.specs.Card.{CardModel, CardGood, card, first_page, free_page};
ghost use Rattle.flash_card.specs.Modeled.{card_model};
ghost use Rattle.flash_card.specs.PageLaw.{PutPages};
ghost use Rattle.flash_card.specs.CardKeeps.{card_keeps, card_put_pages};
ghost use Rattle.std.proofs.Common.{rules, arith};

use crate::Card;
use crate::pages::{PAGE_BYTES, Pages, round};
use crate::tables::Tables;
use medium::Layout;
use std::alloc::AllocFailed;
use store::BLOCK_BYTES;

impl Card {
    // The first free page, counting round from the hand.
    fn free_page(&self) -> usize
        requires { (length self.now.tables.shown.items + 1) * 516 ≤ vec_len self.now.pages.memory }
        ensures within { result < vec_len self.now.pages.memory / 516 }
        ensures page { result ≡ free_page (card_model self.now (length self.now.tables.shown.items) 0) }
    {
        let free = &self.tables.free;
        match free.first_between(self.hand, self.pages.count()) {
            Some(page) => page,
            None => free.first_between(0, self.hand).unwrap(),
        }
    }

    // The block's first page, if it has one.
    fn first_page(&self, block: u32) -> Option<usize>
        requires { block < vec_len self.now.tables.shown }
        ensures { result ≡ if_below (vec_len self.now.pages.memory / 516) (first_page self.now.pages.memory.items block (vec_len self.now.pages.memory / 516)) }
    {
        let page = self.tables.shown[block as usize];
        if page < self.pages.count() {
            Some(page)
        } else {
            None
        }
    }
}

impl Layout for Card {
    ghost Model = { CardModel };

    ghost model = { card_model };

    ghost medium = { card };

    ghost good = { CardGood };

    ghost stores = { PutPages };

    ghost needed = { λ count. (count + 1) * 516 };

    ghost bytes = { λ l. l.pages.memory };

    ghost made = { λ l count. nat_eq (length (vec_items l.tables.shown)) count };

    ghost fresh = { λ l. l.hand ≡ 0 };

    ghost refusable = { Unit {0} };

    ghost counts = { Prim.search rules };

    ghost grants = { Prim.search rules };

    ghost valid = { first_of (Prim.search rules, Prim.grind (arith, Self.row.coded.inj)) };

    ghost keeps = { card_keeps };

    ghost lawful = { card_put_pages };

    // A page a block, and one to spare.
    fn needed(count: u32) -> usize {
        (count as usize + 1) * PAGE_BYTES
    }

    fn over(memory: Vec<u8>, count: u32) -> Result<Card, AllocFailed<Vec<u8>>> {
        let pages = Pages { memory };
        match Tables::of(*pages.memory.allocator(), &pages, count) {
            Ok(tables) => Ok(Card {
                pages,
                hand: 0,
                tables,
            }),
            Err(_) => Err(AllocFailed {
                value: pages.memory,
            }),
        }
    }

    fn into_memory(self) -> Vec<u8> {
        let Card {
            pages: Pages { memory },
            hand: _,
            tables: _,
        } = self;
        memory
    }

    // What the block shows: its first page, or zeros if it has none.
    #[tactic(auto, unfolding(crate::specs::Card::zeros))]
    fn content(&self, _count: u32, block: u32) -> [u8; BLOCK_BYTES] {
        match self.first_page(block) {
            Some(page) => self.pages.content(page),
            None => [0; BLOCK_BYTES],
        }
    }

    // The first free page takes the content, and the block's other pages are given up.
    fn store(&mut self, _count: u32, block: u32, content: &[u8; BLOCK_BYTES]) {
        let page = self.free_page();
        self.pages.write(page, block, content);
        self.pages.disown_others(&mut self.tables, block, page);
        self.tables.take(block, page);
        self.hand = round(self.pages.count(), page + 1);
    }
}
