// Cards written elsewhere, whose owners are in no order: each card is compared with one that looks at every page at each
// call.
ghost use Rattle.std.specs.Prelude.{◌<◌};

use super::calls::*;
use super::setup::*;
use crate::memory::*;
use rand::RngExt;
use rand_pcg::Pcg32;
use std::alloc::Global;
use std::test::Fail;
use store::{Store, StoreError};

// A card of a few blocks that looks at every page at each call.
#[derive(Drop)]
struct PlainCard {
    pages: Vec<Page>,
    count: u32,
    hand: usize,
}

impl PlainCard {
    fn first_page(&self, block: u32) -> Option<usize> {
        self.pages.iter().position(|page| page.owner == block)
    }

    fn is_free(&self, place: usize, page: &Page) -> bool {
        let shown = page.owner < self.count && self.first_page(page.owner) == Some(place);
        !shown
    }

    // The first free page from this one on.
    fn free_from(&self, start: usize) -> Option<usize> {
        self.pages
            .iter()
            .enumerate()
            .skip(start)
            .find(|(place, page)| self.is_free(*place, page))
            .map(|(place, _)| place)
    }

    // The page that a put takes.
    fn free_page(&self) -> Option<usize> {
        self.free_from(self.hand).or_else(|| self.free_from(0))
    }

    // The block's pages become free.
    fn give_up(&mut self, block: u32) {
        for page in &mut self.pages {
            if page.owner == block {
                *page = free(page.byte);
            }
        }
    }

    fn put(&mut self, block: u32, byte: u8) {
        let Some(taken) = self.free_page() else {
            return;
        };
        self.give_up(block);
        if let Some(page) = self.pages.get_mut(taken) {
            *page = owned(block, byte);
        }
        let next = taken.saturating_add(1);
        self.hand = if next < self.pages.len() { next } else { 0 };
    }

    fn shown(&self, block: u32) -> u8 {
        let first = self.pages.iter().find(|page| page.owner == block);
        first.map_or(0, |page| page.byte)
    }
}

// A block, or an owner, below the bound, and a byte of a content that was put.
fn random(rng: &mut Pcg32, bound: u32) -> (u32, u8)
    requires { 0 < bound }
{
    let number = rng.random_range(0..bound);
    (number, rng.random_range(1..=255))
}

// Puts random contents to random blocks of both, so many times.
fn put_to_both<S: Store>(store: &mut S, plain: &mut PlainCard, puts: u32) -> Result<(), StoreError>
    requires { 0 < plain.old.count }
{
    let count = plain.count;
    let mut rng = Pcg32::new(42, 54);
    for _ in 0..puts {
        let (block, byte) = random(&mut rng, count);
        put(store, block, byte)?;
        plain.put(block, byte);
    }
    Ok(())
}

// Each block shows what it shows on the plain card.
fn shows_alike<S: Store>(store: &mut S, plain: &PlainCard) -> Result<(), Fail> {
    for block in 0..plain.count {
        shows(store, block, plain.shown(block))?;
    }
    Ok(())
}

// The store after so many puts to it and the plain card: it must show what the plain one shows.
fn alike_after<S: Store + Drop>(mut store: S, plain: &mut PlainCard, puts: u32) -> Result<S, Fail>
    requires { 0 < plain.old.count }
{
    put_to_both(&mut store, plain, puts)?;
    shows_alike(&mut store, plain)?;
    Ok(store)
}

// After so many puts of random blocks the card shows what the plain one shows, and its memory is the same.
fn works_alike(heap: Global, count: u32, before: &[Page], puts: u32) -> Result<(), Fail>
    requires { 0 < count }
{
    let mut plain = PlainCard {
        pages: before.to_vec(heap)?,
        count,
        hand: 0,
    };
    let card = alike_after(card(heap, count, before, GRANT)?, &mut plain, puts)?;
    has_pages(heap, card, &plain.pages)
}

// So many pages, whose owners are random numbers below the bound.
fn junk(heap: Global, rng: &mut Pcg32, count: usize, bound: u32) -> Result<Vec<Page>, Fail>
    requires { 0 < bound }
{
    let mut pages = Vec::new(heap);
    for _ in 0..count {
        let (owner, byte) = random(rng, bound);
        pages.push(owned(owner, byte))?;
    }
    Ok(pages)
}

// After each number of puts.
fn works_alike_after_each(
    heap: Global,
    count: u32,
    before: &[Page],
    puts: &[u32],
) -> Result<(), Fail>
    requires { 0 < count }
{
    for puts in puts {
        works_alike(heap, count, before, *puts)?;
    }
    Ok(())
}

// The numbers of puts after which cards are compared.
const PUTS: [u32; 8] = [0, 1, 2, 3, 5, 8, 20, 60];

// Five blocks on twelve pages. Owners 5, 6 and 7 are no blocks.
#[test]
fn random_owners(rt: HostRuntime) -> Result<(), Fail> {
    let mut rng = Pcg32::new(1, 1);
    for _ in 0..10 {
        let pages = junk(rt.alloc(), &mut rng, 12, 8)?;
        works_alike_after_each(rt.alloc(), 5, &pages, &PUTS)?;
    }
    Ok(())
}

// Three blocks have all of thirty pages.
#[test]
fn many_pages_for_a_block(rt: HostRuntime) -> Result<(), Fail> {
    let mut rng = Pcg32::new(2, 2);
    let pages = junk(rt.alloc(), &mut rng, 30, 3)?;
    works_alike_after_each(rt.alloc(), 3, &pages, &PUTS)
}

#[test]
fn owners_at_the_count_and_above(rt: HostRuntime) -> Result<(), Fail> {
    let pages = [
        owned(3, 10),
        owned(2, 11),
        owned(4, 12),
        free(13),
        owned(3, 14),
        owned(0xffff_fffe, 15),
    ];
    works_alike_after_each(rt.alloc(), 3, &pages, &PUTS)?;
    works_alike_after_each(rt.alloc(), 4, &pages, &PUTS)?;
    works_alike_after_each(rt.alloc(), 5, &pages, &PUTS)
}

#[test]
fn one_block_on_two_pages(rt: HostRuntime) -> Result<(), Fail> {
    for first in [0, 1, 0xffff_ffff] {
        for second in [0, 1, 0xffff_ffff] {
            let pages = [owned(first, 10), owned(second, 11)];
            works_alike_after_each(rt.alloc(), 1, &pages, &PUTS)?;
        }
    }
    Ok(())
}

// A search for a free page passes over whole words of 64.
#[test]
fn more_pages_than_a_group(rt: HostRuntime) -> Result<(), Fail> {
    let mut rng = Pcg32::new(3, 3);
    let pages = junk(rt.alloc(), &mut rng, 600, 599)?;
    works_alike_after_each(rt.alloc(), 599, &pages, &[1, 20, 60])
}

// So many blocks, each on the page of its number, and behind them the one page that is free.
fn full(heap: Global, count: u32) -> Result<Vec<Page>, Fail> {
    let mut pages = Vec::new(heap);
    for block in 0..count {
        pages.push(owned(block, 7))?;
    }
    pages.push(free(8))?;
    Ok(pages)
}

// The search for the free page passes over whole groups of 64 words, each of 64 pages, and goes round past the last page.
#[test]
fn one_free_page_in_a_large_card(rt: HostRuntime) -> Result<(), Fail> {
    let pages = full(rt.alloc(), 4199)?;
    works_alike_after_each(rt.alloc(), 4199, &pages, &[1, 2, 5])
}
