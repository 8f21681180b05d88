// The pages of the flash card: which one a block shows, which one a put takes, and which become free.
use super::calls::*;
use super::setup::*;
use crate::memory::*;
use flash_card::FlashCard;
use std::alloc::{AllocError, Global};
use std::test::Fail;
use store::Store;

// The store after these puts, where the blocks from 0 on must have these bytes throughout.
fn shown_after<S: Store + Drop>(mut store: S, puts: &[(u32, u8)], bytes: &[u8]) -> Result<S, Fail> {
    put_each(&mut store, puts)?;
    show_each(&mut store, bytes)?;
    Ok(store)
}

// A card of two blocks over these pages shows, after these puts, these bytes, and has these pages.
fn two_blocks_after(
    heap: Global,
    before: &[Page],
    puts: &[(u32, u8)],
    bytes: &[u8],
    after: &[Page],
) -> Result<(), Fail> {
    let card = shown_after(card(heap, 2, before, GRANT)?, puts, bytes)?;
    has_pages(heap, card, after)
}

// A new card, of FFh bytes throughout, has no block's content yet.
#[test]
fn a_second_put_frees_the_first_page(rt: HostRuntime) -> Result<(), Fail> {
    let puts = [(1, 7), (1, 8)];
    let after = [free(7), owned(1, 8), free(0xff)];
    two_blocks_after(rt.alloc(), &[free(0xff); 3], &puts, &[0, 8], &after)
}

// Each block has two pages, and page 2 an owner that is no block.
fn worn_pages() -> [Page; 5] {
    [
        owned(1, 10),
        owned(1, 11),
        owned(9, 12),
        owned(0, 13),
        owned(0, 14),
    ]
}

#[test]
fn a_block_shows_its_first_page(rt: HostRuntime) -> Result<(), Fail> {
    let pages = worn_pages();
    two_blocks_after(rt.alloc(), &pages, &[], &[13, 10], &pages)
}

// The page taken is the other block's second one.
#[test]
fn a_put_frees_every_other_page_of_the_block(rt: HostRuntime) -> Result<(), Fail> {
    let after = [owned(1, 10), owned(0, 20), owned(9, 12), free(13), free(14)];
    two_blocks_after(rt.alloc(), &worn_pages(), &[(0, 20)], &[20, 10], &after)
}

// The third put finds page 2 taken, and so goes round to page 0.
#[test]
fn puts_go_round_from_the_hand(rt: HostRuntime) -> Result<(), Fail> {
    let before = [owned(9, 10), owned(0, 11), owned(1, 12)];
    let puts = [(0, 20), (0, 21), (0, 22)];
    let after = [owned(0, 22), free(21), owned(1, 12)];
    two_blocks_after(rt.alloc(), &before, &puts, &[22, 12], &after)
}

// The store after a put of each byte to block 0, which must show it.
fn shown_in_turn<S: Store + Drop>(mut store: S, bytes: &[u8]) -> Result<S, Fail> {
    for byte in bytes {
        put(&mut store, 0, *byte)?;
        shows(&mut store, 0, *byte)?;
    }
    Ok(store)
}

#[test]
fn two_pages_alternate(rt: HostRuntime) -> Result<(), Fail> {
    let card = card(rt.alloc(), 1, &[free(0xff); 2], GRANT)?;
    let after = [owned(0, 3), free(2)];
    has_pages(rt.alloc(), shown_in_turn(card, &[1, 2, 3])?, &after)
}

// The memory of a card with these pages, and the bytes past the last one.
fn pages_and_past(heap: Global, wanted: &[Page], past: &[u8]) -> Result<Vec<u8>, AllocError> {
    let mut memory = pages(heap, wanted)?;
    memory.extend_from_slice(past)?;
    Ok(memory)
}

// Three pages and a part of one more: the fourth put goes round to page 0.
#[test]
fn bytes_past_the_last_page_stay(rt: HostRuntime) -> Result<(), Fail> {
    let past = [0xff; 100];
    let before = pages_and_past(rt.alloc(), &[free(0xff); 3], &past)?;
    let puts = [(0, 20), (0, 21), (0, 22), (0, 23)];
    let card: FlashCard = shown_after(medium_over(before, 2, GRANT)?, &puts, &[])?;
    let memory = card.into_memory();
    let after = [owned(0, 23), free(21), free(22)];
    same(memory, pages_and_past(rt.alloc(), &after, &past)?)
}
