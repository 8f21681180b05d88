// A table over a queue over a card: power that is lost in a write-back ends the call at once.
use super::calls::*;
use super::setup::*;
use crate::memory::*;
use flash_card::FlashCard;
use log_pile::{Remains, pile_over};
use std::alloc::Global;
use std::test::Fail;
use store::Store;

// The call in which the power goes.
#[derive(Clone, Copy)]
enum Last {
    Put,
    Flush,
}

// The power goes in this call, after so many puts.
fn loses_power<S: Store>(store: &mut S, puts: u8, last: Last) -> Result<(), Fail> {
    match last {
        Last::Put => put_answers(store, u32::from(puts), puts.saturating_add(1), POWER_OFF),
        Last::Flush => flush_answers(store, POWER_OFF),
    }
}

// The store, off, after so many puts and the call in which the power goes.
fn off_after<S: Store + Drop>(mut store: S, puts: u8, last: Last) -> Result<S, Fail> {
    put_in_turn(&mut store, puts)?;
    loses_power(&mut store, puts, last)?;
    is_off(&mut store)?;
    Ok(store)
}

// How many contents wait in the queue of a pile over this card, and the card, after so many puts and the call in which the
// power goes.
fn left_by(
    heap: Global,
    card: FlashCard,
    puts: u8,
    last: Last,
) -> Result<(usize, FlashCard), Fail> {
    let pile = off_after(pile_over(heap, card)?, puts, last)?;
    let Remains { in_queue, card, .. } = Remains::of(pile);
    Ok((in_queue, card))
}

// With all slots and places full, a put sends one entry from the table to the queue, and one on to the card.
#[test]
fn power_goes_in_a_put(rt: HostRuntime) -> Result<(), Fail> {
    let mut after = [free(0xff); 26];
    let card = card(rt.alloc(), 25, &after, 1)?;
    let (_, card) = left_by(rt.alloc(), card, 24, Last::Put)?;
    after[0] = owned(0, 1);
    has_pages(rt.alloc(), card, &after)
}

// The second store is the last, so block 2 stays in the queue.
#[test]
fn power_goes_in_a_flush(rt: HostRuntime) -> Result<(), Fail> {
    let card = card(rt.alloc(), 3, &[free(0xff); 4], 2)?;
    let (waiting, card) = left_by(rt.alloc(), card, 3, Last::Flush)?;
    let after = [owned(0, 1), owned(1, 2), free(0xff), free(0xff)];
    has_pages(rt.alloc(), card, &after)?;
    same(waiting, 1)
}
