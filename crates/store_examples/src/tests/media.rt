// The media: what they are made over, what they refuse, and the last store of their grant.
use super::calls::*;
use super::setup::*;
use crate::memory::*;
use flash_card::Card;
use flat_medium::{Flat, FlatMedium};
use medium::{BlockMedium, Layout, check_number};
use std::alloc::Global;
use std::fmt::Display;
use std::test::Fail;
use store::{Store, StoreError};

// The check of this memory and count has the answer of this number.
fn check_answers<L: Layout>(memory: &[u8], count: u32, number: u8) -> Result<(), Fail> {
    let found = check_number(BlockMedium::<L>::check(memory, count));
    same((memory.len(), count, found), (memory.len(), count, number))
}

#[test]
fn flat_memory_is_checked() -> Result<(), Fail> {
    check_answers::<Flat>(&[0; 1024], 0, 17)?;
    check_answers::<Flat>(&[0; 1024], 16_777_217, 17)?;
    check_answers::<Flat>(&[0; 1024], 16_777_216, 18)?;
    check_answers::<Flat>(&[0; 1023], 2, 18)?;
    check_answers::<Flat>(&[0; 1024], 2, 0)
}

// Two blocks take three pages.
#[test]
fn card_memory_is_checked() -> Result<(), Fail> {
    check_answers::<Card>(&[0; 1548], 0, 17)?;
    check_answers::<Card>(&[0; 1548], 16_777_217, 17)?;
    check_answers::<Card>(&[0; 1548], 16_777_216, 18)?;
    check_answers::<Card>(&[0; 1547], 2, 18)?;
    check_answers::<Card>(&[0; 1548], 2, 0)
}

// The store, which has neither block 3 nor the one of the highest number.
fn without_the_next<S: Store + Drop>(store: S) -> Result<S, Fail> {
    without_block(without_block(store, 3)?, 0xffff_ffff)
}

// With power and without.
#[test]
fn flat_has_no_block_past_the_last(rt: HostRuntime) -> Result<(), Fail> {
    for grant in [5, 0] {
        let medium = without_the_next(flat(rt.alloc(), &[1, 2, 3], grant)?)?;
        is_left(rt.alloc(), medium, grant, &[1, 2, 3])?;
    }
    Ok(())
}

// The store after a put that takes the last of the grant: it had power, and now is off.
fn last_put<S: Store + Drop>(mut store: S, block: u32, byte: u8) -> Result<S, Fail> {
    same(store.power(), true)?;
    put_answers(&mut store, block, byte, POWER_OFF)?;
    is_off(&mut store)?;
    Ok(store)
}

// The put that takes the last of the grant answers that power is lost, and yet its content is there.
#[test]
fn flat_makes_its_last_store(rt: HostRuntime) -> Result<(), Fail> {
    let medium = last_put(flat(rt.alloc(), &[0, 0], 1)?, 1, 7)?;
    is_left(rt.alloc(), medium, 0, &[0, 7])
}

#[test]
fn card_makes_its_last_store(rt: HostRuntime) -> Result<(), Fail> {
    let before = [owned(0, 6), free(0)];
    let card = last_put(card(rt.alloc(), 1, &before, 1)?, 0, 7)?;
    let after = [free(6), owned(0, 7)];
    has_pages(rt.alloc(), card, &after)
}

// The answer is an error with this text.
fn says<E: Display + Drop>(heap: Global, answer: Result<(), E>, text: &str) -> Result<(), Fail> {
    let Err(error) = answer else {
        return Err("an error is expected".into());
    };
    same(error.to_string(heap)?.as_str(), text)
}

// The answers of a store of one block without power: to a flush, and to a force of its block and of another.
fn refusals<S: Store + Drop>(mut store: S) -> [Result<(), StoreError>; 3] {
    [store.flush(), store.force_block(0), store.force_block(1)]
}

#[test]
fn errors_say_why_a_call_was_refused(rt: HostRuntime) -> Result<(), Fail> {
    let [flushed, forced, past_the_last] = refusals(flat(rt.alloc(), &[1], 0)?);
    says(rt.alloc(), flushed, "the power is off")?;
    says(rt.alloc(), forced, "the power is off")?;
    says(rt.alloc(), past_the_last, "there is no such block")
}

#[test]
fn errors_say_why_memory_is_unfit(rt: HostRuntime) -> Result<(), Fail> {
    let no_blocks = FlatMedium::check(&[], 0);
    says(rt.alloc(), no_blocks, "a medium has 1 to 16777216 blocks")?;
    let too_small = FlatMedium::check(&[0; 511], 1);
    says(
        rt.alloc(),
        too_small,
        "the memory is too small for the medium",
    )
}
