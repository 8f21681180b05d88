// Calls and checks that several tests make.
use super::setup::stores_made;
use crate::filled;
use crate::memory::{Page, blocks, pages};
use flash_card::FlashCard;
use flat_medium::FlatMedium;
use std::alloc::Global;
use std::fmt::Debug;
use std::test::Fail;
use store::{Store, StoreError, answer_number};

// The tests know answers by the numbers that the rules give them.
// Power is off, or was lost in the call.
pub const POWER_OFF: u8 = 1;

// There is no such block.
pub const NO_SUCH_BLOCK: u8 = 2;

// A test goes on only if what it found is what it wanted.
pub fn same<T: PartialEq + Debug + Drop>(found: T, wanted: T) -> Result<(), Fail> {
    if found == wanted {
        Ok(())
    } else {
        Err(Fail::new(format_args!("{found:?}, and not {wanted:?}")))
    }
}

// Puts a content of this byte throughout.
pub fn put<S: Store>(store: &mut S, block: u32, byte: u8) -> Result<(), StoreError> {
    store.put_block(block, &filled(byte))
}

// The block has this byte throughout.
pub fn shows<S: Store>(store: &mut S, block: u32, byte: u8) -> Result<(), Fail> {
    same(store.read_block(block)?, filled(byte))
}

// Puts in turn: each is a block, and the byte of its content.
pub fn put_each<S: Store>(store: &mut S, puts: &[(u32, u8)]) -> Result<(), StoreError> {
    for (block, byte) in puts {
        put(store, *block, *byte)?;
    }
    Ok(())
}

// The blocks from 0 on have these bytes throughout.
pub fn show_each<S: Store>(store: &mut S, bytes: &[u8]) -> Result<(), Fail> {
    for (block, byte) in (0..).zip(bytes) {
        shows(store, block, *byte)?;
    }
    Ok(())
}

// A put is answered with this number.
pub fn put_answers<S: Store>(store: &mut S, block: u32, byte: u8, number: u8) -> Result<(), Fail> {
    same(answer_number(&put(store, block, byte)), number)
}

// A flush is answered with this number.
pub fn flush_answers<S: Store>(store: &mut S, number: u8) -> Result<(), Fail> {
    same(answer_number(&store.flush()), number)
}

// Each call on the block is answered with this number.
pub fn block_answers<S: Store>(store: &mut S, block: u32, number: u8) -> Result<(), Fail> {
    put_answers(store, block, 9, number)?;
    same(answer_number(&store.read_block(block)), number)?;
    same(answer_number(&store.force_block(block)), number)
}

// The store, which has no such block.
pub fn without_block<S: Store + Drop>(mut store: S, block: u32) -> Result<S, Fail> {
    block_answers(&mut store, block, NO_SUCH_BLOCK)?;
    Ok(store)
}

// Power is off, and each call says so.
pub fn is_off<S: Store>(store: &mut S) -> Result<(), Fail> {
    same(store.power(), false)?;
    block_answers(store, 0, POWER_OFF)?;
    flush_answers(store, POWER_OFF)
}

// Puts so many blocks, from 0 on: block b is filled with the byte b + 1.
pub fn put_in_turn<S: Store>(store: &mut S, count: u8) -> Result<(), StoreError> {
    for block in 0..count {
        put(store, u32::from(block), block + 1)?;
    }
    Ok(())
}

// So many stores were made, and these blocks stand on the medium, each with its byte throughout.
pub fn stands(heap: Global, medium: FlatMedium, stores: u32, bytes: &[u8]) -> Result<(), Fail> {
    let made = stores_made(medium.grant());
    same(medium.into_memory(), blocks(heap, bytes)?)?;
    same(made, stores)
}

// So much is left of the medium's grant, and these blocks stand on it, each with its byte throughout.
pub fn is_left(heap: Global, medium: FlatMedium, grant: u32, bytes: &[u8]) -> Result<(), Fail> {
    same(medium.grant(), grant)?;
    same(medium.into_memory(), blocks(heap, bytes)?)
}

// The card has these pages, and no byte behind them.
pub fn has_pages(heap: Global, card: FlashCard, wanted: &[Page]) -> Result<(), Fail> {
    same(card.into_memory(), pages(heap, wanted)?)
}
