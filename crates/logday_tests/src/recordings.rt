// What a pile is when it is made, and what a recording leaves on the card. The helpers give a test plain values: a proof
// takes long where a pile or a card is at hand.
use crate::checks::same;
use flash_card::FlashCard;
use log_pile::{Pile, Remains, erased_card, pile_over, reopened};
use shift_log::{Kind, LOG_BLOCKS, Outcome, Record, Shift, record_second, record_shift};
use std::alloc::{AllocError, Global};
use std::test::Fail;
use store::{BLOCK_BYTES, Store, StoreError};

// A grant of more stores than a recording makes.
const GRANT: u32 = 100;

// The pile over a new card of this grant.
fn new_pile(heap: Global, grant: u32) -> Result<Pile, Fail> {
    Ok(pile_over(heap, erased_card(heap, grant)?)?)
}

// What a test compares of a pile, beside its card.
#[derive(Clone, Copy)]
struct Counts {
    power: bool,
    in_table: usize,
    in_queue: usize,
    stores: u32,
}

// The counts of a pile over a card that was new with this grant, and the card.
fn taken_apart(pile: Pile, grant: u32) -> (Counts, FlashCard) {
    let remains = Remains::of(pile);
    let counts = Counts {
        power: remains.power,
        in_table: remains.in_table,
        in_queue: remains.in_queue,
        stores: remains.stores(grant),
    };
    (counts, remains.card)
}

// The counts of a new pile, and the memory of its card.
fn made(heap: Global, grant: u32) -> Result<(Counts, Vec<u8>), Fail> {
    let (counts, card) = taken_apart(new_pile(heap, grant)?, grant);
    Ok((counts, reopened(card)?.into_memory()))
}

// The card and both caches can be made, and nothing is held in them. The card has sixteen pages of 516 bytes.
#[test]
fn a_pile_is_made(rt: HostRuntime) -> Result<(), Fail> {
    let (counts, memory) = made(rt.alloc(), 5)?;
    same(
        (
            counts.power,
            counts.in_table,
            counts.in_queue,
            counts.stores,
        ),
        (true, 0, 0, 0),
    )?;
    same(memory, vec![in rt.alloc(); 0xff; 8256]?)
}

// Fills the block with the byte.
fn put<S: Store>(store: &mut S, block: u32, byte: u8) -> Result<(), StoreError> {
    store.put_block(block, &[byte; BLOCK_BYTES])
}

// The store after two puts of block 11, filled with 7 and then with 8.
fn put_twice<S: Store + Drop>(mut store: S) -> Result<S, StoreError> {
    put(&mut store, 11, 7)?;
    put(&mut store, 11, 8)?;
    Ok(store)
}

// The answer to a third put, filled with 9, and the store after it.
fn put_again<S: Store>(mut store: S) -> (Result<(), StoreError>, S) {
    let answer = put(&mut store, 11, 9);
    (answer, store)
}

// The third put at the next power-on: its answer, and the memory after it.
fn third_put(heap: Global) -> Result<(Result<(), StoreError>, Vec<u8>), Fail> {
    let card = put_twice(erased_card(heap, 5)?)?;
    let (answer, card) = put_again(reopened(card)?);
    Ok((answer, card.into_memory()))
}

// Adds a page: its owner's four bytes, and one byte throughout its content.
fn push_page(memory: &mut Vec<u8>, owner: [u8; 4], byte: u8) -> Result<(), AllocError> {
    memory.extend_from_slice(&owner)?;
    memory.extend_from_slice(&[byte; BLOCK_BYTES])
}

// Page 0 is that of block 11, as it was put last; page 1 is free, and has what was put before.
fn memory_after_third_put(heap: Global) -> Result<Vec<u8>, AllocError> {
    let mut memory = Vec::new(heap);
    push_page(&mut memory, [0, 0, 0, 11], 9)?;
    push_page(&mut memory, [0xff; 4], 8)?;
    memory.resize(8256, 0xff)?;
    Ok(memory)
}

// On the new card the puts take pages 0 and 1; at the next power-on one store is granted, and takes page 0.
#[test]
fn the_hand_starts_at_page_0(rt: HostRuntime) -> Result<(), Fail> {
    let (answer, memory) = third_put(rt.alloc())?;
    same(answer, Err(StoreError::PowerOff))?;
    same(memory, memory_after_third_put(rt.alloc())?)
}

type Records = [Option<Record>; LOG_BLOCKS as usize];

// The record in the block, if it holds one.
fn read_record<S: Store>(store: &mut S, block: u32) -> Result<Option<Record>, StoreError> {
    Ok(Record::from_content(&store.read_block(block)?))
}

// The record in each block of the log.
fn read_records<S: Store>(store: &mut S) -> Result<Records, StoreError> {
    let mut records = [None; LOG_BLOCKS as usize];
    for block in 0..LOG_BLOCKS {
        records[block as usize] = read_record(store, block)?;
    }
    Ok(records)
}

// The record in each block of the card, as the next power-on finds it.
fn records(card: FlashCard) -> Result<Records, Fail> {
    Ok(read_records(&mut reopened(card)?)?)
}

// What a recording left of a pile: its counts, and the records on its card.
#[derive(Clone, Copy)]
struct LeftBehind {
    counts: Counts,
    records: Records,
}

fn left_by(pile: Pile) -> Result<LeftBehind, Fail> {
    let (counts, card) = taken_apart(pile, GRANT);
    Ok(LeftBehind {
        counts,
        records: records(card)?,
    })
}

// What is recorded of a shift.
#[derive(Clone, Copy)]
enum Part {
    Second(u32),
    Whole,
}

// Records it on any store.
fn record_part<S: Store>(store: &mut S, shift: Shift, part: Part) -> Outcome {
    match part {
        Part::Second(second) => {
            let answer = record_second(store, shift, second);
            Outcome {
                seconds: u32::from(answer.is_ok()),
                answer,
            }
        }
        Part::Whole => record_shift(store, shift),
    }
}

// How that ended, and the store after it.
fn recorded<S: Store>(mut store: S, shift: Shift, part: Part) -> (Outcome, S) {
    let outcome = record_part(&mut store, shift, part);
    (outcome, store)
}

// This part of the shift, recorded on a new pile: how that ended, and what it left.
fn on_pile(heap: Global, shift: Shift, part: Part) -> Result<(Outcome, LeftBehind), Fail> {
    let (outcome, pile) = recorded(new_pile(heap, GRANT)?, shift, part);
    Ok((outcome, left_by(pile)?))
}

// The shift, recorded on a new card of this grant, with no caches: how that ended, and the records.
fn on_card(heap: Global, shift: Shift, grant: u32) -> Result<(Outcome, Records), Fail> {
    let (outcome, card) = recorded(erased_card(heap, grant)?, shift, Part::Whole);
    Ok((outcome, records(card)?))
}

fn record(kind: Kind, second: u32) -> Option<Record> {
    Some(Record { kind, second })
}

fn encoder(second: u32) -> Option<Record> {
    record(Kind::Encoder, second)
}

// Five seconds fill blocks 0 to 4.
#[test]
fn a_shift_without_brake_actions_puts_the_encoder_blocks_alone(
    rt: HostRuntime,
) -> Result<(), Fail> {
    let shift = Shift {
        seconds: 5,
        brake_every: 0,
    };
    let (outcome, left) = on_pile(rt.alloc(), shift, Part::Whole)?;
    same((outcome.seconds, outcome.answer), (5, Ok(())))?;
    same(left.counts.stores, 5)?;
    let mut found = [None; 12];
    found[0] = encoder(0);
    found[1] = encoder(1);
    found[2] = encoder(2);
    found[3] = encoder(3);
    found[4] = encoder(4);
    same(left.records, found)
}

// The encoder's records go round ten blocks, and the last brake action is in second 11.
#[test]
fn a_shift_leaves_the_latest_record_in_each_block(rt: HostRuntime) -> Result<(), Fail> {
    let shift = Shift {
        seconds: 12,
        brake_every: 4,
    };
    let (outcome, left) = on_pile(rt.alloc(), shift, Part::Whole)?;
    same((outcome.seconds, outcome.answer), (12, Ok(())))?;
    same((left.counts.in_table, left.counts.in_queue), (0, 0))?;
    let found = [
        encoder(10),
        encoder(11),
        encoder(2),
        encoder(3),
        encoder(4),
        encoder(5),
        encoder(6),
        encoder(7),
        encoder(8),
        encoder(9),
        record(Kind::BrakeCommand, 11),
        record(Kind::BrakePressure, 11),
    ];
    same(left.records, found)
}

// The encoder's record waits in the table.
#[test]
fn a_brake_action_is_on_the_card_at_once(rt: HostRuntime) -> Result<(), Fail> {
    let shift = Shift {
        seconds: 12,
        brake_every: 4,
    };
    let (outcome, left) = on_pile(rt.alloc(), shift, Part::Second(3))?;
    same(outcome.answer, Ok(()))?;
    same((left.counts.in_table, left.counts.in_queue), (1, 0))?;
    same(left.counts.stores, 2)?;
    let mut found = [None; 12];
    found[10] = record(Kind::BrakeCommand, 3);
    found[11] = record(Kind::BrakePressure, 3);
    same(left.records, found)
}

// Without caches the third store is that of the brake command in second 1, and the power goes with it.
#[test]
fn a_recording_ends_where_power_is_lost(rt: HostRuntime) -> Result<(), Fail> {
    let shift = Shift {
        seconds: 5,
        brake_every: 2,
    };
    let (outcome, records) = on_card(rt.alloc(), shift, 3)?;
    same(
        (outcome.seconds, outcome.answer),
        (1, Err(StoreError::PowerOff)),
    )?;
    let mut found = [None; 12];
    found[0] = encoder(0);
    found[1] = encoder(1);
    found[10] = record(Kind::BrakeCommand, 1);
    same(records, found)
}
