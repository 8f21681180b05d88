// The caches over a flat medium: what waits in them, and what they write back, in which order.
use super::calls::*;
use super::setup::*;
use flat_medium::FlatMedium;
use queue_cache::QueueCache;
use std::alloc::Global;
use std::test::Fail;
use store::{Store, StoreError};
use table_cache::TableCache;

// A table over a flat medium of these blocks.
fn table(heap: Global, bytes: &[u8], grant: u32) -> Result<TableCache<FlatMedium>, Fail> {
    Ok(TableCache::new(heap, flat(heap, bytes, grant)?)?)
}

// A queue over a flat medium of these blocks.
fn queue(heap: Global, bytes: &[u8]) -> Result<QueueCache<FlatMedium>, Fail> {
    Ok(QueueCache::new(heap, flat(heap, bytes, GRANT)?)?)
}

// How many contents wait in the table, and the medium below it.
fn table_apart(table: TableCache<FlatMedium>) -> (usize, FlatMedium) {
    (table.pending(), table.into_below())
}

// So many contents wait in the queue, so many stores were made, and these blocks stand below.
fn queue_stands(
    heap: Global,
    queue: QueueCache<FlatMedium>,
    waiting: usize,
    stores: u32,
    bytes: &[u8],
) -> Result<(), Fail> {
    let found = queue.pending();
    stands(heap, queue.into_below(), stores, bytes)?;
    same(found, waiting)
}

// With power and without.
#[test]
fn table_has_no_block_past_the_last(rt: HostRuntime) -> Result<(), Fail> {
    for grant in [GRANT, 0] {
        let table = without_block(table(rt.alloc(), &[1, 2], grant)?, 2)?;
        let (waiting, medium) = table_apart(table);
        is_left(rt.alloc(), medium, grant, &[1, 2])?;
        same(waiting, 0)?;
    }
    Ok(())
}

// The store after so many puts, in turn.
fn after_puts<S: Store + Drop>(mut store: S, count: u8) -> Result<S, StoreError> {
    put_in_turn(&mut store, count)?;
    Ok(store)
}

// So many contents wait in the table, so many stores were made, and these blocks stand below.
fn table_stands(
    heap: Global,
    table: TableCache<FlatMedium>,
    waiting: usize,
    stores: u32,
    bytes: &[u8],
) -> Result<(), Fail> {
    let (found, medium) = table_apart(table);
    stands(heap, medium, stores, bytes)?;
    same(found, waiting)
}

// A table over ten blocks of zeros, after so many puts.
fn table_of_ten(heap: Global, puts: u8) -> Result<TableCache<FlatMedium>, Fail> {
    Ok(after_puts(table(heap, &[0; 10], GRANT)?, puts)?)
}

// The ninth block takes the slot of block 0.
#[test]
fn table_evicts_the_slot_at_the_hand(rt: HostRuntime) -> Result<(), Fail> {
    let after = [1, 0, 0, 0, 0, 0, 0, 0, 0, 0];
    table_stands(rt.alloc(), table_of_ten(rt.alloc(), 9)?, 8, 1, &after)
}

// The tenth block takes the slot of block 1.
#[test]
fn the_hand_moves_on(rt: HostRuntime) -> Result<(), Fail> {
    let after = [1, 2, 0, 0, 0, 0, 0, 0, 0, 0];
    table_stands(rt.alloc(), table_of_ten(rt.alloc(), 10)?, 8, 2, &after)
}

// The store after two puts to block 1, a read of it and a flush.
fn put_twice_and_flush<S: Store + Drop>(mut store: S) -> Result<S, Fail> {
    put_each(&mut store, &[(1, 7), (1, 8)])?;
    shows(&mut store, 1, 8)?;
    store.flush()?;
    Ok(store)
}

#[test]
fn table_stores_a_block_once(rt: HostRuntime) -> Result<(), Fail> {
    let table = put_twice_and_flush(table(rt.alloc(), &[0, 0], GRANT)?)?;
    table_stands(rt.alloc(), table, 0, 1, &[0, 8])
}

#[test]
fn queue_stores_every_put(rt: HostRuntime) -> Result<(), Fail> {
    let queue = put_twice_and_flush(queue(rt.alloc(), &[0, 0])?)?;
    queue_stands(rt.alloc(), queue, 0, 2, &[0, 8])
}

// The store after these puts, with block 0 forced.
fn put_and_force<S: Store + Drop>(mut store: S, puts: &[(u32, u8)]) -> Result<S, StoreError> {
    put_each(&mut store, puts)?;
    store.force_block(0)?;
    Ok(store)
}

// The put to block 2 came after the last one to block 0, and stays.
#[test]
fn force_puts_down_what_is_older(rt: HostRuntime) -> Result<(), Fail> {
    let puts = [(0, 1), (1, 2), (0, 3), (2, 4)];
    let queue = put_and_force(queue(rt.alloc(), &[0, 0, 0])?, &puts)?;
    queue_stands(rt.alloc(), queue, 1, 3, &[3, 2, 0])
}

#[test]
fn seventeenth_put_pushes_the_oldest_down(rt: HostRuntime) -> Result<(), Fail> {
    let mut bytes = [0; 17];
    let queue = after_puts(queue(rt.alloc(), &bytes)?, 17)?;
    bytes[0] = 1;
    queue_stands(rt.alloc(), queue, 16, 1, &bytes)
}
