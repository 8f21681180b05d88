// The times of a card's making, of puts and of reads.
use crate::full_card::full_card;
use crate::order::Order;
use flash_card::FlashCard;
use rand::{Rng, RngExt};
use rand_pcg::Pcg32;
use std::fmt;
use std::time::{Duration, Instant};
use store::{BLOCK_BYTES, Store, StoreError};

// How long the making and the calls took in all, and how many of the reads showed what a put had stored.
#[derive(Clone, Copy)]
pub struct Times {
    order: Order,
    making: Duration,
    puts: Duration,
    reads: Duration,
    shown: u32,
}

impl Times {
    // Each call is on a block that a generator gives, the same at each run.
    pub fn of(rt: &HostRuntime, order: Order) -> anyhow::Result<Times> {
        let mut rng = Pcg32::new(42, 54);
        let memory = full_card(rt.alloc(), &mut rng, order.blocks)?;
        let (mut card, making) = make_card(rt, memory, order.blocks)?;
        Times::of_calls(rt, &mut card, &mut rng, order, making)
    }

    // The times of the calls on a card whose making took so long.
    fn of_calls<S: Store, R: Rng>(
        rt: &HostRuntime,
        card: &mut S,
        rng: &mut R,
        order: Order,
        making: Duration,
    ) -> anyhow::Result<Times> {
        let start = Instant::now(rt)?;
        put_blocks(card, rng, order)?;
        let puts = start.elapsed(rt)?;
        let start = Instant::now(rt)?;
        let shown = read_blocks(card, rng, order)?;
        let reads = start.elapsed(rt)?;
        Ok(Times {
            order,
            making,
            puts,
            reads,
            shown,
        })
    }
}

// A card over the memory, and how long its making took.
fn make_card(
    rt: &HostRuntime,
    memory: Vec<u8>,
    blocks: u32,
) -> anyhow::Result<(FlashCard, Duration)> {
    FlashCard::check(&memory, blocks)?;
    let start = Instant::now(rt)?;
    let card = FlashCard::new(memory, blocks, u32::MAX)?;
    Ok((card, start.elapsed(rt)?))
}

impl fmt::Display for Times {
    fn fmt<W: fmt::Write>(&self, f: &mut fmt::Formatter<W>) -> fmt::Result {
        let Order {
            blocks,
            puts,
            reads,
        } = self.order;
        let making = self.making.as_millis();
        let put = average(self.puts, puts);
        let read = average(self.reads, reads);
        let shown = self.shown;
        write!(f, "{blocks} {making} {puts} {put} {reads} {read} {shown}")
    }
}

// The nanoseconds of one of so many calls, or 0 if there was none.
fn average(time: Duration, calls: u32) -> u128 {
    time.checked_div(calls).map_or(0, |one| one.as_nanos())
}

fn put_blocks<S: Store, R: Rng>(card: &mut S, rng: &mut R, order: Order) -> Result<(), StoreError> {
    for _ in 0..order.puts {
        let block = rng.random_range(0..order.blocks);
        card.put_block(block, &[1; BLOCK_BYTES])?;
    }
    Ok(())
}

fn read_blocks<S: Store, R: Rng>(
    card: &mut S,
    rng: &mut R,
    order: Order,
) -> Result<u32, StoreError> {
    let mut shown = 0;
    for _ in 0..order.reads {
        let block = rng.random_range(0..order.blocks);
        if card.read_block(block)? == [1; BLOCK_BYTES] {
            shown += 1;
        }
    }
    Ok(shown)
}
