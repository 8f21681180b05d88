// Records a shift on a flash card under a queue cache under a table cache: once with power to the end, and once with
// the power going after a given number of block stores. Prints what was put, stored, held and found on the card.
#![tactic(auto)]

mod report;

use log_pile::{Pile, Remains, erased_card, pile_over};
use logday_options::{Options, USAGE};
use report::{Held, Recording, print_medium};
use shift_log::{Shift, record_shift};
use std::alloc::{AllocError, Global};
use std::env;

// The shift recorded on an erased card with this grant of block stores, and what is left of the pile.
fn record(heap: Global, shift: Shift, grant: u32) -> Result<(Recording, Remains), AllocError> {
    let mut pile = new_pile(heap, grant)?;
    let outcome = record_shift(&mut pile, shift);
    Ok((Recording { shift, outcome }, Remains::of(pile)))
}

fn new_pile(heap: Global, grant: u32) -> Result<Pile, AllocError> {
    let card = erased_card(heap, grant)?;
    Ok(pile_over(heap, card)?)
}

// One run, with this grant of block stores.
fn run(rt: &HostRuntime, shift: Shift, grant: u32) -> anyhow::Result<()> {
    let (recording, remains) = record(rt.alloc(), shift, grant)?;
    print_recording(rt, recording, &remains, grant)?;
    print_medium(rt, remains.card)
}

fn print_recording(
    rt: &HostRuntime,
    recording: Recording,
    remains: &Remains,
    grant: u32,
) -> anyhow::Result<()> {
    println!(rt; "{recording}")?;
    let stores = remains.stores(grant);
    println!(rt; "  block stores  {stores}")?;
    let held = Held(remains);
    println!(rt; "  held          {held}")?;
    Ok(())
}

fn record_twice(rt: &HostRuntime, options: Options) -> anyhow::Result<()> {
    let Options { shift, stores } = options;
    println!(rt; "{shift}")?;
    println!(rt; "power to the end")?;
    run(rt, shift, u32::MAX)?;
    println!(rt; "power going after {stores} block stores")?;
    run(rt, shift, stores)
}

fn main(rt: HostRuntime) -> anyhow::Result<()> {
    let mut words = env::args(&rt)?;
    let _program = words.next();
    match Options::parse(words)? {
        Some(options) => record_twice(&rt, options)?,
        None => println!(rt; "{USAGE}")?,
    }
    Ok(())
}
