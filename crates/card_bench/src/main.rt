// Times calls on a full flash card, for bench/card.sh.
#![tactic(auto)]

mod full_card;
mod order;
mod times;

use order::{Order, USAGE};
use std::env;
use times::Times;

fn main(rt: HostRuntime) -> anyhow::Result<()> {
    let mut words = env::args(&rt)?;
    let _program = words.next();
    match Order::parse(&mut words)? {
        Some(order) => {
            let times = Times::of(&rt, order)?;
            println!(rt; "{times}")?;
        }
        None => println!(rt; "{USAGE}")?,
    }
    Ok(())
}
