// What the command line asks for.
ghost use Rattle.std.specs.Prelude.{◌<◌};

use anyhow::{anyhow, ensure};
use std::env::Args;

pub const USAGE: &str = "usage: card_bench BLOCKS PUTS READS
  BLOCKS  the blocks of the card, 1 to 16777216; it has one page more
  PUTS    how many puts of a block are timed
  READS   how many reads of a block are timed
prints: BLOCKS, ms of the making, PUTS, ns of a put, READS, ns of a read, how many reads showed a put";

#[derive(Clone, Copy)]
pub struct Order {
    pub blocks: u32,
    pub puts: u32,
    pub reads: u32,
    ghost some: { 0 < blocks },
}

impl Order {
    // The order from the words after the program's name, or none if there are no words.
    pub fn parse(words: &mut Args) -> anyhow::Result<Option<Order>> {
        let Some(first) = words.next() else {
            return Ok(None);
        };
        let blocks = number(Some(first))?;
        ensure!(blocks > 0, "a card has a block at least");
        let puts = number(words.next())?;
        let reads = number(words.next())?;
        Ok(Some(Order {
            blocks,
            puts,
            reads,
        }))
    }
}

fn number(word: Option<String>) -> anyhow::Result<u32> {
    let Some(word) = word else {
        return Err(anyhow!("card_bench takes three numbers"));
    };
    word.as_str().parse().map_err(|_| anyhow!("an argument is no number from 0 to 4294967295"))
}
