// What a run did, in lines to read.
use flash_card::FlashCard;
use log_pile::{Remains, reopened};
use shift_log::{Found, LOG_BLOCKS, Outcome, Record, Shift};
use std::fmt;
use store::Store;

// so many seconds with a brake action are listed
const LISTED: usize = 12;

// What was put in the seconds that were recorded whole, and how the recording ended.
#[derive(Clone, Copy)]
pub struct Recording {
    pub shift: Shift,
    pub outcome: Outcome,
}

impl Recording {
    // How many blocks were put in the seconds that were recorded whole.
    fn blocks_put(&self) -> u32 {
        (0..self.outcome.seconds)
            .map(|second| self.shift.blocks_of(second))
            .fold(0, |sum: u32, blocks| sum.saturating_add(blocks))
    }

    // Writes the seconds with a brake action: the first of them, and how many more there are.
    fn write_brake_actions<W: fmt::Write>(&self, f: &mut fmt::Formatter<W>) -> fmt::Result {
        let shift = self.shift;
        let actions = || (0..self.outcome.seconds).filter(|&second| shift.brakes_at(second));
        for second in actions().take(LISTED) {
            write!(f, " {second}")?;
        }
        match actions().count() {
            0 => write!(f, " (none)"),
            count if count > LISTED => write!(f, " and {} more", count - LISTED),
            _ => Ok(()),
        }
    }

    fn write_ending<W: fmt::Write>(&self, f: &mut fmt::Formatter<W>) -> fmt::Result {
        let Outcome { seconds, answer } = self.outcome;
        match answer {
            Ok(()) => f.write_str("  ended         with a flush"),
            Err(_) if seconds < self.shift.seconds => {
                let begun = self.shift.blocks_of(seconds);
                write!(
                    f,
                    "  ended         power lost in second {seconds}, with up to {begun} blocks put in it"
                )
            }
            Err(_) => f.write_str("  ended         power lost in the flush"),
        }
    }
}

impl fmt::Display for Recording {
    fn fmt<W: fmt::Write>(&self, f: &mut fmt::Formatter<W>) -> fmt::Result {
        let blocks = self.blocks_put();
        let seconds = self.outcome.seconds;
        writeln!(f, "  put           {blocks} blocks in {seconds} seconds")?;
        f.write_str("                an encoder block each second\n")?;
        f.write_str("                two brake blocks in seconds")?;
        self.write_brake_actions(f)?;
        f.write_str("\n")?;
        self.write_ending(f)
    }
}

// What the caches held at the end.
#[derive(Clone, Copy)]
pub struct Held<'a>(pub &'a Remains);

impl fmt::Display for Held<'_> {
    fn fmt<W: fmt::Write>(&self, f: &mut fmt::Formatter<W>) -> fmt::Result {
        let Remains {
            power,
            in_table,
            in_queue,
            ..
        } = self.0;
        if *power {
            write!(f, "{in_table} in the table, {in_queue} in the queue")
        } else {
            write!(
                f,
                "nothing: {in_table} in the table and {in_queue} in the queue went with the power"
            )
        }
    }
}

// What the next power-on would find on the card, block by block.
pub fn print_medium(rt: &HostRuntime, card: FlashCard) -> anyhow::Result<()> {
    let mut card = reopened(card)?;
    println!(rt; "  on the card")?;
    print_blocks(rt, &mut card)
}

// A loop in each program: what is printed of a block differs, and a closure for it would be longer than the loop.
fn print_blocks<S: Store>(rt: &HostRuntime, store: &mut S) -> anyhow::Result<()> {
    for block in 0..LOG_BLOCKS {
        let found = Found(Record::from_content(&store.read_block(block)?));
        println!(rt; "    block {block:>2}    {found}")?;
    }
    Ok(())
}
