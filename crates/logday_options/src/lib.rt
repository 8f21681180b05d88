// What the command line of logday asks for.
#![tactic(auto)]

ghost use Rattle.std.specs.Prelude.{IfOk, IfErr, Option};
ghost use Rattle.std.specs.Vec.Iter.{into_iter_items};
ghost use Rattle.logday_options.specs.declared.Options.{Options};
ghost use Rattle.logday_options.specs.Words.{Says, Asked};

use anyhow::{anyhow, ensure};
use shift_log::Shift;
use std::env::Args;

pub const USAGE: &str = "usage: logday [SECONDS [BRAKE_EVERY [STORES]]]
  SECONDS      how long the shift lasts, 0 to 86400 (24)
  BRAKE_EVERY  the brake acts in the last of so many seconds, 0: never (8)
  STORES       how many block stores the card makes before the power goes, in the second run (12)";

const DAY: u32 = 86_400;

#[derive(Clone, Copy)]
pub struct Options {
    pub shift: Shift,
    pub stores: u32,
}

impl Options {
    // The options from the words after the program's name, or none if help is asked for.
    pub fn parse(mut words: Args) -> anyhow::Result<Option<Options>>
        ensures asked { IfOk result (Asked (into_iter_items words)) }
        ensures refused { IfErr result (λ _. (asked : Option Options) → ¬ Asked (into_iter_items words) asked) }
    {
        Options::from_words(&mut words)
    }

    fn from_words(words: &mut Args) -> anyhow::Result<Option<Options>>
        ensures asked { IfOk result (Asked (into_iter_items words.old)) }
        ensures refused { IfErr result (λ _. (asked : Option Options) → ¬ Asked (into_iter_items words.old) asked) }
    {
        let first = words.next();
        if first.as_ref().is_some_and(|word| word.as_str() == "--help") {
            return Ok(None);
        }
        let seconds = number(first, 24)?;
        let brake_every = number(words.next(), 8)?;
        let stores = number(words.next(), 12)?;
        ensure!(
            words.next().is_none(),
            "too many arguments; logday --help tells what it takes"
        );
        ensure!(seconds <= DAY, "a shift lasts at most 86400 seconds");
        Ok(Some(Options {
            shift: Shift {
                seconds,
                brake_every,
            },
            stores,
        }))
    }
}

// The number that a word says, or the default if there is no word.
fn number(word: Option<String>, default: u32) -> anyhow::Result<u32>
    ensures { Says default word result }
{
    let Some(word) = word else {
        return Ok(default);
    };
    word.as_str().parse().map_err(|_| {
        anyhow!("an argument is no number from 0 to 4294967295; logday --help tells what it takes")
    })
}
