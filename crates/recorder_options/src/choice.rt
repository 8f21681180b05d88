// The words of a command line, taken together.
ghost use Rattle.std.specs.Prelude.{◌≡◌, ◌≤◌, map, vec_len};
ghost use Rattle.std.specs.List.{list_any};
ghost use Rattle.std.specs.String.{string_bytes};
ghost use Rattle.recorder_options.specs.Faults.{Gives};
ghost use Rattle.recorder_options.specs.Order.{stack};
ghost use Rattle.recorder_options.specs.Given.{InRange};
ghost use Rattle.recorder_options.specs.Choice.{is_help, choice, choice_of, asked, asked_by};

use crate::error::{Expected, OptionsError};
use crate::given::Given;
use crate::kinds::Medium;
use crate::options::{Asked, Options};
use crate::order::{Order, order_of};
use std::alloc::Global;

const BLOCKS: u32 = 10;

const GRANT: u32 = 1_000_000;

fn options_of(order: Order, given: Given) -> Result<Options, OptionsError>
    requires few { vec_len order.caches ≤ 3 }
    requires blocks { InRange given }
    ensures { Gives choice result (choice_of (stack order) given) }
{
    let blocks = given.blocks.unwrap_or(BLOCKS);
    if order.medium == Medium::Flat && given.pages.is_some() {
        return Err(OptionsError::PagesWithFlat);
    }
    let pages = given.pages.unwrap_or(blocks + 2);
    if pages <= blocks {
        return Err(OptionsError::FewPages {
            pages,
            least: blocks + 1,
        });
    }
    Ok(Options {
        medium: order.medium,
        caches: order.caches,
        blocks,
        pages,
        grant: given.grant.unwrap_or(GRANT),
        mode: given.mode,
    })
}

fn is_help(word: &String) -> bool
    ensures { result ≡ is_help (string_bytes word.now) }
{
    word.as_str() == "--help"
}

fn asks_help(words: &[String]) -> bool
    ensures { result ≡ list_any (λ word. is_help (string_bytes word)) words.now }
{
    words.iter().any(|word| is_help(word))
}

// What the words after the program's name ask for.
#[tactic(auto, using(crate::proofs::Help::list_any_map))]
pub fn parse(heap: Global, words: &[String]) -> Result<Asked, OptionsError>
    ensures { Gives asked result (asked_by (map string_bytes words.now)) }
{
    if asks_help(words) {
        return Ok(Asked::Help);
    }
    let Some((first, others)) = words.split_first() else {
        return Err(OptionsError::Ended(Expected::Order));
    };
    let order = order_of(heap, first.as_bytes())?;
    let given = Given::by(heap, others)?;
    Ok(Asked::Run(options_of(order, given)?))
}
