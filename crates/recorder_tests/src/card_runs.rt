// A run over a card.
use super::checks::same;
use super::options::options;
use pile_runs::{Run, play_with};
use piles::Bottom;
use std::test::Fail;

// Five pages of 516 bytes.
#[test]
fn a_card_has_the_pages_that_are_asked_for(rt: HostRuntime) -> Result<(), Fail> {
    let options = options(rt.alloc(), "card --blocks 3 --pages 5")?;
    let Run { bottom, .. } = play_with(rt.alloc(), &options, 1, &[])?;
    match bottom {
        Bottom::Card(card) => same(card.into_memory(), vec![in rt.alloc(); 0xff; 2580]?),
        Bottom::Flat(_) => Err("a card is expected".into()),
    }
}
