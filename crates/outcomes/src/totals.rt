// How many block stores were made, and what is held.
ghost use Rattle.std.specs.Prelude.{◌≡◌};
ghost use Rattle.piles.specs.Bottoms.{granted};
ghost use Rattle.outcomes.specs.Totals.{totals};

use piles::Bottom;
use std::fmt;

#[derive(Clone, Copy, PartialEq, Eq, Debug)]
pub struct Totals {
    pub stores: u32,
    // contents held in the caches; none without power
    pub held: usize,
    pub power: bool,
}

impl Totals {
    // Of this grant, with so many contents in the caches.
    pub fn of(grant: u32, pending: usize, medium: &Bottom) -> Totals
        ensures { result ≡ totals grant (granted medium.now) pending }
    {
        let left = medium.grant();
        let power = left > 0;
        Totals {
            stores: grant.saturating_sub(left),
            held: if power { pending } else { 0 },
            power,
        }
    }
}

impl fmt::Display for Totals {
    fn fmt<W: fmt::Write>(&self, f: &mut fmt::Formatter<W>) -> fmt::Result {
        let Totals {
            stores,
            held,
            power,
        } = *self;
        let power = if power { "on" } else { "off" };
        write!(f, "stores {stores} held {held} power {power}")
    }
}
