// A pile: a medium, or a cache over a pile.
ghost use Rattle.std.specs.Prelude.{◌≡◌, ℕ, length};
ghost use Rattle.piles.specs.Bottoms.{counted, granted, Stands, sum_up};

use crate::bottom::Bottom;
use cache::{Buffer, Cache};
use flash_card::FlashCard;
use flat_medium::FlatMedium;
use store::Store;

// A pile taken apart: how many contents its caches held, and the medium.
#[derive(Drop)]
pub struct Parts {
    pub pending: usize,
    pub bottom: Bottom,
}

pub trait Pile: Store + Drop {
    // how many contents the caches hold
    ghost pending: { Self → ℕ };

    // The medium, without what is held above it.
    fn into_parts(self) -> Parts
        ensures pending { result.pending ≡ pending self }
        ensures count { counted result.bottom ≡ (Self.meaning (Self.model self)).count }
        ensures grant { granted result.bottom ≡ (Self.meaning (Self.model self)).grant }
        ensures stands { Stands (Self.meaning (Self.model self)) result.bottom };
}

impl Pile for FlatMedium {
    ghost pending = { λ _. 0 };

    fn into_parts(self) -> Parts {
        Parts {
            pending: 0,
            bottom: Bottom::Flat(self),
        }
    }
}

impl Pile for FlashCard {
    ghost pending = { λ _. 0 };

    fn into_parts(self) -> Parts {
        Parts {
            pending: 0,
            bottom: Bottom::Card(self),
        }
    }
}

impl<S: Pile, B: Buffer<S>> Pile for Cache<S, B> {
    ghost pending = { λ cache. sum_up (length (B.kind.entries (B.model cache.held))) (S.Pile.pending cache.below) };

    fn into_parts(self) -> Parts {
        let here = self.pending();
        let Parts { pending, bottom } = self.into_below().into_parts();
        Parts {
            pending: pending.saturating_add(here),
            bottom,
        }
    }
}
