// The pile of the log: a table cache over a queue cache over a flash card with the log's twelve blocks.
#![tactic(auto)]

mod card;
mod pile;

pub use card::{CARD_BYTES, erased_card, reopened};
pub use pile::{Pile, Remains, pile_over};
