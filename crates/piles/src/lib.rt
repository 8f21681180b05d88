// Piles: a medium under write caches of any kinds, made in any order, and taken apart after a run.
#![tactic(auto)]

mod bottom;
mod made;
mod order;
mod pile;

pub use bottom::Bottom;
pub use made::{MediumError, MediumKind, new_medium};
pub use order::{PileError, Task, with_pile};
pub use pile::{Parts, Pile};
