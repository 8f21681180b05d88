// What a run left, and how it is told in lines.
#![tactic(auto)]

mod block;
mod hex;
mod line;
mod outcome;
mod totals;

pub use block::FoundBlock;
pub use hex::Hex;
pub use line::ReplyLine;
pub use outcome::{Closing, Outcome};
pub use totals::Totals;
