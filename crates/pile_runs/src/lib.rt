// Scripts played on a new module over a pile of any order.
#![tactic(auto)]

mod calls;
mod run;
mod setup;

pub use calls::{FILL, calls_of, data_in_for};
pub use run::Run;
pub use setup::{PlayError, medium_kind, play_with};
