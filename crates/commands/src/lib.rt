// The commands with their fields, and what is asked of each before it runs.
#![tactic(auto)]

mod command;
mod fields;
mod requirements;
mod sizes;

pub use command::Command;
pub use fields::{PageControl, PowerCondition, Removal, StartStop};
pub use sizes::{CAPACITY_BYTES, INQUIRY_BYTES, MODE_BYTES, MODE_PAGE, MODE_PAGE_LENGTH};
