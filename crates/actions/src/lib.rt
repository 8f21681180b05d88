// The parts of commands: the bytes that they put into data-in, and what they do to the store and the logical unit.
#![tactic(auto)]

mod data;
mod device;
mod pile;

pub use data::{inquire, report_capacity, sense_mode};
pub use device::Device;
pub use pile::{mode_select, start_stop, write};
