// Records a shift of the cable car on any store: an encoder block each second, two blocks for each brake action,
// which are forced to the medium, and a flush at the end.
#![tactic(auto)]

pub mod found;
pub mod kind;
pub mod record;
pub mod recorder;
pub mod shift;

pub use found::Found;
pub use kind::{Kind, UnknownKind};
pub use record::{LOG_BLOCKS, Record};
pub use recorder::{Outcome, record_brake, record_second, record_shift};
pub use shift::Shift;
