// What hosts send and get: the bytes of their buffers, and the blocks that they name.
#![tactic(auto)]

mod buffers;
mod extent;

pub use buffers::{deliver, front};
pub use extent::Extent;
