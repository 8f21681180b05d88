// What the words of the recorder's command line ask for.
#![tactic(auto)]

mod choice;
mod error;
mod given;
mod kinds;
mod options;
mod order;

pub use choice::parse;
pub use error::{Expected, OptionsError};
pub use kinds::{CacheKind, Medium, Mode, Name, Setting};
pub use options::{Asked, Options};
