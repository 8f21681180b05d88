// The logical unit's own state, and how commands move it.
#![tactic(auto)]

mod host;
mod settings;
mod state;

pub use host::{HOSTS, Host};
pub use settings::Settings;
pub use state::{Condition, LogicalUnit};
