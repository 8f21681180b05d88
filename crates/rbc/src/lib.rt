// The recorder module: Reduced Block Commands over any block store.
#![tactic(auto)]

mod target;

pub use target::Module;
