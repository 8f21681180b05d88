// Scripts of calls: what each line asks for.
#![tactic(auto)]

mod data;
mod digits;
mod error;
mod line;
mod parts;
mod script_text;
mod words;

pub use data::MOST_BYTES;
pub use digits::{number, number_between};
pub use error::{Expected, LineError};
pub use line::{CommandLine, Line, parse_line};
pub use parts::first_part;
pub use script_text::{ScriptError, parse_script};
