// Why the words of a command line ask for nothing.
ghost use Rattle.std.specs.Prelude.{◌≡◌};
ghost use Rattle.recorder_options.specs.Faults.{Gives, meant};

use crate::kinds::{Name, Setting};
use std::alloc::{AllocError, Global};
use std::fmt;
use thiserror::Error;

// What the words were to have next.
#[derive(Clone, Copy, PartialEq, Eq, Debug)]
pub enum Expected {
    Order,
    Medium,
    Cache,
    Option,
    Value(Setting),
}

impl Expected {
    fn text(self) -> &'static str {
        match self {
            Expected::Order => "ORDER, as flat or card+queue+table",
            Expected::Medium => "flat or card at the front of ORDER",
            Expected::Cache => "table or queue in ORDER",
            Expected::Option => "--blocks, --pages, --grant, --map, --serve or --help",
            Expected::Value(Setting::Blocks) => {
                "a decimal number from 1 to 16777216 after --blocks"
            }
            Expected::Value(Setting::Pages) => {
                "a decimal number from 2 to 4294967295 after --pages"
            }
            Expected::Value(Setting::Grant) => {
                "a decimal number from 0 to 4294967295 after --grant"
            }
        }
    }
}

impl fmt::Display for Expected {
    fn fmt<W: fmt::Write>(&self, f: &mut fmt::Formatter<W>) -> fmt::Result {
        f.write_str(self.text())
    }
}

impl Name {
    fn text(self) -> &'static str {
        match self {
            Name::Number(Setting::Blocks) => "--blocks",
            Name::Number(Setting::Pages) => "--pages",
            Name::Number(Setting::Grant) => "--grant",
            Name::Map => "--map",
            Name::Serve => "--serve",
        }
    }
}

impl fmt::Display for Name {
    fn fmt<W: fmt::Write>(&self, f: &mut fmt::Formatter<W>) -> fmt::Result {
        f.write_str(self.text())
    }
}

#[derive(Debug, Drop, Error)]
pub enum OptionsError {
    #[error("expected {expected}, found {found:?}")]
    Found { expected: Expected, found: String },
    #[error("expected {0}, found no more words")]
    Ended(Expected),
    #[error("expected at most three caches in ORDER")]
    TooManyCaches,
    #[error("{0} is given twice")]
    Twice(Name),
    #[error("--map and --serve are given, expected at most one of them")]
    MapWithServe,
    #[error("--pages is given with flat, expected it with card alone")]
    PagesWithFlat,
    #[error("expected at least {least} after --pages, found {pages}")]
    FewPages { pages: u32, least: u32 },
    #[error("out of memory")]
    Memory(AllocError),
}

// What a word stands for, or the error that it stands for nothing.
pub fn meant<T>(
    heap: Global,
    expected: Expected,
    word: &[u8],
    value: Option<T>,
) -> Result<T, OptionsError>
    ensures { Gives (λ x. x) result (meant expected word.now value) }
{
    match value {
        Some(value) => Ok(value),
        None => match String::from_utf8_lossy(heap, word) {
            Ok(found) => Err(OptionsError::Found { expected, found }),
            Err(error) => Err(OptionsError::Memory(error)),
        },
    }
}
