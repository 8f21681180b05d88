// Why a line is malformed.
use std::alloc::AllocError;
use std::fmt;
use thiserror::Error;

// What a line was to have next.
#[derive(Clone, Copy, PartialEq, Eq, Debug)]
pub enum Expected {
    Call,
    Host,
    Cdb,
    DataOut,
    DataIn,
    // an option of a command, or the end
    More,
    End,
}

impl Expected {
    fn text(self) -> &'static str {
        match self {
            Expected::Call => "reset or command",
            Expected::Host => "a decimal number from 0 to 4294967295 as HOST",
            Expected::Cdb => "hex digits, two for each byte, or - as CDB",
            Expected::DataOut => {
                "hex digits, two for each byte, or BYTExCOUNT, joined by +, at most 33553920 bytes in all, as DATA"
            }
            Expected::DataIn => "a decimal number from 0 to 33553920 as N",
            Expected::More => "out DATA, then in N, or the end of the line",
            Expected::End => "the end of the line",
        }
    }
}

impl fmt::Display for Expected {
    fn fmt<W: fmt::Write>(&self, f: &mut fmt::Formatter<W>) -> fmt::Result {
        f.write_str(self.text())
    }
}

#[derive(Debug, Drop, Error)]
pub enum LineError {
    #[error("expected {expected}, found {found:?}")]
    Found { expected: Expected, found: String },
    #[error("expected {0}, found the end of the line")]
    Ended(Expected),
    #[error("out of memory")]
    Memory(AllocError),
}
