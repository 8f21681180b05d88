// What a log record tells of, and the byte for it in a block.
ghost use Rattle.std.specs.Prelude.{◌≡◌};
ghost use Rattle.shift_log.specs.Records.{kind_code, IsKindOf};

use std::fmt;
use thiserror::Error;

#[derive(Clone, Copy, PartialEq, Eq, Debug)]
pub enum Kind {
    Encoder = 1,
    BrakeCommand = 2,
    BrakePressure = 3,
}

// A byte that stands for no kind.
#[derive(Clone, Copy, PartialEq, Eq, Debug, Error)]
#[error("no kind of record has the code {0}")]
pub struct UnknownKind(pub u8);

impl Kind {
    // The kind's byte in a block.
    pub fn code(self) -> u8
        ensures { result ≡ kind_code self }
    {
        u8::from(self)
    }
}

impl From<Kind> for u8 {
    ghost from_gives = { λ kind code. code ≡ kind_code kind };

    fn from(kind: Kind) -> u8 {
        kind as u8
    }
}

impl TryFrom<u8> for Kind {
    type Error = UnknownKind;

    ghost try_from_gives = { IsKindOf };

    fn try_from(code: u8) -> Result<Kind, UnknownKind> {
        match code {
            1 => Ok(Kind::Encoder),
            2 => Ok(Kind::BrakeCommand),
            3 => Ok(Kind::BrakePressure),
            _ => Err(UnknownKind(code)),
        }
    }
}

impl fmt::Display for Kind {
    fn fmt<W: fmt::Write>(&self, f: &mut fmt::Formatter<W>) -> fmt::Result {
        f.write_str(match self {
            Kind::Encoder => "encoder",
            Kind::BrakeCommand => "brake command",
            Kind::BrakePressure => "brake pressure",
        })
    }
}
