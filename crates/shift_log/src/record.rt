// One log record, and how it stands in a block: a byte for its kind, the second, and zeros.
ghost use Rattle.std.specs.Prelude.{◌≡◌, Some};
ghost use Rattle.shift_log.specs.Records.{block_of, encoded, decoded};

pub use crate::kind::Kind;
use std::fmt;
use store::BLOCK_BYTES;

// The encoder's records go round this many blocks; the brake's two blocks follow.
pub const ENCODER_BLOCKS: u32 = 10;

pub const BRAKE_COMMAND_BLOCK: u32 = 10;

pub const BRAKE_PRESSURE_BLOCK: u32 = 11;

pub const LOG_BLOCKS: u32 = 12;

#[derive(Clone, Copy, PartialEq, Eq, Debug)]
pub struct Record {
    pub kind: Kind,
    pub second: u32,
}

impl Record {
    // The block that the record goes to.
    pub fn block(self) -> u32
        ensures { result ≡ block_of self }
    {
        match self.kind {
            Kind::Encoder => self.second % ENCODER_BLOCKS,
            Kind::BrakeCommand => BRAKE_COMMAND_BLOCK,
            Kind::BrakePressure => BRAKE_PRESSURE_BLOCK,
        }
    }

    // The record as the content of a block, which reads back as the record. (A `From` could not say that.)
    pub fn to_content(self) -> [u8; BLOCK_BYTES]
        ensures value { result ≡ encoded self }
        ensures back { decoded result ≡ Some self }
    {
        let mut content = [0; BLOCK_BYTES];
        content[0] = self.kind.code();
        content[1..5].copy_from_slice(&self.second.to_be_bytes());
        content
    }

    // The record that a block's content holds, if it holds one. (No `TryFrom`: that it holds none is no error.)
    pub fn from_content(content: &[u8]) -> Option<Record>
        ensures { result ≡ decoded content.now }
    {
        let &[code, a, b, c, d, ..] = content else {
            return None;
        };
        Some(Record {
            kind: Kind::try_from(code).ok()?,
            second: u32::from_be_bytes([a, b, c, d]),
        })
    }
}

impl fmt::Display for Record {
    fn fmt<W: fmt::Write>(&self, f: &mut fmt::Formatter<W>) -> fmt::Result {
        let Record { kind, second } = *self;
        write!(f, "{kind}, second {second}")
    }
}
