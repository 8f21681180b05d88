// Operation codes, by the length of their CDBs.
ghost use Rattle.std.specs.Prelude.{◌≡◌};
ghost use Rattle.cdb.specs.Decoding.{opcode, known};

use sense::CommandError;

#[derive(Clone, Copy, PartialEq, Eq, Debug)]
pub enum SixByte {
    TestUnitReady,
    Inquiry,
    ModeSelect,
    Reserve,
    Release,
    ModeSense,
    StartStopUnit,
    PreventAllow,
}

#[derive(Clone, Copy, PartialEq, Eq, Debug)]
pub enum TenByte {
    ReadCapacity,
    Read,
    Write,
    Verify,
    SynchronizeCache,
}

#[derive(Clone, Copy, PartialEq, Eq, Debug)]
pub enum Opcode {
    Six(SixByte),
    Ten(TenByte),
}

impl TryFrom<u8> for Opcode {
    type Error = CommandError;

    ghost try_from_gives = { λ code r. r ≡ known (opcode code) };

    fn try_from(code: u8) -> Result<Opcode, CommandError> {
        Ok(match code {
            0x00 => Opcode::Six(SixByte::TestUnitReady),
            0x12 => Opcode::Six(SixByte::Inquiry),
            0x15 => Opcode::Six(SixByte::ModeSelect),
            0x16 => Opcode::Six(SixByte::Reserve),
            0x17 => Opcode::Six(SixByte::Release),
            0x1a => Opcode::Six(SixByte::ModeSense),
            0x1b => Opcode::Six(SixByte::StartStopUnit),
            0x1e => Opcode::Six(SixByte::PreventAllow),
            0x25 => Opcode::Ten(TenByte::ReadCapacity),
            0x28 => Opcode::Ten(TenByte::Read),
            0x2a => Opcode::Ten(TenByte::Write),
            0x2f => Opcode::Ten(TenByte::Verify),
            0x35 => Opcode::Ten(TenByte::SynchronizeCache),
            _ => return Err(CommandError::InvalidOpcode),
        })
    }
}
