// A CDB is known by its first byte, has six or ten bytes at least, and ends its fields with CONTROL, which is zero.
ghost use Rattle.std.specs.Prelude.{◌≡◌, Some};
ghost use Rattle.cdb.specs.declared.opcode.Opcode.TheVariants.{Six, Ten};
ghost use Rattle.cdb.specs.Decoding.{decoded_by, decoded, seen};

use crate::opcode::{Opcode, SixByte, TenByte};
use commands::{Command, StartStop};
use host_data::{Extent, front};
use sense::CommandError;

// Six and ten bytes have a function each: a CDB is to be taken apart by a pattern that names its bytes.
fn decode_six<'a>(six: SixByte, cdb: &[u8], data_out: &'a [u8]) -> Result<Command<'a>, CommandError>
    ensures { seen result ≡ decoded_by (Some (Six six)) cdb.now data_out.now }
{
    let [_, byte1, byte2, _, byte4, control, ..] = cdb else {
        return Err(CommandError::ShortCdb);
    };
    if *control != 0 {
        return Err(CommandError::ControlSet);
    }
    Ok(match six {
        SixByte::TestUnitReady => Command::TestUnitReady,
        SixByte::Inquiry => Command::Inquiry {
            vital: *byte1 & 1 != 0,
            page: *byte2,
            allocation: *byte4,
        },
        SixByte::ModeSelect => Command::ModeSelect {
            length: *byte4,
            list: front(data_out, usize::from(*byte4)),
        },
        SixByte::Reserve => Command::Reserve,
        SixByte::Release => Command::Release,
        SixByte::ModeSense => Command::ModeSense {
            control: (*byte2 >> 6).into(),
            page: *byte2 & 0x3f,
            allocation: *byte4,
        },
        SixByte::StartStopUnit => Command::StartStopUnit {
            request: StartStop {
                condition: (*byte4 >> 4).into(),
                start: *byte4 & 1 != 0,
                load_eject: *byte4 & 2 != 0,
            },
        },
        SixByte::PreventAllow => Command::PreventAllow {
            removal: (*byte4 & 3).into(),
        },
    })
}

fn decode_ten<'a>(ten: TenByte, cdb: &[u8], data_out: &'a [u8]) -> Result<Command<'a>, CommandError>
    ensures { seen result ≡ decoded_by (Some (Ten ten)) cdb.now data_out.now }
{
    let [
        _,
        byte1,
        byte2,
        byte3,
        byte4,
        byte5,
        _,
        byte7,
        byte8,
        control,
        ..
    ] = cdb
    else {
        return Err(CommandError::ShortCdb);
    };
    if *control != 0 {
        return Err(CommandError::ControlSet);
    }
    let relative = *byte1 & 1 != 0;
    let extent = Extent {
        address: u32::from_be_bytes([*byte2, *byte3, *byte4, *byte5]),
        length: u16::from_be_bytes([*byte7, *byte8]),
    };
    Ok(match ten {
        TenByte::ReadCapacity => Command::ReadCapacity,
        TenByte::Read => Command::Read { relative, extent },
        TenByte::Write => Command::Write {
            relative,
            force: *byte1 & 8 != 0,
            extent,
            data: front(data_out, extent.byte_count()),
        },
        TenByte::Verify => Command::Verify { relative, extent },
        TenByte::SynchronizeCache => Command::SynchronizeCache,
    })
}

// The command of a CDB, with its data if the host sends some; or why the CDB has none. CDB and data-out come one by
// one, as COMMAND takes them.
pub fn decode<'a>(cdb: &[u8], data_out: &'a [u8]) -> Result<Command<'a>, CommandError>
    ensures { seen result ≡ decoded cdb.now data_out.now }
{
    let code = cdb.first().ok_or(CommandError::InvalidOpcode)?;
    match Opcode::try_from(*code)? {
        Opcode::Six(six) => decode_six(six, cdb, data_out),
        Opcode::Ten(ten) => decode_ten(ten, cdb, data_out),
    }
}
