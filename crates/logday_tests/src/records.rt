// Records in their bytes, and when the brake acts.
use crate::checks::same;
use shift_log::{Kind, Record, Shift, UnknownKind};
use std::test::Fail;
use store::BLOCK_BYTES;

// A record of this kind begins with this code.
fn begins_with(kind: Kind, code: u8) -> Result<(), Fail> {
    let record = Record {
        kind,
        second: 0x0102_0304,
    };
    let mut content = [0; BLOCK_BYTES];
    content[..5].copy_from_slice(&[code, 1, 2, 3, 4]);
    same(record.to_content(), content)?;
    same(Record::from_content(&content), Some(record))
}

// The kind's byte, the second in four bytes, the highest first, and zeros.
#[test]
fn a_record_stands_in_its_first_five_bytes() -> Result<(), Fail> {
    begins_with(Kind::Encoder, 1)?;
    begins_with(Kind::BrakeCommand, 2)?;
    begins_with(Kind::BrakePressure, 3)
}

// No kind of record has this code, and a block of it holds no record.
fn is_unknown(code: u8) -> Result<(), Fail> {
    same(Record::from_content(&[code; BLOCK_BYTES]), None)?;
    same(Kind::try_from(code), Err(UnknownKind(code)))
}

#[test]
fn a_block_of_another_kind_holds_no_record(rt: HostRuntime) -> Result<(), Fail> {
    is_unknown(0)?;
    is_unknown(4)?;
    is_unknown(0xff)?;
    let text = UnknownKind(4).to_string(rt.alloc())?;
    same(text.as_str(), "no kind of record has the code 4")
}

// In a shift of 24 seconds whose brake acts in the last of so many, it acts in these.
fn acts_in(brake_every: u32, seconds: &[u32]) -> Result<(), Fail> {
    let shift = Shift {
        seconds: 24,
        brake_every,
    };
    for second in 0..24 {
        let found = (shift.brakes_at(second), shift.blocks_of(second));
        let wanted = if seconds.contains(&second) {
            (true, 3)
        } else {
            (false, 1)
        };
        same((brake_every, second, found), (brake_every, second, wanted))?;
    }
    Ok(())
}

// A second puts one block, or three where the brake acts.
#[test]
fn the_brake_acts_in_the_last_of_so_many_seconds() -> Result<(), Fail> {
    acts_in(8, &[7, 15, 23])?;
    acts_in(12, &[11, 23])?;
    acts_in(0, &[])
}
