// Which contents are entered, and which number is told.
use super::checks::{same_at, says};
use book::{Book, Numbers};
use sense::CommandError;
use session::Call;
use std::alloc::{AllocError, Global};
use std::test::Fail;

// WRITE of two blocks from block 1 on
const WRITE: [u8; 10] = [0x2a, 0, 0, 0, 0, 1, 0, 0, 2, 0];

const FIRST: [u8; 1024] = [0x11; 1024];

const SECOND: [u8; 1024] = [0x22; 1024];

fn write(data_out: &[u8]) -> Call<'_> {
    Call::Command {
        host: 0,
        cdb: &WRITE,
        data_out,
        data_in: &[],
    }
}

// Three writes to blocks 1 and 2, with an old content at last.
fn entered(heap: Global) -> Result<Book<'static>, AllocError> {
    let mut book = Book::new(heap, 3)?;
    for data_out in [&FIRST, &SECOND, &FIRST] {
        book.enter(write(data_out), Ok(0), true)?;
    }
    Ok(book)
}

#[test]
fn the_newest_of_equal_contents_is_found(rt: HostRuntime) -> Result<(), Fail> {
    let book = entered(rt.alloc())?;
    for (block, found, latest) in [(0, 0, 0), (1, 3, 3), (2, 3, 3), (3, 0, 0)] {
        let numbers = Numbers::of(book.row(block), &FIRST[..512]);
        same_at(block, numbers, Numbers { found, latest })?;
    }
    let numbers = Numbers::of(book.row(2), &SECOND[..512]);
    says(rt.alloc(), &numbers, "number 2 of 3")
}

#[test]
fn a_write_that_lost_power_is_entered(rt: HostRuntime) -> Result<(), Fail> {
    let cases = [
        (Err(CommandError::PowerOff), true, 1),
        (Err(CommandError::PowerOff), false, 0),
        (Err(CommandError::WriteProtected), true, 0),
    ];
    for (answer, power, latest) in cases {
        let mut book = Book::new(rt.alloc(), 3)?;
        book.enter(write(&FIRST), answer, power)?;
        same_at((answer, power), book.row(2).len(), latest)?;
    }
    Ok(())
}
