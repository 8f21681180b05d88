// The rows of a book.
ghost use Rattle.std.specs.Prelude.{◌≡◌, ℕ, [], map, IfOk, OnOk, length};
ghost use Rattle.rbc_steps.specs.Writes.{carried_out, piece, added, added_to};
ghost use Rattle.session.specs.Sessions.{call_of};
ghost use Rattle.book.specs.Rows.{row, at_block, Grown};

use cdb::decode;
use commands::Command;
use host_data::{Extent, front};
use sense::{Answer, CommandError};
use session::Call;
use std::alloc::{AllocError, Global};
use store::BLOCK_BYTES;

#[derive(Drop)]
pub struct Book<'a> {
    rows: Vec<Vec<&'a [u8]>>,
}

// A call that was not refused: it is good, or lost power on the way.
fn carried_out(answer: Answer, power: bool) -> bool
    ensures { result ≡ carried_out answer power }
{
    match answer {
        Ok(_) => true,
        Err(CommandError::PowerOff) => power,
        Err(_) => false,
    }
}

// Block i of the bytes that a host sends.
fn piece(bytes: &[u8], i: u16) -> &[u8]
    ensures { result.now ≡ piece bytes.now i }
{
    let start = bytes.len().min(BLOCK_BYTES * usize::from(i));
    front(&bytes[start..], BLOCK_BYTES)
}

impl<'a> Book<'a> {
    // A row without contents for each of so many blocks.
    pub fn new(heap: Global, blocks: u32) -> Result<Book<'a>, AllocError>
        ensures { IfOk result (λ book. (length book.rows.items ≡ blocks) × ((b : ℕ) → row book.rows.items b ≡ [])) }
    {
        let mut rows = Vec::new(heap);
        for _ in 0..blocks {
            rows.push(Vec::new(heap))?;
        }
        Ok(Book { rows })
    }

    // The contents written to a block, oldest first.
    pub fn row(&self, block: u32) -> &[&'a [u8]]
        ensures { map (λ x. x.now) result.now ≡ row self.now.rows.items block }
    {
        self.rows
            .get(block as usize)
            .map(Vec::as_slice)
            .unwrap_or_default()
    }

    // A content written to a block, if there is a row for it.
    fn add(&mut self, block: usize, content: &'a [u8]) -> Result<(), AllocError>
        ensures { OnOk result (Grown self.old.rows.items self.new.rows.items (at_block block content.now)) }
    {
        match self.rows.get_mut(block) {
            Some(row) => Ok(row.push(content)?),
            None => Ok(()),
        }
    }

    // What a WRITE writes, block by block.
    fn add_blocks(&mut self, extent: Extent, bytes: &'a [u8]) -> Result<(), AllocError>
        ensures { OnOk result (Grown self.old.rows.items self.new.rows.items (λ b. added_to b extent.address extent.length bytes.now)) }
    {
        for i in 0..extent.length {
            self.add(extent.address as usize + usize::from(i), piece(bytes, i))?;
        }
        Ok(())
    }

    // A call with its answer: a WRITE that was not refused adds its contents.
    pub fn enter(&mut self, call: Call<'a>, answer: Answer, power: bool) -> Result<(), AllocError>
        ensures { OnOk result (Grown self.old.rows.items self.new.rows.items (added (call_of call.entry) answer power)) }
    {
        if !carried_out(answer, power) {
            return Ok(());
        }
        let Call::Command { cdb, data_out, .. } = call else {
            return Ok(());
        };
        match decode(cdb, data_out) {
            Ok(Command::Write { extent, data, .. }) => self.add_blocks(extent, data),
            _ => Ok(()),
        }
    }
}
