// A reply in one line.
ghost use Rattle.std.specs.Prelude.{◌≡◌};

use crate::hex::Hex;
use sense::{Answer, Report};
use session::Reply;
use std::fmt;

// The number, status, sense key, ASC, ASCQ and count of an answer, and the bytes that it returned.
#[derive(Clone, Copy)]
pub struct ReplyLine<'a> {
    pub answer: Answer,
    pub bytes: &'a [u8],
}

impl<'a> ReplyLine<'a> {
    pub fn of(reply: &'a Reply) -> ReplyLine<'a>
        ensures { (result.answer ≡ reply.now.answer) × (result.bytes.now ≡ reply.now.«data».items) }
    {
        ReplyLine {
            answer: reply.answer,
            bytes: &reply.data,
        }
    }
}

impl fmt::Display for ReplyLine<'_> {
    fn fmt<W: fmt::Write>(&self, f: &mut fmt::Formatter<W>) -> fmt::Result {
        let Report {
            number,
            status,
            key,
            asc,
            ascq,
            count,
        } = Report::from(self.answer);
        write!(
            f,
            "{number} {status:02x} {key:02x} {asc:02x} {ascq:02x} {count}"
        )?;
        if !self.bytes.is_empty() {
            write!(f, " {}", Hex(self.bytes))?;
        }
        Ok(())
    }
}
