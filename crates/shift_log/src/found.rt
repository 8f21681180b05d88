// What was found in a block, to read: its record, or that it holds none.
use crate::record::Record;
use std::fmt;

#[derive(Clone, Copy)]
pub struct Found(pub Option<Record>);

impl fmt::Display for Found {
    fn fmt<W: fmt::Write>(&self, f: &mut fmt::Formatter<W>) -> fmt::Result {
        match self.0 {
            Some(record) => write!(f, "{record}"),
            None => write!(f, "no record"),
        }
    }
}
