// The book of a run: for each block the contents that were written to it, numbered from 1; 0 is what stood there when the
// making was over.
#![tactic(auto)]

mod number;
mod rows;

pub use number::Numbers;
pub use rows::Book;
