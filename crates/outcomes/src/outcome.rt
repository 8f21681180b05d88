// What a run left, to be told in lines: the replies, the block stores made, what is held, and what is found on the medium.
ghost use Rattle.std.specs.Prelude.{◌≡◌, ℕ, ◌<◌, [], ◌&&◌, not, ◌==◌, IfOk, map, nat_lt, length};
ghost use Rattle.sense.specs.Report.{number};
ghost use Rattle.session.specs.Sessions.{call_of};
ghost use Rattle.piles.specs.Bottoms.{bottom_meaning, counted, granted};
ghost use Rattle.book.specs.Rows.{row};
ghost use Rattle.outcomes.specs.Found.{rows_after};
ghost use Rattle.outcomes.specs.Totals.{totals};
ghost use Rattle.outcomes.specs.Views.{OutcomeOf, answer_of_reply};
ghost use Rattle.outcomes.specs.LawRows.{NumberedByLaw};

use crate::block::FoundBlock;
use crate::line::ReplyLine;
use crate::totals::Totals;
use book::Book;
use pile_runs::Run;
use sense::{Answer, CommandError};
use session::{Call, Reply};
use std::alloc::{AllocError, Global};
use std::fmt;

#[derive(Drop)]
pub struct Outcome {
    pub replies: Vec<Reply>,
    pub totals: Totals,
    // the blocks that were written, in rising order
    pub blocks: Vec<FoundBlock>,
}

impl Outcome {
    // What the run of these calls left, with this grant of block stores. The numbers are those of the law over runs.
    pub fn of(heap: Global, grant: u32, calls: &[Call<'_>], run: Run) -> Result<Outcome, AllocError>
        ensures outcome { IfOk result (OutcomeOf grant (map call_of calls.now) run) }
        ensures numbers { IfOk result (NumberedByLaw grant (map call_of calls.now) run) }
    {
        let Run {
            replies,
            pending,
            bottom,
        } = run;
        let totals = Totals::of(grant, pending, &bottom);
        let book = book_of(heap, bottom.count(), grant, calls, &replies)?;
        let blocks = FoundBlock::all(heap, bottom, &book)?;
        Ok(Outcome {
            replies,
            totals,
            blocks,
        })
    }
}

// The rows of contents that the calls wrote, each answered so, with this grant of block stores.
fn book_of<'a>(
    heap: Global,
    blocks: u32,
    grant: u32,
    calls: &[Call<'a>],
    replies: &[Reply],
) -> Result<Book<'a>, AllocError>
    ensures { IfOk result (λ book. (length book.rows.items ≡ blocks) × ((b : ℕ) → b < blocks → row book.rows.items b ≡ rows_after (λ _. []) (nat_lt 0 grant) (map call_of calls.now) (map answer_of_reply replies.now) b)) }
{
    let mut book = Book::new(heap, blocks)?;
    let mut power = grant > 0;
    for (call, reply) in calls.iter().zip(replies) {
        book.enter(*call, reply.answer, power)?;
        power = power_after(reply.answer, power);
    }
    Ok(book)
}

// Power goes with the first answer that tells of its loss.
fn power_after(answer: Answer, power: bool) -> bool
    ensures { result ≡ (power && not (number answer == 2)) }
{
    match answer {
        Ok(_) => power,
        Err(CommandError::PowerOff) => false,
        Err(_) => power,
    }
}

// The lines after the replies.
#[derive(Clone, Copy)]
pub struct Closing<'a>(&'a Outcome);

impl Outcome {
    pub fn closing(&self) -> Closing<'_>
        ensures { result.0.now ≡ self.now }
    {
        Closing(self)
    }
}

impl fmt::Display for Closing<'_> {
    fn fmt<W: fmt::Write>(&self, f: &mut fmt::Formatter<W>) -> fmt::Result {
        let Closing(outcome) = *self;
        writeln!(f, "{}", outcome.totals)?;
        for block in &outcome.blocks {
            if block.is_changed() {
                writeln!(f, "{block}")?;
            }
        }
        Ok(())
    }
}

impl fmt::Display for Outcome {
    fn fmt<W: fmt::Write>(&self, f: &mut fmt::Formatter<W>) -> fmt::Result {
        for reply in &self.replies {
            writeln!(f, "{}", ReplyLine::of(reply))?;
        }
        write!(f, "{}", self.closing())
    }
}
