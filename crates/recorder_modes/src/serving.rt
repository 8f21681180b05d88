// Calls answered one by one, for a program that drives the module through two pipes.
use outcomes::{Outcome, ReplyLine};
use pile_runs::{Run, calls_of, data_in_for, medium_kind};
use piles::{Parts, Pile, Task, new_medium, with_pile};
use rbc::Module;
use recorder_options::Options;
use script::{Line, parse_line};
use session::{Call, Reply, reply_to};
use std::alloc::{AllocError, Global};
use std::io::{BufRead, BufReader};
use std::slice;

// The lines that were answered, with their replies.
#[derive(Drop)]
struct Served {
    lines: Vec<Line>,
    replies: Vec<Reply>,
}

// What is told at the end, with this grant of block stores.
fn print_closing(rt: &HostRuntime, grant: u32, served: Served, left: Parts) -> anyhow::Result<()> {
    let Served { lines, replies } = served;
    let Parts { pending, bottom } = left;
    let run = Run {
        replies,
        pending,
        bottom,
    };
    let data_in = data_in_for(rt.alloc(), &lines)?;
    let calls = calls_of(rt.alloc(), &lines, &data_in)?;
    let outcome = Outcome::of(rt.alloc(), grant, &calls, run)?;
    Ok(print!(rt; "{}", outcome.closing())?)
}

#[derive(Drop)]
struct Serve<'a> {
    rt: &'a HostRuntime,
    options: &'a Options,
}

impl Task for Serve<'_> {
    type Output = anyhow::Result<()>;

    // nothing is promised of what is read and written
    ghost gives = { λ task steps meaning held state output. Unit {0} };

    fn run<S: Pile>(self, pile: S) -> anyhow::Result<()> {
        let Serve { rt, options } = self;
        let mut module = Module::make(pile);
        let served = serve_lines(rt, &mut module)?;
        print_closing(rt, options.grant, served, module.into_store().into_parts())
    }
}

// The first of the calls, done; none if there are none.
fn first_reply<S: Pile>(
    heap: Global,
    module: &mut Module<S>,
    calls: &[Call<'_>],
) -> Result<Option<Reply>, AllocError> {
    match calls.first() {
        Some(call) => Ok(Some(reply_to(heap, module, call)?)),
        None => Ok(None),
    }
}

// What the line asks for, done; none if it is skipped.
fn reply_to_line<S: Pile>(
    heap: Global,
    module: &mut Module<S>,
    line: &Line,
) -> Result<Option<Reply>, AllocError> {
    let line = slice::from_ref(line);
    let data_in = data_in_for(heap, line)?;
    let calls = calls_of(heap, line, &data_in)?;
    first_reply(heap, module, &calls)
}

// Answers a line, and keeps it with its reply; a line that is skipped has none.
fn serve_line<S: Pile>(
    rt: &HostRuntime,
    module: &mut Module<S>,
    line: Line,
    served: &mut Served,
) -> anyhow::Result<()> {
    if let Some(reply) = reply_to_line(rt.alloc(), module, &line)? {
        println!(rt; "{}", ReplyLine::of(&reply))?;
        served.lines.push(line)?;
        served.replies.push(reply)?;
    }
    Ok(())
}

// Answers line after line, until there are no more.
fn serve_lines<S: Pile>(rt: &HostRuntime, module: &mut Module<S>) -> anyhow::Result<Served> {
    let heap = rt.alloc();
    let mut input = BufReader::new(heap, rt.reader())?;
    let mut served = Served {
        lines: Vec::new(heap),
        replies: Vec::new(heap),
    };
    let mut text = Vec::new(heap);
    for number in 1..u64::MAX {
        text.clear();
        if input.read_until(b'\n', &mut text)? == 0 {
            break;
        }
        let line = text.strip_suffix(b"\n".as_slice()).unwrap_or(&text);
        match parse_line(heap, line) {
            Err(error) => println!(rt; "error line {number}: {error}")?,
            Ok(line) => serve_line(rt, module, line, &mut served)?,
        }
    }
    Ok(served)
}

pub fn serve_calls(rt: &HostRuntime, options: &Options) -> anyhow::Result<()> {
    let medium = new_medium(
        rt.alloc(),
        medium_kind(options),
        options.blocks,
        options.grant,
    )?;
    with_pile(rt.alloc(), medium, &options.caches, Serve { rt, options })?
}
