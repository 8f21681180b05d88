// A scene of the brake log, played without words on the command line: a flash card under a queue cache under a table
// cache, to a power cut in the middle of a WRITE.
use crate::playing::run_lines;
use outcomes::{Outcome, ReplyLine};
use recorder_options::{Asked, parse};
use script::{Line, parse_script};
use session::Reply;
use std::alloc::Global;
use std::io;
use std::io::{BufWriter, Write};

// The pile. With the last of the grant goes the first of the two blocks of the last brake action.
const PILE: &str = "card+queue+table --blocks 12 --pages 16 --grant 13";

const SCRIPT: &str =
    "# A service plug looks at the module: INQUIRY, TEST UNIT READY, READ CAPACITY, MODE SENSE.
command 2 120000002400
command 2 000000000000
command 2 25000000000000000000
command 2 1a000600ff00
# The brake task reserves the module.
command 0 000000000000
command 0 160000000000
# It writes encoder blocks 0 to 3, a brake action to blocks 10 and 11 with FUA, and encoder blocks 4 to 9.
command 0 2a000000000000000400 out 10x512+11x512+12x512+13x512
command 0 2a080000000a00000200 out a0x512+b0x512
command 0 2a000000000400000600 out 14x512+15x512+16x512+17x512+18x512+19x512
# The door task tries RELEASE, which is good without effect, and a WRITE over block 10.
command 1 000000000000
command 1 170000000000
command 1 2a000000000a00000100 out ddx512
# The brake task reads block 10, and has all that is held written to the card: SYNCHRONIZE CACHE.
command 0 28000000000a00000100
command 0 35000000000000000000
# Encoder blocks again, and a brake action with FUA: the power goes with the first of its two blocks.
command 0 2a000000000000000300 out 20x512+21x512+22x512
command 0 2a080000000a00000200 out a1x512+b1x512
command 0 28000000000a00000100
";

// so much of a reply is shown
const SHOWN: usize = 76;

// The reply, or the front of a long one.
fn print_reply<W: Write + Drop>(heap: Global, out: &mut W, reply: &Reply) -> anyhow::Result<()> {
    let told = format!(in heap; "{}", ReplyLine::of(reply))?;
    match told.as_str().get(..SHOWN) {
        Some(front) => writeln!(out, "  {front} ..")?,
        None => writeln!(out, "  {told}")?,
    }
    Ok(())
}

// The lines of the script, each call with its reply.
fn print_scene<W: Write + Drop>(
    heap: Global,
    out: &mut W,
    lines: &[Line],
    outcome: &Outcome,
) -> anyhow::Result<()> {
    let mut replies = outcome.replies.iter();
    for (text, line) in SCRIPT.lines().zip(lines) {
        writeln!(out, "{text}")?;
        if let Line::Skipped = line {
            continue;
        }
        if let Some(reply) = replies.next() {
            print_reply(heap, out, reply)?;
        }
    }
    write!(out, "{}", outcome.closing())?;
    Ok(())
}

fn pile_asked(heap: Global) -> anyhow::Result<Asked> {
    let mut words = Vec::new(heap);
    for word in PILE.split_whitespace() {
        words.push(String::from_str(heap, word)?)?;
    }
    Ok(parse(heap, &words)?)
}

pub fn play_scene(rt: &HostRuntime) -> anyhow::Result<()> {
    let heap = rt.alloc();
    let Asked::Run(options) = pile_asked(heap)? else {
        return Ok(());
    };
    let lines = parse_script(heap, SCRIPT.as_bytes())?;
    let outcome = run_lines(heap, &options, &lines)?;
    let mut out = BufWriter::new(heap, io::writer(rt))?;
    print_scene(heap, &mut out, &lines, &outcome)?;
    Ok(out.flush()?)
}
