// The calls that the lines of a script ask for.
ghost use Rattle.std.specs.Prelude.{◌≡◌, IfOk, map, replicate};
ghost use Rattle.session.specs.Sessions.{call_of};
ghost use Rattle.pile_runs.specs.Scripts.{calls_of, data_in_of, most_data_in};

use script::Line;
use session::Call;
use std::alloc::{AllocError, Global};

// the byte that data-in has before each command
pub const FILL: u8 = 0xee;

// How many bytes of data-in a line asks for.
fn data_in_of(line: &Line) -> u32
    ensures { result ≡ data_in_of line.now }
{
    match line {
        Line::Command(command) => command.data_in,
        Line::Skipped | Line::Reset => 0,
    }
}

// Data-in for the longest of the commands.
pub fn data_in_for(heap: Global, lines: &[Line]) -> Result<Vec<u8>, AllocError>
    ensures { IfOk result (λ data_in. data_in.items ≡ replicate (most_data_in lines.now) 0xee) }
{
    let mut most = 0;
    for line in lines {
        most = most.max(data_in_of(line));
    }
    vec![in heap; FILL; most as usize]
}

// The calls in order; each command has so much of data-in as its line says.
pub fn calls_of<'a>(
    heap: Global,
    lines: &'a [Line],
    data_in: &'a [u8],
) -> Result<Vec<Call<'a>>, AllocError>
    ensures { IfOk result (λ calls. map call_of calls.items ≡ calls_of data_in.now lines.now) }
{
    let mut calls = Vec::new(heap);
    for line in lines {
        match line {
            Line::Skipped => {}
            Line::Reset => calls.push(Call::Reset)?,
            Line::Command(command) => calls.push(Call::Command {
                host: command.host,
                cdb: &command.cdb,
                data_out: &command.data_out,
                data_in: data_in.get(..command.data_in as usize).unwrap_or(data_in),
            })?,
        }
    }
    Ok(calls)
}
