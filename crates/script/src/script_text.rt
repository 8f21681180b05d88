// A whole script.
ghost use Rattle.script.specs.Script.{script, Tells};
ghost use Rattle.std.specs.Result.{result_map_both};

use crate::error::LineError;
use crate::line::{Line, parse_line};
use crate::parts::first_part;
use std::alloc::{AllocError, Global};
use thiserror::Error;

// A malformed line, numbered from 1, or no memory for it.
#[derive(Debug, Drop, Error)]
#[error("line {line}: {error}")]
pub struct ScriptError {
    pub line: usize,
    pub error: LineError,
}

// The lines of a script, skipped ones too. Each ends with a line feed, but the last need not.
pub fn parse_script(heap: Global, text: &[u8]) -> Result<Vec<Line>, ScriptError>
    ensures { Tells (result_map_both (λ v. v.items) (λ e. e) result) (script text.now) }
{
    let mut lines = Vec::new(heap);
    let mut rest = Some(text);
    while let Some(left) = rest {
        let (first, others) = first_part(left, b'\n');
        let number = lines.len() + 1;
        let line = parse_line(heap, first).map_err(|error| ScriptError {
            line: number,
            error,
        })?;
        lines.push(line).map_err(|_| ScriptError {
            line: number,
            error: LineError::Memory(AllocError),
        })?;
        rest = others;
    }
    Ok(lines)
}
