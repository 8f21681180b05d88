// The bytes that a word stands for.
ghost use Rattle.std.specs.Prelude.{◌≡◌, IfOk};
ghost use Rattle.std.specs.Option.{option_map};
ghost use Rattle.script.specs.Data.{part, repeated, data_bytes};

use crate::digits::{hex_byte, hex_bytes, number_between};
use crate::parts::first_part;
use std::alloc::{AllocError, Global};

// 65535 blocks of 512 bytes
pub const MOST_BYTES: u32 = 33_553_920;

// A byte in two hex digits, so many times.
fn repeated(heap: Global, high: u8, low: u8, count: &[u8]) -> Result<Option<Vec<u8>>, AllocError>
    ensures { IfOk result (λ found. option_map (λ v. v.items) found ≡ repeated high low count.now) }
{
    let Some(byte) = hex_byte(high, low) else {
        return Ok(None);
    };
    let Some(count) = number_between(count, 0, MOST_BYTES) else {
        return Ok(None);
    };
    Ok(Some(vec![in heap; byte; count as usize]?))
}

fn part(heap: Global, text: &[u8]) -> Result<Option<Vec<u8>>, AllocError>
    ensures { IfOk result (λ found. option_map (λ v. v.items) found ≡ part text.now) }
{
    match text {
        [] => Ok(None),
        [high, low, b'x', count @ ..] => repeated(heap, *high, *low, count),
        _ => hex_bytes(heap, text),
    }
}

// The bytes of a word's parts, one after another; none if a part is malformed or there are too many bytes.
pub fn data_bytes(heap: Global, word: &[u8]) -> Result<Option<Vec<u8>>, AllocError>
    ensures { IfOk result (λ found. option_map (λ v. v.items) found ≡ data_bytes word.now) }
{
    let mut data = Vec::new(heap);
    let mut rest = Some(word);
    while let Some(text) = rest {
        let (first, others) = first_part(text, b'+');
        let Some(bytes) = part(heap, first)? else {
            return Ok(None);
        };
        if bytes.len() > MOST_BYTES as usize - data.len() {
            return Ok(None);
        }
        data.extend_from_slice(&bytes)?;
        rest = others;
    }
    Ok(Some(data))
}
