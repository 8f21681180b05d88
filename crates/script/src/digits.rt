// Numbers in decimal digits, and bytes in hex digits.
ghost use Rattle.std.specs.Prelude.{◌≡◌, ◌≤◌, IfOk, IfSome};
ghost use Rattle.std.specs.Option.{option_map};
ghost use Rattle.script.specs.Digits.{digit, hex_byte, hex_bytes, number_between};

use std::alloc::{AllocError, Global};

fn decimal_digit(character: u8) -> Option<u32>
    ensures { result ≡ digit 10 character }
{
    char::from(character).to_digit(10)
}

// A decimal number: digits alone, no sign.
pub fn number(word: &[u8]) -> Option<u32>
    ensures { result ≡ number_between 0 4294967295 word.now }
{
    if word.is_empty() {
        return None;
    }
    let mut value: u32 = 0;
    let mut rest = word;
    while let [first, others @ ..] = rest {
        let digit = decimal_digit(*first)?;
        value = value.checked_mul(10)?.checked_add(digit)?;
        rest = others;
    }
    Some(value)
}

// A decimal number from least to most.
pub fn number_between(word: &[u8], least: u32, most: u32) -> Option<u32>
    ensures value { result ≡ number_between least most word.now }
    ensures bounds { IfSome result (λ n. (least ≤ n) × (n ≤ most)) }
{
    let value = number(word)?;
    (least <= value && value <= most).then_some(value)
}

pub fn hex_digit(character: u8) -> Option<u8>
    ensures { result ≡ digit 16 character }
{
    let value = char::from(character).to_digit(16)?;
    Some(value as u8)
}

// The byte of two hex digits, the high one first.
pub fn hex_byte(high: u8, low: u8) -> Option<u8>
    ensures { result ≡ hex_byte high low }
{
    let high = hex_digit(high)?;
    let low = hex_digit(low)?;
    Some(16 * high + low)
}

// The bytes of hex digits, two for each; none for anything else.
pub fn hex_bytes(heap: Global, digits: &[u8]) -> Result<Option<Vec<u8>>, AllocError>
    ensures { IfOk result (λ found. option_map (λ v. v.items) found ≡ hex_bytes digits.now) }
{
    let mut bytes = Vec::with_capacity(heap, digits.len() / 2)?;
    let mut rest = digits;
    while let [high, low, others @ ..] = rest {
        let Some(byte) = hex_byte(*high, *low) else {
            return Ok(None);
        };
        bytes.push(byte)?;
        rest = others;
    }
    Ok(rest.is_empty().then_some(bytes))
}
