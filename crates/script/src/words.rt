// The words of a line, set apart by spaces and tabs.
ghost use Rattle.std.specs.Prelude.{◌≡◌, ◌≤◌, length};
ghost use Rattle.std.specs.Option.{option_map};
ghost use Rattle.std.specs.List.{position, position_or_len};
ghost use Rattle.script.specs.Words.{is_blank, unindented, next_word};

fn is_blank(byte: u8) -> bool
    ensures { result ≡ is_blank byte }
{
    byte == b' ' || byte == b'\t'
}

fn unindented(line: &[u8]) -> &[u8]
    ensures { result.now ≡ unindented line.now }
{
    let mut rest = line;
    while let [first, others @ ..] = rest
        && is_blank(*first)
    {
        rest = others;
    }
    rest
}

fn first_blank(line: &[u8]) -> Option<usize>
    ensures { result ≡ position is_blank line.now }
{
    line.iter().position(|byte| is_blank(*byte))
}

// Where the first blank stands, or the end.
fn word_end(line: &[u8]) -> usize
    ensures value { result ≡ position_or_len is_blank line.now }
    ensures bound { result ≤ length line.now }
{
    first_blank(line).unwrap_or(line.len())
}

// The first word, and what follows it; none at the end of the line.
pub fn next_word(line: &[u8]) -> Option<(&[u8], &[u8])>
    ensures { option_map (λ found. (found.0.now, found.1.now)) result ≡ next_word line.now }
{
    let line = unindented(line);
    if line.is_empty() {
        return None;
    }
    Some(line.split_at(word_end(line)))
}
