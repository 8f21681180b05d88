// A good script, and the text of each error.
use super::checks::{fails, same, same_at};
use script::{Line, parse_line, parse_script};
use std::alloc::Global;
use std::test::Fail;

// The line is this command.
fn is_command(
    line: &Line,
    host: u32,
    cdb: &[u8],
    data_out: &[u8],
    data_in: u32,
) -> Result<(), Fail> {
    let Line::Command(command) = line else {
        return Err("a command is expected".into());
    };
    same(command.host, host)?;
    same(command.cdb.as_slice(), cdb)?;
    same(command.data_out.as_slice(), data_out)?;
    same(command.data_in, data_in)
}

#[test]
fn a_script_is_read(rt: HostRuntime) -> Result<(), Fail> {
    let text =
        b"# a comment\n\n  \t\nreset\ncommand 7 0A2b\tout 01020304+ffx3 in 12 \ncommand 4294967295 -";
    let lines = parse_script(rt.alloc(), text)?;
    let [
        Line::Skipped,
        Line::Skipped,
        Line::Skipped,
        Line::Reset,
        first,
        second,
    ] = lines.as_slice()
    else {
        return Err("three lines skipped, a reset and two more are expected".into());
    };
    is_command(first, 7, &[0x0a, 0x2b], &[1, 2, 3, 4, 0xff, 0xff, 0xff], 12)?;
    is_command(second, u32::MAX, &[], &[], 65_536)
}

// Each line has a line of a script, and the text of its error.
const MALFORMED: &str = r##"resets => expected reset or command, found "resets"
 # x => expected reset or command, found "#"
reset 1 => expected the end of the line, found "1"
command => expected a decimal number from 0 to 4294967295 as HOST, found the end of the line
command x1 => expected a decimal number from 0 to 4294967295 as HOST, found "x1"
command 4294967296 - => expected a decimal number from 0 to 4294967295 as HOST, found "4294967296"
command x 123 => expected a decimal number from 0 to 4294967295 as HOST, found "x"
command 0 => expected hex digits, two for each byte, or - as CDB, found the end of the line
command 0 123 => expected hex digits, two for each byte, or - as CDB, found "123"
command 0 - out => expected hex digits, two for each byte, or BYTExCOUNT, joined by +, at most 33553920 bytes in all, as DATA, found the end of the line
command 0 - out 00x33553921 => expected hex digits, two for each byte, or BYTExCOUNT, joined by +, at most 33553920 bytes in all, as DATA, found "00x33553921"
command 0 - in => expected a decimal number from 0 to 33553920 as N, found the end of the line
command 0 - in 33553921 => expected a decimal number from 0 to 33553920 as N, found "33553921"
command 0 - in 1 out 00 => expected out DATA, then in N, or the end of the line, found "out""##;

#[test]
fn errors_say_what_was_expected(rt: HostRuntime) -> Result<(), Fail> {
    for case in MALFORMED.lines() {
        let (line, text) = case.split_once(" => ").unwrap_or((case, ""));
        fails(rt.alloc(), parse_line(rt.alloc(), line.as_bytes()), text)?;
    }
    fails(
        rt.alloc(),
        parse_line(rt.alloc(), b"reset\r"),
        r#"expected reset or command, found "reset\r""#,
    )
}

// A byte that is not UTF-8 is told as U+FFFD.
#[test]
fn a_word_that_is_no_text_is_told(rt: HostRuntime) -> Result<(), Fail> {
    fails(
        rt.alloc(),
        parse_line(rt.alloc(), b"res\xffet"),
        "expected reset or command, found \"res\u{fffd}et\"",
    )
}

// Each of the lines is good, or none of them.
fn are_good(heap: Global, lines: &str, good: bool) -> Result<(), Fail> {
    for line in lines.lines() {
        same_at(line, parse_line(heap, line.as_bytes()).is_ok(), good)?;
    }
    Ok(())
}

const GOOD: &str = "command 0 - out 00x33553920
command 0 - out 00x33553919+ab
command 0 - in 33553920
command 0 - out 00x0";

const BAD: &str = "command 0 - out 00x33553919+abcd
command 0 - out 00x
command 0 - out 00+
command 0 - out 0x10
command 0 - out +1x1
command +1 -";

#[test]
fn the_most_data_is_read(rt: HostRuntime) -> Result<(), Fail> {
    are_good(rt.alloc(), GOOD, true)?;
    are_good(rt.alloc(), BAD, false)
}

#[test]
fn the_malformed_line_is_named(rt: HostRuntime) -> Result<(), Fail> {
    fails(
        rt.alloc(),
        parse_script(rt.alloc(), b"reset\n\nrest\nrest"),
        r#"line 3: expected reset or command, found "rest""#,
    )
}
