// A good command line, the defaults, and the text of each error.
use super::checks::{fails, same};
use super::options::{asked, options};
use recorder_options::{Asked, CacheKind, Medium, Mode, Options};
use std::test::Fail;

// The numbers are blocks, pages and grant.
fn has(
    options: &Options,
    medium: Medium,
    caches: &[CacheKind],
    numbers: [u32; 3],
    mode: Mode,
) -> Result<(), Fail> {
    same(options.medium, medium)?;
    same(options.caches.as_slice(), caches)?;
    same([options.blocks, options.pages, options.grant], numbers)?;
    same(options.mode, mode)
}

#[test]
fn a_command_line_is_read(rt: HostRuntime) -> Result<(), Fail> {
    let line = "card+queue+table --serve --pages 30 --grant 4294967295 --blocks 16";
    let options = options(rt.alloc(), line)?;
    let caches = [CacheKind::Queue, CacheKind::Table];
    has(
        &options,
        Medium::Card,
        &caches,
        [16, 30, u32::MAX],
        Mode::Serve,
    )
}

#[test]
fn the_defaults(rt: HostRuntime) -> Result<(), Fail> {
    let options = options(rt.alloc(), "flat")?;
    has(&options, Medium::Flat, &[], [10, 12, 1_000_000], Mode::Play)?;
    let help = asked(rt.alloc(), "flat --blocks --help")?;
    same(matches!(help, Ok(Asked::Help)), true)
}

// Each line has a command line, and the text of its error.
const MALFORMED: &str = r#" => expected ORDER, as flat or card+queue+table, found no more words
--map flat => expected flat or card at the front of ORDER, found "--map"
card+tables => expected table or queue in ORDER, found "tables"
card+ => expected table or queue in ORDER, found ""
flat+ => expected table or queue in ORDER, found ""
flat+table+table+table+table => expected at most three caches in ORDER
flat card => expected --blocks, --pages, --grant, --map, --serve or --help, found "card"
flat --blocks => expected a decimal number from 1 to 16777216 after --blocks, found no more words
flat --blocks 0 => expected a decimal number from 1 to 16777216 after --blocks, found "0"
flat --blocks 16777217 => expected a decimal number from 1 to 16777216 after --blocks, found "16777217"
flat --grant -1 => expected a decimal number from 0 to 4294967295 after --grant, found "-1"
flat --grant 4294967296 => expected a decimal number from 0 to 4294967295 after --grant, found "4294967296"
card --pages 1 => expected a decimal number from 2 to 4294967295 after --pages, found "1"
card --pages 4294967296 => expected a decimal number from 2 to 4294967295 after --pages, found "4294967296"
flat --blocks 1 --blocks 1 => --blocks is given twice
card --pages 12 --pages 12 => --pages is given twice
flat --grant 1 --grant 1 => --grant is given twice
flat --map --map => --map is given twice
flat --serve --serve => --serve is given twice
flat --map --serve => --map and --serve are given, expected at most one of them
flat --serve --map => --map and --serve are given, expected at most one of them
flat --pages 20 => --pages is given with flat, expected it with card alone
card --pages 10 => expected at least 11 after --pages, found 10"#;

#[test]
fn errors_say_what_was_expected(rt: HostRuntime) -> Result<(), Fail> {
    for case in MALFORMED.lines() {
        let (line, text) = case.split_once(" => ").unwrap_or((case, ""));
        fails(rt.alloc(), asked(rt.alloc(), line)?, text)?;
    }
    Ok(())
}
