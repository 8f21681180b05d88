// The map of power cuts: what is found on the medium after each number of block stores.
use crate::input;
use crate::playing::run_calls;
use outcomes::{FoundBlock, Outcome};
use pile_runs::{calls_of, data_in_for};
use recorder_options::Options;
use session::Call;
use std::alloc::Global;
use std::io::{BufWriter, Write};
use std::{fmt, io};

// so many columns stand side by side
const COLUMNS: u32 = 40;

// A column: a grant, and the number found at each of the blocks once it is used up.
#[derive(Drop)]
struct Cut {
    grant: u32,
    numbers: Vec<usize>,
}

// The number found at the block.
fn number_at(found: &[FoundBlock], block: u32) -> usize {
    match found.iter().find(|found| found.block == block) {
        Some(found) => found.numbers.found,
        None => 0,
    }
}

impl Cut {
    fn at(
        heap: Global,
        options: &Options,
        calls: &[Call<'_>],
        written: &[FoundBlock],
        grant: u32,
    ) -> anyhow::Result<Cut> {
        let found = run_calls(heap, options, grant, calls)?.blocks;
        let mut numbers = Vec::new(heap);
        for block in written {
            numbers.push(number_at(&found, block.block))?;
        }
        Ok(Cut { grant, numbers })
    }
}

// A number, with blanks in front up to the width.
#[derive(Clone, Copy)]
struct Cell {
    number: usize,
    width: u32,
}

fn digits(number: usize) -> u32 {
    match number.checked_ilog10() {
        Some(log) => log + 1,
        None => 1,
    }
}

impl fmt::Display for Cell {
    fn fmt<W: fmt::Write>(&self, f: &mut fmt::Formatter<W>) -> fmt::Result {
        let Cell { number, width } = *self;
        for _ in digits(number)..width {
            f.write_str(" ")?;
        }
        write!(f, "{number}")
    }
}

fn print_cell<W: Write + Drop>(out: &mut W, width: u32, number: usize) -> io::Result<()> {
    write!(out, " {}", Cell { number, width })
}

fn print_grants<W: Write + Drop>(out: &mut W, width: u32, cuts: &[Cut]) -> io::Result<()> {
    write!(out, "\ngrant         ")?;
    for cut in cuts {
        print_cell(out, width, cut.grant as usize)?;
    }
    writeln!(out)
}

// The row of a block.
fn print_row<W: Write + Drop>(
    out: &mut W,
    width: u32,
    block: u32,
    row: usize,
    cuts: &[Cut],
) -> io::Result<()> {
    write!(out, "block {block:>8}")?;
    for cut in cuts {
        print_cell(out, width, cut.numbers.get(row).copied().unwrap_or(0))?;
    }
    writeln!(out)
}

// The columns side by side: a row of grants, and a row for each block.
fn print_columns<W: Write + Drop>(
    out: &mut W,
    width: u32,
    written: &[FoundBlock],
    cuts: &[Cut],
) -> io::Result<()> {
    print_grants(out, width, cuts)?;
    for (row, block) in written.iter().enumerate() {
        print_row(out, width, block.block, row, cuts)?;
    }
    Ok(())
}

// Wide enough for each number of the map.
fn width_of(stores: u32, written: &[FoundBlock]) -> u32 {
    let mut most = stores as usize;
    for block in written {
        most = most.max(block.numbers.latest);
    }
    digits(most)
}

// The map of what the calls leave, whose whole run is known: the columns of every grant up to its block stores.
fn print_map<W: Write + Drop>(
    heap: Global,
    out: &mut W,
    options: &Options,
    calls: &[Call<'_>],
    whole: &Outcome,
) -> anyhow::Result<()> {
    let mut cuts = Vec::new(heap);
    let stores = whole.totals.stores;
    let width = width_of(stores, &whole.blocks);
    for grant in 1..=stores {
        cuts.push(Cut::at(heap, options, calls, &whole.blocks, grant)?)?;
        if cuts.len() == COLUMNS as usize || grant == stores {
            print_columns(out, width, &whole.blocks, &cuts)?;
            cuts.clear();
        }
    }
    Ok(())
}

pub fn play_and_map(rt: &HostRuntime, options: &Options) -> anyhow::Result<()> {
    let heap = rt.alloc();
    let lines = input::lines(rt)?;
    let data_in = data_in_for(heap, &lines)?;
    let calls = calls_of(heap, &lines, &data_in)?;
    let whole = run_calls(heap, options, options.grant, &calls)?;
    let mut out = BufWriter::new(heap, io::writer(rt))?;
    write!(out, "{whole}")?;
    print_map(heap, &mut out, options, &calls, &whole)?;
    Ok(out.flush()?)
}
