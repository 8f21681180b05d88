// The script on standard input.
use script::{Line, parse_script};
use std::io::Read;

// All of it, and what its lines ask for.
pub fn lines(rt: &HostRuntime) -> anyhow::Result<Vec<Line>> {
    let mut text = Vec::new(rt.alloc());
    rt.reader().read_to_end(&mut text)?;
    Ok(parse_script(rt.alloc(), &text)?)
}
