//! Worked cases of the program `fedrun`. Each is done over files and outputs in memory, and what it put is printed, so that
//! the expected text of all cases is this program's expected output.
#![tactic(auto)]

mod case;
mod trial;

use case::Case;
use std::fs;

fn main(rt: HostRuntime) -> anyhow::Result<()> {
    let text = fs::read_to_string(&rt, "cases")?;
    for line in text.as_str().split('\n') {
        if !line.is_empty() && !line.starts_with('#') {
            trial::run(&rt, &Case::read(line)?)?;
        }
    }
    Ok(())
}
