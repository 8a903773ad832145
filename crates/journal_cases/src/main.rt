//! Worked cases of runs: the lines of schedules are done one by one through the world, and what the brokers and the journal
//! answer afterwards is printed, so that the expected text of all cases is this program's expected output.
#![tactic(auto)]

mod ask;
mod client;
mod line;
mod link;
mod pages;
mod runs;

use std::fs;

fn main(rt: HostRuntime) -> anyhow::Result<()> {
    pages::print(&rt, fs::read_to_string(&rt, "pages")?.as_str())?;
    runs::print(&rt, fs::read_to_string(&rt, "runs")?.as_str())
}
