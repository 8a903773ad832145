//! Worked cases of what a broker keeps and answers: each call is made as a line of `data/` says it, and what it answered is
//! printed behind the line, so that the expected text of all cases is this program's expected output.
#![tactic(auto)]

mod channels;
mod confirms;
mod ledgers;
mod line;
mod queues;
mod routes;

use std::fs;

fn main(rt: HostRuntime) -> anyhow::Result<()> {
    queues::run(&rt, fs::read_to_string(&rt, "queues")?.as_str())?;
    ledgers::run(&rt, fs::read_to_string(&rt, "ledgers")?.as_str())?;
    channels::run(&rt, fs::read_to_string(&rt, "channels")?.as_str())?;
    routes::run(&rt, fs::read_to_string(&rt, "routes")?.as_str())?;
    confirms::run(&rt, fs::read_to_string(&rt, "confirms")?.as_str())
}
