//! Cases of the reader of schedules: each schedule is read, and what it says is printed, so that the expected text of all
//! cases is this program's expected output.
#![tactic(auto)]

mod print;

use fed_schedule::schedule::read;
use fed_schedule::script::{MAX_SCHEDULE, Script};
use std::alloc::{AllocError, Global};
use std::fs;

/// The octets of a case's schedule, in which `\` ends a line.
fn schedule_of(alloc: Global, text: &str) -> Result<Vec<u8>, AllocError> {
    let mut octets = Vec::new(alloc);
    for octet in text.as_bytes() {
        octets.push(if *octet == b'\\' { b'\n' } else { *octet })?;
    }
    Ok(octets)
}

fn print_script(rt: &(impl Print + AllocGlobal), script: &Script) -> anyhow::Result<()> {
    for broker in script.brokers.iter() {
        println!(rt; "broker {}", broker.as_str())?;
    }
    for (line, event) in script.events.iter() {
        print!(rt; "{line} ")?;
        print::event(rt, event)?;
    }
    Ok(())
}

/// Reads a schedule and prints what it says, or why it is refused.
fn print_case(rt: &(impl Print + AllocGlobal), text: &str) -> anyhow::Result<()> {
    let schedule = schedule_of(rt.alloc(), text)?;
    if schedule.len() > MAX_SCHEDULE {
        return Ok(());
    }
    match read(rt.alloc(), schedule.as_slice()) {
        Ok(script) => print_script(rt, &script),
        Err(fault) => Ok(println!(rt; "refused: {fault}")?),
    }
}

fn main(rt: HostRuntime) -> anyhow::Result<()> {
    let text = fs::read_to_string(&rt, "cases")?;
    for line in text.as_str().split('\n') {
        if line.is_empty() || line.starts_with('#') {
            continue;
        }
        println!(rt; "case {line}")?;
        print_case(&rt, line)?;
    }
    Ok(())
}
