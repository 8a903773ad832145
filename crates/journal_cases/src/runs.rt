//! Cases of runs: a schedule, and behind it what is asked of the brokers and of the journal.
ghost use Rattle.fed_schedule.specs.Schedule.{AreWritable};

use crate::ask;
use anyhow::{Result, bail};
use fed_journal::reason::Reason;
use fed_schedule::schedule::read;
use fed_schedule::script::{MAX_SCHEDULE, Script};
use fed_world::reason::Outcome;
use fed_world::world::World;
use std::alloc::{AllocError, Global};

/// The lines of the case that are no questions, as a schedule's octets.
fn schedule_of(alloc: Global, case: &str) -> Result<Vec<u8>, AllocError> {
    let mut octets = Vec::new(alloc);
    for line in case.split('\n') {
        if !line.starts_with('?') {
            octets.extend_from_slice(line.as_bytes())?;
            octets.push(b'\n')?;
        }
    }
    Ok(octets)
}

/// The reason in words.
fn words_of(reason: Reason) -> &'static str {
    match reason {
        Reason::NoPlace => "no place",
        Reason::NoLink => "no link",
        Reason::NoBroker => "no broker",
        Reason::NameTooLong => "name too long",
        Reason::Live => "live",
        Reason::NoSource => "no source",
        Reason::NotOpen => "not open",
        Reason::Full => "full",
        Reason::Empty => "empty",
        Reason::Unsecured => "unsecured",
        Reason::NoConsumer => "no consumer",
        Reason::Busy => "busy",
        Reason::NotHeld => "not held",
        Reason::Refused(_) => "refused",
    }
}

fn print_outcome(rt: &impl Print, line: u32, outcome: Outcome) -> Result<()> {
    match outcome {
        Outcome::Done(count) => println!(rt; "{line} done, {count} entries")?,
        Outcome::NotNow(Reason::Refused(code)) => println!(rt; "{line} refused {code}")?,
        Outcome::NotNow(reason) => println!(rt; "{line} not now: {}", words_of(reason))?,
    }
    Ok(())
}

/// Does the events of the script, and prints what became of each.
fn print_steps(rt: &impl Print, script: &Script, world: &mut World) -> Result<()>
    requires { AreWritable script.now.events.items }
{
    for (line, event) in script.events.iter() {
        let outcome = world.step(event)?;
        print_outcome(rt, *line, outcome)?;
    }
    Ok(())
}

fn print_case(rt: &(impl Print + AllocGlobal), case: &str) -> Result<()> {
    let alloc = rt.alloc();
    let schedule = schedule_of(alloc, case)?;
    if schedule.len() > MAX_SCHEDULE {
        bail!("a schedule is too long");
    }
    let script = read(alloc, schedule.as_slice())?;
    if script.brokers.len() > 64 {
        bail!("too many brokers");
    }
    let mut world = World::begin(alloc, script.brokers.as_slice())?;
    print_steps(rt, &script, &mut world)?;
    let numbers = world.journal().numbers();
    println!(rt;
        "next publication {} copy {}",
        numbers.publication, numbers.copy
    )?;
    for line in case.split('\n') {
        if line.starts_with('?') {
            ask::print(rt, &world, line)?;
        }
    }
    Ok(())
}

/// Prints what became of each case; an empty line stands between two of them.
pub fn print(rt: &(impl Print + AllocGlobal), cases: &str) -> Result<()> {
    for case in cases.split("\n\n") {
        print_case(rt, case)?;
    }
    Ok(())
}
