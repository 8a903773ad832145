//! The command `run`.
ghost use Rattle.std.specs.Prelude.{◌≡◌, ◌≤◌, [], length, vec_len, false, All, None, IfOk, IfErr, Ok, string_bytes};
ghost use Rattle.fed_journal.specs.Events.{IsWritable};
ghost use Rattle.fed_schedule.specs.Schedule.{Reading, reading, reading_of};
ghost use Rattle.fed_outside.specs.Outside.{with_name};
ghost use Rattle.fedrun_cli.specs.Endings.{status_of, error_line, SinkView};
ghost use Rattle.fedrun_cli.specs.Completeness.{IsComplete};
ghost use Rattle.fedrun_cli.specs.Ends.{Outside, EndsRun};
ghost use Rattle.fedrun_cli.specs.Outcomes.{ShelfView, HasRead, LoadEnds, ReadEnds, Explains, IsWhole, output};

use crate::ending::{Ending, say, status_of};
use crate::report::report;
use fed_journal::page::Page;
use fed_outside::{Loaded, Shelf, Sink};
use fed_schedule::schedule::read;
use fed_schedule::script::{LineReason, ScheduleFault, Script};
use fed_world::kept::kept;
use std::alloc::Global;

/// The most octets of a schedule's file.
pub const MAX_FILE: usize = 67_108_864;

/// The most places of a run.
pub const MAX_PLACES: usize = 64;

/// A broker argument of the command line: a run name and the file of its definitions.
#[derive(Drop)]
pub struct BrokerArg {
    pub name: String,
    pub file: String,
}

/// Loads the schedule's file.
fn load<F: Shelf>(alloc: Global, schedule: &str, shelf: &mut F) -> Result<Vec<u8>, Ending>
    ensures within { IfOk result (λ bytes. length bytes.items ≤ 67108864) }
    ensures content { IfOk result (λ bytes. HasRead (F.files shelf.old) schedule.now (λ content. content ≡ bytes.items)) }
    ensures ending { IfErr result (LoadEnds (F.files shelf.old) schedule.now (F.faults shelf.old) (F.faults shelf.new)) }
    ensures asked { F.asked shelf.new ≡ with_name (F.asked shelf.old) schedule.now }
    ensures files { F.files shelf.new ≡ F.files shelf.old }
{
    match shelf.load(alloc, schedule, MAX_FILE) {
        Loaded::Bytes(bytes) => Ok(bytes),
        Loaded::Absent => Err(Ending::Absent),
        Loaded::TooLong => Err(Ending::FileTooLong),
        Loaded::Failed => Err(Ending::ReadFault),
        Loaded::Memory => Err(Ending::Memory),
    }
}

/// The script that the octets spell.
fn script_of(alloc: Global, bytes: &[u8]) -> Result<Script, Ending>
    requires { length bytes.now ≤ 67108864 }
    ensures script { IfOk result (λ script. reading bytes.now ≡ Ok (reading_of script)) }
    ensures writable { IfOk result (λ script. All (λ e. IsWritable e.1) script.events.items) }
    ensures ending { IfErr result (ReadEnds bytes.now) }
{
    match read(alloc, bytes) {
        Ok(script) => Ok(script),
        Err(
            ScheduleFault::Line {
                line,
                reason: LineReason::Events,
            },
        ) => Err(Ending::Events { line }),
        Err(ScheduleFault::Line { line, reason }) => Err(Ending::Line { line, reason }),
        Err(ScheduleFault::Memory) => Err(Ending::Memory),
    }
}

/// The output of the run that the octets spell.
fn output_of(alloc: Global, bytes: &[u8]) -> Result<Page, Ending>
    requires { length bytes.now ≤ 67108864 }
    ensures output { IfOk result (λ page. (r : Reading) × (reading bytes.now ≡ Ok r) × (page ≡ output r) × IsWhole r) }
    ensures ending { IfErr result (ReadEnds bytes.now) }
{
    let script = script_of(alloc, bytes)?;
    if script.brokers.len() > MAX_PLACES {
        return Err(Ending::Places);
    }
    kept();
    match report(alloc, script.brokers.as_slice(), script.events.as_slice()) {
        Ok(page) => Ok(page),
        Err(ending) => Err(ending),
    }
}

/// Runs the schedule and puts the output. Nothing is put unless the output is whole.
fn run_schedule<F: Shelf, O: Sink>(
    alloc: Global,
    schedule: &str,
    shelf: &mut F,
    out: &mut O,
) -> Ending
    ensures explained { Explains schedule.now
        (record { files = F.files shelf.old; asked = F.asked shelf.old; faults = F.faults shelf.old })
        (record { files = F.files shelf.new; asked = F.asked shelf.new; faults = F.faults shelf.new })
        (record { told = O.told out.old; puts = O.puts out.old; faults = O.faults out.old })
        (record { told = O.told out.new; puts = O.puts out.new; faults = O.faults out.new })
        result }
    ensures asked { F.asked shelf.new ≡ with_name (F.asked shelf.old) schedule.now }
    ensures files { F.files shelf.new ≡ F.files shelf.old }
{
    let bytes = match load(alloc, schedule, shelf) {
        Ok(bytes) => bytes,
        Err(ending) => return ending,
    };
    let page = match output_of(alloc, bytes.as_slice()) {
        Ok(page) => page,
        Err(ending) => return ending,
    };
    if out.put(page.as_str().as_bytes()) {
        Ending::Done
    } else {
        Ending::WriteFault
    }
}

/// Runs the schedule, puts the output or the line of the ending, and answers the exit status.
fn run_to_end<F: Shelf, O: Sink, E: Sink>(
    alloc: Global,
    schedule: &str,
    shelf: &mut F,
    out: &mut O,
    err: &mut E,
) -> u8
    ensures { EndsRun schedule.now
        (record {
          shelf = record { files = F.files shelf.old; asked = F.asked shelf.old; faults = F.faults shelf.old };
          out = record { told = O.told out.old; puts = O.puts out.old; faults = O.faults out.old };
          err = record { told = E.told err.old; puts = E.puts err.old; faults = E.faults err.old };
        })
        (record {
          shelf = record { files = F.files shelf.new; asked = F.asked shelf.new; faults = F.faults shelf.new };
          out = record { told = O.told out.new; puts = O.puts out.new; faults = O.faults out.new };
          err = record { told = E.told err.new; puts = E.puts err.new; faults = E.faults err.new };
        })
        result }
{
    let ending = run_schedule(alloc, schedule, shelf, out);
    let ending = say(alloc, ending, schedule, err);
    status_of(ending)
}

/// Runs a schedule: loads and reads the file, replays it, and prints the report. Answers the exit status, and puts the line of
/// any status but 0 into `err`. In this version the run has no broker arguments, and no output but the report.
pub fn run_command<F: Shelf, O: Sink, E: Sink>(
    alloc: Global,
    schedule: &str,
    brokers: &[BrokerArg],
    journal: bool,
    wire: bool,
    shelf: &mut F,
    out: &mut O,
    err: &mut E,
) -> u8
    requires bare { length brokers.now ≡ 0 }
    requires no_journal { journal ≡ false }
    requires no_wire { wire ≡ false }
    ensures ends { EndsRun schedule.now
        (record {
          shelf = record { files = F.files shelf.old; asked = F.asked shelf.old; faults = F.faults shelf.old };
          out = record { told = O.told out.old; puts = O.puts out.old; faults = O.faults out.old };
          err = record { told = E.told err.old; puts = E.puts err.old; faults = E.faults err.old };
        })
        (record {
          shelf = record { files = F.files shelf.new; asked = F.asked shelf.new; faults = F.faults shelf.new };
          out = record { told = O.told out.new; puts = O.puts out.new; faults = O.faults out.new };
          err = record { told = E.told err.new; puts = E.puts err.new; faults = E.faults err.new };
        })
        result }
    ensures complete { IsComplete schedule.now
        (record {
          shelf = record { files = F.files shelf.old; asked = F.asked shelf.old; faults = F.faults shelf.old };
          out = record { told = O.told out.old; puts = O.puts out.old; faults = O.faults out.old };
          err = record { told = E.told err.old; puts = E.puts err.old; faults = E.faults err.old };
        })
        (record {
          shelf = record { files = F.files shelf.new; asked = F.asked shelf.new; faults = F.faults shelf.new };
          out = record { told = O.told out.new; puts = O.puts out.new; faults = O.faults out.new };
          err = record { told = E.told err.new; puts = E.puts err.new; faults = E.faults err.new };
        })
        result }
{
    run_to_end(alloc, schedule, shelf, out, err)
}
