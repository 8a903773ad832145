//! The words of the command line, read by hand since the order of options is fixed.
ghost use Rattle.std.specs.Prelude.{◌≡◌, map, string_bytes, codes};
ghost use Rattle.std.specs.Option.{option_copied};
ghost use Rattle.std.specs.List.{list_any};
ghost use Rattle.fedrun_cli.specs.Completeness.{AskedIsComplete};
ghost use Rattle.fedrun_cli.specs.Ends.{Outside, EndsAsked};
ghost use Rattle.fedrun_cli.specs.Endings.{SinkView, PutOnce};
ghost use Rattle.fedrun_cli.specs.Outcomes.{ShelfView};
ghost use Rattle.fedrun_cli.specs.Words.{schedule_asked, is_schedule_word, begins_with_dash, is_equals_sign};

use crate::command::run_command;
use fed_outside::{Door, Shelf, Sink};
use std::alloc::Global;

/// Whether the word begins with `-`.
fn begins_with_dash(word: &str) -> bool
    ensures { result ≡ begins_with_dash word.now }
{
    match word.as_bytes().first() {
        Some(byte) => *byte == b'-',
        None => false,
    }
}

fn has_equals_sign(word: &str) -> bool
    ensures { result ≡ list_any is_equals_sign word.now }
{
    word.as_bytes().iter().any(|byte| *byte == b'=')
}

/// Whether the word can be a schedule's file: not empty, no option, and without `=`.
fn is_schedule_word(word: &str) -> bool
    ensures { result ≡ is_schedule_word word.now }
{
    !word.is_empty() && !begins_with_dash(word) && !has_equals_sign(word)
}

/// The schedule that the words ask to run, if they are those of `run`.
fn schedule_asked(words: &[String]) -> Option<&str>
    ensures { option_copied result ≡ schedule_asked (map string_bytes words.now) }
{
    match words {
        [command, schedule] if command.as_str() == "run" && is_schedule_word(schedule.as_str()) => {
            Some(schedule.as_str())
        }
        _ => None,
    }
}

/// Puts the line of words that ask for no command, and answers its status. It takes no memory.
fn end_usage<E: Sink>(err: &mut E) -> u8
    ensures status { result ≡ 2 }
    ensures said { PutOnce
        (record { told = E.told err.old; puts = E.puts err.old; faults = E.faults err.old })
        (record { told = E.told err.new; puts = E.puts err.new; faults = E.faults err.new })
        (codes "fedrun: usage\n") }
{
    let _is_out = err.put(b"fedrun: usage\n");
    2
}

/// Does what the words after the program's name ask for, and answers the exit status. Words that are none of a command are
/// usage, status 2. The door is for commands that serve connections; none of this version opens it.
pub fn fedrun<F: Shelf, O: Sink, E: Sink, D: Door>(
    alloc: Global,
    words: &[String],
    shelf: &mut F,
    out: &mut O,
    err: &mut E,
    door: &mut D,
) -> u8
    ensures ends { EndsAsked (schedule_asked (map string_bytes words.now))
        (record {
          shelf = record { files = F.files shelf.old; asked = F.asked shelf.old; faults = F.faults shelf.old };
          out = record { told = O.told out.old; puts = O.puts out.old; faults = O.faults out.old };
          err = record { told = E.told err.old; puts = E.puts err.old; faults = E.faults err.old };
        })
        (record {
          shelf = record { files = F.files shelf.new; asked = F.asked shelf.new; faults = F.faults shelf.new };
          out = record { told = O.told out.new; puts = O.puts out.new; faults = O.faults out.new };
          err = record { told = E.told err.new; puts = E.puts err.new; faults = E.faults err.new };
        })
        result }
    ensures complete { AskedIsComplete (schedule_asked (map string_bytes words.now))
        (record {
          shelf = record { files = F.files shelf.old; asked = F.asked shelf.old; faults = F.faults shelf.old };
          out = record { told = O.told out.old; puts = O.puts out.old; faults = O.faults out.old };
          err = record { told = E.told err.old; puts = E.puts err.old; faults = E.faults err.old };
        })
        (record {
          shelf = record { files = F.files shelf.new; asked = F.asked shelf.new; faults = F.faults shelf.new };
          out = record { told = O.told out.new; puts = O.puts out.new; faults = O.faults out.new };
          err = record { told = E.told err.new; puts = E.puts err.new; faults = E.faults err.new };
        })
        result }
    ensures door { door.new ≡ door.old }
{
    match schedule_asked(words) {
        Some(schedule) => run_command(alloc, schedule, &[], false, false, shelf, out, err),
        None => end_usage(err),
    }
}
