// Standard output and standard error as sinks.
ghost use Rattle.std.specs.Prelude.{◌≡◌, ◌≤◌, if◌then◌else◌, None};
ghost use Rattle.fed_outside.specs.Plan.{raised};

use crate::Sink;
use std::io::Write;
use std::marker::Model;

/// A sink over one of std's writers, as `StdSink::new(rt.stdout())`. It tells nothing of what went out.
#[derive(Drop)]
pub struct StdSink<W: Write + Drop> {
    writer: W,
    faults: u64,
}

// A contract sees the count alone.
impl<W: Write + Drop> Model for StdSink<W> {
    ghost use Rattle.std.specs.Prelude.{ℕ, ◌<◌, ◌^◌};

    ghost Value = { ℕ };

    ghost view = { λ s. s.faults };

    ghost invariant = { λ s. s.faults < 2 ^ 64 };
}

impl<W: Write + Drop> StdSink<W> {
    /// A sink over that writer, with no fault yet.
    pub fn new(writer: W) -> Self
        ensures { result ≡ 0 }
    {
        StdSink { writer, faults: 0 }
    }

    /// How many calls failed.
    pub fn faults(&self) -> u64
        ensures { result ≡ self.now }
    {
        self.faults
    }
}

impl<W: Write + Drop> Sink for StdSink<W> {
    ghost faults = { λ faults. faults };

    ghost told = { λ _. None };

    ghost puts = { λ _. None };

    fn put(&mut self, piece: &[u8]) -> bool
        ensures count { self.new ≡ (if result then self.old else raised self.old) }

        ensures later { self.old ≤ self.new }
    {
        // `write_all` fails where the writer takes nothing of octets that are left.
        if self.writer.write_all(piece).is_ok() && self.writer.flush().is_ok() {
            return true;
        }
        self.faults = self.faults.saturating_add(1);
        false
    }
}
