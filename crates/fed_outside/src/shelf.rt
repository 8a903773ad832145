// Where definitions and schedules are loaded from.
ghost use Rattle.std.specs.Prelude.{◌≡◌, ◌≤◌, ℕ, List, Option, length};

use std::alloc::Global;

/// What a load gives.
#[derive(Drop)]
pub enum Loaded {
    /// The whole file.
    Bytes(Vec<u8>),
    /// There is no file of that name.
    Absent,
    /// The file has more octets than were asked for.
    TooLong,
    /// The file could not be read.
    Failed,
    /// Memory was wanting.
    Memory,
}

/// Named files that can be read whole.
pub trait Shelf {
    ghost use Rattle.fed_outside.specs.Outside.{Rose, IfBytes, Answers, with_name};

    /// How many calls failed. It never falls.
    ghost faults: { Self → ℕ };

    /// The content of each name's file, where the shelf tells its files.
    ghost files: { Self → Option (List ℕ → Option (List ℕ)) };

    /// The names that loads asked for, in order, where the shelf tells them.
    ghost asked: { Self → Option (List (List ℕ)) };

    /// Loads the file of that name, if it has at most `most` octets.
    fn load(&mut self, alloc: Global, name: &str, most: usize) -> Loaded
        ensures bounded { IfBytes result (λ bytes. length bytes ≤ most) }
        ensures answers { Answers (files self.old) name.now most result }
        ensures files { files self.new ≡ files self.old }
        ensures asked { asked self.new ≡ with_name (asked self.old) name.now }
        ensures failed { result ≡ Loaded.Failed → Rose (faults self.old) (faults self.new) }
        ensures later { faults self.old ≤ faults self.new };
}
