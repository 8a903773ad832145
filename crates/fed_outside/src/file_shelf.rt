// The file system as a shelf.
ghost use Rattle.std.specs.Prelude.{◌≡◌, ◌≢◌, ◌≤◌, length, None};
ghost use Rattle.fed_outside.specs.Outside.{IfBytes};
ghost use Rattle.fed_outside.specs.Plan.{raised};

use crate::{Loaded, Shelf};
use std::alloc::Global;
use std::io::{ErrorKind, Read};
use std::marker::Model;
use std::rt::Files;
use std::{fs, io};

/// A shelf over files: a name is a path. It tells nothing of their content.
#[derive(Drop)]
pub struct FileShelf<R: Files + Drop> {
    files: R,
    faults: u64,
}

// A contract sees the count alone.
impl<R: Files + Drop> Model for FileShelf<R> {
    ghost use Rattle.std.specs.Prelude.{ℕ, ◌<◌, ◌^◌};

    ghost Value = { ℕ };

    ghost view = { λ s. s.faults };

    ghost invariant = { λ s. s.faults < 2 ^ 64 };
}

impl<R: Files + Drop> FileShelf<R> {
    /// A shelf over those files, as `FileShelf::new(&rt)`, with no fault yet.
    pub fn new(files: R) -> Self
        ensures { result ≡ 0 }
    {
        FileShelf { files, faults: 0 }
    }

    /// How many loads failed.
    pub fn faults(&self) -> u64
        ensures { result ≡ self.now }
    {
        self.faults
    }
}

// The file's octets, or one more than `most` of them.
fn read_past<R: Files>(files: &R, alloc: Global, name: &str, most: usize) -> io::Result<Vec<u8>> {
    let limit = (most as u64).saturating_add(1);
    let mut bytes = Vec::new(alloc);
    fs::open(files, name)?.take(limit).read_to_end(&mut bytes)?;
    Ok(bytes)
}

impl<R: Files + Drop> Shelf for FileShelf<R> {
    ghost faults = { λ faults. faults };

    ghost files = { λ _. None };

    ghost asked = { λ _. None };

    fn load(&mut self, alloc: Global, name: &str, most: usize) -> Loaded
        ensures fault { result ≡ Loaded.Failed → self.new ≡ raised self.old }
        ensures no_fault { result ≢ Loaded.Failed → self.new ≡ self.old }

        ensures bounded { IfBytes result (λ bytes. length bytes ≤ most) }
        ensures later { self.old ≤ self.new }
    {
        match read_past(&self.files, alloc, name, most) {
            Ok(bytes) if bytes.len() <= most => Loaded::Bytes(bytes),
            Ok(_) => Loaded::TooLong,
            Err(error) => match error.kind() {
                ErrorKind::NotFound => Loaded::Absent,
                ErrorKind::OutOfMemory => Loaded::Memory,
                _ => {
                    self.faults = self.faults.saturating_add(1);
                    Loaded::Failed
                }
            },
        }
    }
}
