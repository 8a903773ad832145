//! The list of entries, with the numbers that the next publication and its copies get.
ghost use Rattle.std.specs.Prelude.{◌≡◌, ◌+◌, ◌-◌, ◌*◌, ◌<◌, ◌≤◌, ◌^◌, [], ◌∷◌, ◌++◌, length, Ok, Err, IfOk, OnOk, OnErr, min, vec_capacity, vec_len};
ghost use Rattle.fed_journal.specs.Limits.{most_entries, most_bytes};
ghost use Rattle.fed_journal.specs.Copies.{publication_count, copy_count};
ghost use Rattle.fed_journal.specs.Sizes.{byte_count, entry_bytes as bytes_of_entry, IsSized};

use crate::entry::Entry;
use crate::message::message_bytes;
use std::alloc::{AllocError, Global};
use std::marker::Model;
use thiserror::Error;

/// The most entries of a journal.
pub const MAX_ENTRIES: usize = 2_000_000;

/// The most octets of messages, summed over the publications of a journal.
pub const MAX_BYTES: usize = 268_435_456;

/// The numbers that the next publication and the next copy of the run get.
#[derive(Clone, Copy)]
pub struct Numbers {
    pub publication: u64,
    pub copy: u64,
}

/// Why a journal can't make room.
#[derive(Debug, Drop, Error)]
pub enum JournalFault {
    #[error("over 2,000,000 entries")]
    Entries,
    #[error("over 268,435,456 octets of messages")]
    Bytes,
    #[error("memory")]
    Memory,
}

/// The entries of a run, oldest first, and room for more.
#[derive(Drop)]
pub struct Journal {
    items: Vec<Entry>,
    publications: u64,
    copies: u64,
    bytes: usize,
}

impl Model for Journal {
    ghost use Rattle.fed_journal.specs.View.{View};
    ghost use Rattle.fed_journal.specs.contracts.entry.Entry as entry;
    ghost use Rattle.std.specs.Coded.{codes};

    ghost Value = { View };

    ghost coded = { Prim.hlevel (codes, entry.the_row.coded) };

    ghost use Rattle.fed_journal.specs.Counted.{view_of, IsCounted};

    ghost view = { view_of };

    ghost invariant = { IsCounted };
}

impl Journal {
    /// A journal without entries.
    #[tactic(auto, unfolding(crate::specs::Copies::publication_count, crate::specs::Copies::copy_count, crate::specs::Sizes::byte_count))]
    pub fn new(alloc: Global) -> Self
        ensures { result.entries ≡ [] }
    {
        Journal {
            items: Vec::new(alloc),
            publications: 0,
            copies: 0,
            bytes: 0,
        }
    }

    /// The entries, oldest first.
    pub fn entries(&self) -> &[Entry]
        ensures same { result.now ≡ self.now.entries }
        ensures within { length result.now ≤ most_entries }
        ensures copies { copy_count result.now ≤ 2 ^ 32 * length result.now }
        ensures publications { publication_count result.now ≤ length result.now }
        ensures bytes { byte_count result.now ≤ most_bytes }
    {
        self.items.as_slice()
    }

    /// The next numbers of the run.
    pub fn numbers(&self) -> Numbers
        ensures publication { result.publication ≡ publication_count self.now.entries + 1 }
        ensures copy { result.copy ≡ copy_count self.now.entries + 1 }
    {
        Numbers {
            publication: self.publications + 1,
            copy: self.copies + 1,
        }
    }

    /// Makes room for so many entries with so many octets of messages. Entries where the journal would pass
    /// `MAX_ENTRIES`, else Bytes where it would pass `MAX_BYTES`.
    pub fn reserve(&mut self, entries: usize, bytes: usize) -> Result<(), JournalFault>
        ensures same { self.new.entries ≡ self.old.entries }
        ensures room { OnOk result (entries ≤ self.new.room) }
        ensures full { result ≡ Err JournalFault.Entries → most_entries < length self.old.entries + entries }
        ensures kept { self.old.room ≤ self.new.room }
        ensures within { OnOk result (length self.old.entries + entries ≤ most_entries) }
        ensures memory { result ≡ Err JournalFault.Memory → (length self.old.entries + entries ≤ most_entries) × (byte_count self.old.entries + bytes ≤ most_bytes) }
        ensures over { result ≡ Err JournalFault.Bytes → most_bytes < byte_count self.old.entries + bytes }
        ensures first { result ≡ Err JournalFault.Bytes → length self.old.entries + entries ≤ most_entries }
        ensures under { OnOk result (byte_count self.old.entries + bytes ≤ most_bytes) }
    {
        if entries > MAX_ENTRIES - self.items.len() {
            return Err(JournalFault::Entries);
        }
        if bytes > MAX_BYTES - self.bytes {
            return Err(JournalFault::Bytes);
        }
        if self.items.reserve(entries).is_err() {
            return Err(JournalFault::Memory);
        }
        Ok(())
    }

    /// Appends an entry. Takes no memory.
    #[tactic(auto, unfolding(crate::specs::Copies::publication_count, crate::specs::Copies::copy_count, crate::specs::Sizes::byte_count))]
    pub fn push(&mut self, entry: Entry)
        requires room { 0 < self.old.room }
        requires sized { IsSized entry }
        requires bytes { byte_count self.old.entries + bytes_of_entry entry ≤ most_bytes }
        ensures appended { self.new.entries ≡ self.old.entries ++ entry ∷ [] }
        ensures room { self.old.room ≤ self.new.room + 1 }
    {
        if let Entry::Published(publication) = &entry {
            self.publications += 1;
            self.copies += publication.queues.count();
            self.bytes += message_bytes(&publication.message);
        }
        match self.items.push(entry) {
            Ok(()) => {}
            Err(_) => unreachable!(),
        }
    }
}
