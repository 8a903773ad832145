//! The copies of a queue in a map by number, so that one is found without going over the others.

ghost use Rattle.std.specs.Prelude.{◌≡◌, ◌==◌, ◌<◌, ◌≤◌, ◌^◌, ℕ, false, [], ◌∷◌, ◌++◌, filter, map, find, length, OnOk, OnErr};
ghost use Rattle.std.specs.Option.{option_map};
ghost use Rattle.queue_core.specs.Rows.{Ascends, IsAbove, with_hold, is_held, entered, first_ready, released_all, released_client, without, all_stored, has_stored, copy_at};
ghost use Rattle.std.specs.BTreeMap.{is_at};
ghost use Rattle.std.specs.Map.{set_value};
ghost use Rattle.std.specs.Ordering.{nat_cmp};
ghost use Rattle.queue_core.specs.Copies.{rows_from, is_covered};

use crate::rows::{CopyNo, Hold, Holder};
use std::alloc::{AllocError, Global};
use std::collections::BTreeMap;
use std::collections::btree_map::Iter;
use std::marker::Model;

/// The copies by rising number: who holds each, and up to which number a flush stored them.
#[derive(Drop)]
pub struct Copies {
    holds: BTreeMap<CopyNo, Hold>,
    /// The copies up to this number are stored; none is where there is no number.
    stored: Option<CopyNo>,
}

impl Model for Copies {
    ghost use Rattle.std.specs.Prelude.{List};
    ghost use Rattle.queue_core.specs.declared.rows.Row.{Row};
    ghost use Rattle.queue_core.specs.Rows.{Ascends};
    ghost use Rattle.queue_core.specs.Copies.{rows_with};

    ghost Value = { List Row };

    ghost view = { λ c. rows_with c.stored c.holds.entries };

    ghost invariant = { λ c. Ascends (rows_with c.stored c.holds.entries) };
}

impl Copies {
    /// No copies.
    pub fn new(alloc: Global) -> Copies
        ensures { result ≡ [] }
    {
        Copies {
            holds: BTreeMap::new(alloc),
            stored: None,
        }
    }

    /// Lets a copy enter at the tail, ready and not stored.
    ///
    /// # Errors
    ///
    /// For want of memory; the copies are then as they were.
    pub fn enter(&mut self, copy: CopyNo) -> Result<(), AllocError>
        requires { IsAbove self.old copy }
        ensures ok { OnOk result (self.new ≡ self.old ++ entered copy ∷ []) }
        ensures err { OnErr result (self.new ≡ self.old) }
    {
        self.holds.insert(copy, Hold::Ready)?;
        self.stored = below(self.stored, copy);
        Ok(())
    }

    /// Who holds the copy; None where it isn't there.
    pub fn hold(&self, copy: CopyNo) -> Option<Hold>
        ensures { result ≡ option_map (λ row. row.hold) (find (λ row. row.copy == copy) self.now) }
    {
        self.holds.get(&copy).copied()
    }

    /// Sets who holds the copy, if it is there.
    pub fn set_hold(&mut self, copy: CopyNo, hold: Hold)
        ensures { self.new ≡ map (with_hold copy hold) self.old }
    {
        write(&mut self.holds, copy, hold);
    }

    /// Removes the copy, if it is there.
    pub fn remove(&mut self, copy: CopyNo)
        ensures { self.new ≡ without copy self.old }
    {
        self.holds.remove(&copy);
    }

    /// Frees what the holder holds.
    pub fn free_all(&mut self, holder: Holder)
        ensures { self.new ≡ released_all holder self.old }
    {
        self.holds.retain(|_, hold| {
            *hold = hold.freed(holder);
            true
        });
    }

    /// Frees what the consumers of a client hold.
    pub fn free_client(&mut self, client: u32)
        ensures { self.new ≡ released_client client self.old }
    {
        self.holds.retain(|_, hold| {
            *hold = hold.freed_of(client);
            true
        });
    }

    /// Removes each copy that is ready.
    pub fn remove_ready(&mut self)
        ensures { self.new ≡ filter is_held self.old }
    {
        self.holds.retain(|_, hold| *hold != Hold::Ready);
    }

    /// The least ready copy from this number on.
    pub fn first_from(&self, copy: CopyNo) -> Option<CopyNo>
        ensures { result ≡ first_ready (rows_from copy self.now) }
    {
        for (found, hold) in self.holds.range(copy..) {
            if *hold == Hold::Ready {
                return Some(*found);
            }
        }
        None
    }

    /// The number of copies.
    pub fn count(&self) -> usize
        ensures count { result ≡ length self.now }
        ensures small { result < 2 ^ 63 }
    {
        self.holds.len()
    }

    /// The copy at a place, counted from 0 by rising number; None exactly past the end.
    pub fn at(&self, place: usize) -> Option<CopyNo>
        ensures { result ≡ copy_at self.now place }
    {
        let mut left = place;
        for copy in self.holds.keys() {
            if left == 0 {
                return Some(*copy);
            }
            left -= 1;
        }
        None
    }

    /// The copies and their holds by rising number.
    pub fn iter(&self) -> Iter<'_, CopyNo, Hold>
        ensures { result ≡ map (λ row. (row.copy, row.hold)) self.now }
    {
        self.holds.iter()
    }

    /// Whether the copy is there and stored.
    pub fn is_stored(&self, copy: CopyNo) -> bool
        ensures { result ≡ has_stored copy self.now }
    {
        covers(self.stored, copy) && self.holds.contains_key(&copy)
    }

    /// Marks each copy that is there as stored.
    pub fn mark_stored(&mut self)
        ensures { self.new ≡ all_stored self.old }
    {
        if let Some((last, _)) = self.holds.last_key_value() {
            self.stored = Some(*last);
        }
    }
}

/// Whether a flush up to this number stored the copy.
fn covers(stored: Option<CopyNo>, copy: CopyNo) -> bool
    ensures { result ≡ is_covered stored copy }
{
    match stored {
        Some(last) => copy <= last,
        None => false,
    }
}

/// Up to which number copies are stored, once a copy of this number enters above all others.
fn below(stored: Option<CopyNo>, copy: CopyNo) -> Option<CopyNo>
    ensures stays { (other : ℕ) → other < copy → is_covered result other ≡ is_covered stored other }
    ensures out { is_covered result copy ≡ false }
{
    if covers(stored, copy) {
        copy.checked_sub(1)
    } else {
        stored
    }
}

/// Writes who holds the copy, if it is there.
fn write(holds: &mut BTreeMap<CopyNo, Hold>, copy: CopyNo, hold: Hold)
    ensures { holds.new.entries ≡ set_value (is_at (nat_cmp copy)) holds.old.entries hold }
{
    if let Some(place) = holds.get_mut(&copy) {
        *place = hold;
    }
}
