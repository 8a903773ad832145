ghost use Rattle.std.specs.Prelude.{◌≡◌, ◌==◌, ◌≤◌, ◌↔◌, [], ◌∷◌, ◌++◌, Some, filter, map, count_by, length, min, nat_eq, if◌then◌else◌, IsNone, IfSome, IfNone, OnOk, OnErr};
ghost use Rattle.std.specs.Option.{option_eq, option_map_or};
ghost use Rattle.queue_core.specs.Rows.{Ascends, IsAbove, IsLeastReady, is_ready, is_held, entered, first_ready, handed, released, released_all, released_client, is_held_by, without, all_stored, has, has_held, holder_of, has_stored, copy_at};
ghost use Rattle.queue_core.specs.Copies.{rows_from};

use crate::copies::Copies;
use crate::rows::{CopyNo, Hold, Holder};
use crate::tally::Tally;
use std::alloc::{AllocError, Global};
use std::collections::btree_map::Iter;
use std::marker::Model;

/// The copies of one queue, by rising number.
#[derive(Drop)]
pub struct Queue {
    copies: Copies,
    /// The least ready copy.
    first: Option<CopyNo>,
    tally: Tally,
}

impl Model for Queue {
    ghost use Rattle.std.specs.Prelude.{List};
    ghost use Rattle.queue_core.specs.declared.rows.Row.{Row};
    ghost use Rattle.queue_core.specs.Copies.{AgreesWith};

    ghost Value = { List Row };

    ghost view = { λ q. q.copies };

    ghost invariant = { λ q. AgreesWith q.copies q.first q.tally };
}

impl Queue {
    /// An empty queue, which keeps the allocator for the copies that enter.
    pub fn new(alloc: Global) -> Queue
        ensures { result ≡ [] }
    {
        Queue {
            copies: Copies::new(alloc),
            first: None,
            tally: Tally::new(alloc),
        }
    }

    /// The copies that are there and their holds, by rising number.
    pub fn iter(&self) -> Iter<'_, CopyNo, Hold>
        ensures { result ≡ map (λ row. (row.copy, row.hold)) self.now }
    {
        self.copies.iter()
    }

    /// Lets a copy enter at the tail, ready and not stored.
    ///
    /// # Errors
    ///
    /// For want of memory; the queue is then as it was.
    pub fn enter(&mut self, copy: CopyNo) -> Result<(), AllocError>
        requires { IsAbove self.old copy }
        ensures ok { OnOk result (self.new ≡ self.old ++ entered copy ∷ []) }
        ensures err { OnErr result (self.new ≡ self.old) }
    {
        self.tally.reserve(self.copies.count())?;
        self.copies.enter(copy)?;
        self.first = self.first.or(Some(copy));
        self.tally.put(Hold::Ready);
        Ok(())
    }

    /// Hands the least ready copy to the holder, which holds it from then on; None exactly where none is ready.
    pub fn hand(&mut self, holder: Holder) -> Option<CopyNo>
        ensures first { result ≡ first_ready self.old }
        ensures least { IfSome result (IsLeastReady self.old) }
        ensures held { IfSome result (λ copy. self.new ≡ handed copy holder self.old) }
        ensures none { IfNone result (self.new ≡ self.old) }
    {
        let copy = self.first?;
        self.hand_copy(copy, holder);
        Some(copy)
    }

    /// Hands the copy to the holder, which holds it from then on, if it is there.
    pub fn hand_copy(&mut self, copy: CopyNo, holder: Holder)
        ensures { self.new ≡ handed copy holder self.old }
    {
        if let Some(hold) = self.copies.hold(copy) {
            self.tally.take(hold);
            self.copies.set_hold(copy, Hold::Held(holder));
            self.tally.put(Hold::Held(holder));
            self.first = first_left(self.first, &self.copies, copy);
        }
    }

    /// Removes the copy; false exactly where it isn't there.
    pub fn leave(&mut self, copy: CopyNo) -> bool
        ensures there { result ≡ has copy self.old }
        ensures left { self.new ≡ without copy self.old }
    {
        let Some(hold) = self.copies.hold(copy) else {
            return false;
        };
        self.tally.take(hold);
        self.copies.remove(copy);
        self.first = first_left(self.first, &self.copies, copy);
        true
    }

    /// Makes the held copy ready again at its place; false exactly where it isn't held.
    pub fn release(&mut self, copy: CopyNo) -> bool
        ensures held { result ≡ has_held copy self.old }
        ensures ready { self.new ≡ released copy self.old }
    {
        let Some(holder) = self.holder(copy) else {
            return false;
        };
        self.tally.take(Hold::Held(holder));
        self.copies.set_hold(copy, Hold::Ready);
        self.tally.put(Hold::Ready);
        self.first = lesser(self.first, copy);
        true
    }

    /// Makes each copy ready again that the holder holds, at its place.
    pub fn release_all(&mut self, holder: Holder)
        ensures { self.new ≡ released_all holder self.old }
    {
        self.tally.free_all(holder);
        self.copies.free_all(holder);
        self.first = self.copies.first_from(0);
    }

    /// Makes each copy ready again that a consumer of the client holds, at its place.
    pub fn release_client(&mut self, client: u32)
        ensures { self.new ≡ released_client client self.old }
    {
        self.tally.free_client(client);
        self.copies.free_client(client);
        self.first = self.copies.first_from(0);
    }

    /// Removes each ready copy, and gives how many there were.
    pub fn purge(&mut self) -> u64
        ensures purged { result ≡ count_by is_ready self.old }
        ensures held { self.new ≡ filter is_held self.old }
    {
        let purged = self.tally.ready();
        self.tally.drop_ready();
        self.copies.remove_ready();
        self.first = None;
        purged
    }

    /// What `hand` would give now: the least ready number.
    pub fn first_ready(&self) -> Option<CopyNo>
        ensures { result ≡ first_ready self.now }
    {
        self.first
    }

    /// The number of ready copies.
    pub fn ready(&self) -> u64
        ensures { result ≡ count_by is_ready self.now }
    {
        self.tally.ready()
    }

    /// The number of copies that the holder holds.
    pub fn held_by(&self, holder: Holder) -> u64
        ensures { result ≡ count_by (is_held_by holder) self.now }
    {
        self.tally.held(holder)
    }

    /// The number of copies, ready or held.
    pub fn count(&self) -> u64
        ensures { result ≡ length self.now }
    {
        self.copies.count() as u64
    }

    /// The copy at a place, counted from 0 by rising number; None exactly past the end.
    pub fn at(&self, place: usize) -> Option<CopyNo>
        ensures copy { result ≡ copy_at self.now place }
        ensures end { IsNone result ↔ (length self.now ≤ place) }
        ensures rising { Ascends self.now }
    {
        self.copies.at(place)
    }

    /// Who holds the copy; None exactly where it isn't there or is ready.
    pub fn holder(&self, copy: CopyNo) -> Option<Holder>
        ensures { result ≡ holder_of copy self.now }
    {
        self.copies.hold(copy)?.holder()
    }

    /// Whether a flush came after the copy entered; false where it isn't there.
    pub fn is_stored(&self, copy: CopyNo) -> bool
        ensures { result ≡ has_stored copy self.now }
    {
        self.copies.is_stored(copy)
    }

    /// Marks each copy that is in the queue as stored.
    pub fn mark_stored(&mut self)
        ensures { self.new ≡ all_stored self.old }
    {
        self.copies.mark_stored();
    }
}

/// The first ready copy once this copy isn't ready any more.
fn first_left(first: Option<CopyNo>, copies: &Copies, copy: CopyNo) -> Option<CopyNo>
    ensures { result ≡ (if option_eq nat_eq first (Some copy) then first_ready (rows_from copy copies.now) else first) }
{
    if first == Some(copy) {
        copies.first_from(copy)
    } else {
        first
    }
}

/// The lesser of the first ready copy and one that is ready too.
fn lesser(first: Option<CopyNo>, copy: CopyNo) -> Option<CopyNo>
    ensures { result ≡ Some (option_map_or (min copy) first copy) }
{
    match first {
        Some(first) => Some(copy.min(first)),
        None => Some(copy),
    }
}
