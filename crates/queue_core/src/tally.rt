//! How many copies of a queue are ready, and how many each holder holds.

ghost use Rattle.std.specs.Prelude.{◌≡◌, ◌==◌, ◌+◌, ◌<◌, ◌≤◌, ◌^◌, ◌&&◌, true, Bool, [], ◌∷◌, ◌++◌, length, slice_index_or, sum_by, vec_len, vec_capacity, if◌then◌else◌, not, filter, IfSome, IfNone, OnOk};
ghost use Rattle.queue_core.specs.declared.rows.Hold.{Hold};
ghost use Rattle.queue_core.specs.declared.rows.Holder.{Holder};
ghost use Rattle.queue_core.specs.declared.rows.Hold.TheVariants.{Held};
ghost use Rattle.queue_core.specs.declared.tally.Count.{Count};
ghost use Rattle.queue_core.specs.Rows.{is_ready_hold, is_hold_of, is_of_client, same_holder, freed, freed_of};
ghost use Rattle.queue_core.specs.Copies.{tally_of, held_in, any_hold, is_held_hold, ArePositive};

use crate::rows::{Hold, Holder};
use std::alloc::{AllocError, Global};
use std::marker::Model;

/// How many copies a holder holds.
#[derive(Clone, Copy)]
pub struct Count {
    /// The holder.
    pub holder: Holder,
    /// The copies that it holds, at least one.
    pub copies: u64,
}

/// How many copies are ready, and how many each holder holds that holds any.
#[derive(Drop)]
pub struct Tally {
    ready: u64,
    counts: Vec<Count>,
}

impl Model for Tally {
    ghost use Rattle.std.specs.Prelude.{vec_capacity};
    ghost use Rattle.queue_core.specs.Copies.{Tallied, ArePositive};

    ghost Value = { Tallied };

    ghost view = { λ t. record { ready = t.ready; counts = t.counts.items; room = vec_capacity t.counts } };

    ghost invariant = { λ t. ArePositive t.counts.items };
}

impl Tally {
    /// Nothing is counted.
    pub fn new(alloc: Global) -> Tally
        ensures { (test : Hold → Bool) → tally_of test result ≡ 0 }
    {
        Tally {
            ready: 0,
            counts: Vec::new(alloc),
        }
    }

    /// Makes room for one more copy than these, whoever holds them.
    ///
    /// # Errors
    ///
    /// For want of memory; the counts are as they were.
    pub fn reserve(&mut self, copies: usize) -> Result<(), AllocError>
        requires { copies < 2 ^ 63 }
        ensures same { (test : Hold → Bool) → tally_of test self.new ≡ tally_of test self.old }
        ensures grows { self.old.room ≤ self.new.room }
        ensures room { OnOk result (copies + 1 ≤ self.new.room) }
    {
        self.counts.reserve(copies + 1)
    }

    /// Counts one more copy in this state, for which there is room.
    pub fn put(&mut self, hold: Hold)
        requires fits { tally_of any_hold self.old + 1 < 2 ^ 64 }
        requires room { tally_of is_held_hold self.old < self.old.room }
        ensures counts { (test : Hold → Bool) → tally_of test self.new ≡ tally_of test self.old + (if test hold then 1 else 0) }
        ensures room { self.old.room ≤ self.new.room }
    {
        match hold {
            Hold::Ready => self.ready += 1,
            Hold::Held(holder) => add(&mut self.counts, holder),
        }
    }

    /// Counts one copy in this state less.
    pub fn take(&mut self, hold: Hold)
        requires ready { is_ready_hold hold ≡ true → 1 ≤ tally_of is_ready_hold self.old }
        requires held { (holder : Holder) → hold ≡ Held holder → 1 ≤ tally_of (is_hold_of holder) self.old }
        ensures counts { (test : Hold → Bool) → tally_of test self.new + (if test hold then 1 else 0) ≡ tally_of test self.old }
        ensures room { self.new.room ≡ self.old.room }
    {
        match hold {
            Hold::Ready => self.ready -= 1,
            Hold::Held(holder) => lessen(&mut self.counts, holder),
        }
    }

    /// Counts what the holder holds as ready.
    pub fn free_all(&mut self, holder: Holder)
        requires { tally_of any_hold self.old < 2 ^ 64 }
        ensures counts { (test : Hold → Bool) → tally_of test self.new ≡ tally_of (λ hold. test (freed holder hold)) self.old }
        ensures room { self.new.room ≡ self.old.room }
    {
        let copies = self.ready + total(&self.counts);
        forget(&mut self.counts, holder);
        self.ready = copies - total(&self.counts);
    }

    /// Counts what the consumers of a client hold as ready.
    pub fn free_client(&mut self, client: u32)
        requires { tally_of any_hold self.old < 2 ^ 64 }
        ensures counts { (test : Hold → Bool) → tally_of test self.new ≡ tally_of (λ hold. test (freed_of client hold)) self.old }
        ensures room { self.new.room ≡ self.old.room }
    {
        let copies = self.ready + total(&self.counts);
        forget_client(&mut self.counts, client);
        self.ready = copies - total(&self.counts);
    }

    /// Counts no ready copy any more.
    pub fn drop_ready(&mut self)
        ensures counts { (test : Hold → Bool) → tally_of test self.new ≡ tally_of (λ hold. test hold && is_held_hold hold) self.old }
        ensures room { self.new.room ≡ self.old.room }
    {
        self.ready = 0;
    }

    /// The number of ready copies.
    pub fn ready(&self) -> u64
        ensures { result ≡ tally_of is_ready_hold self.now }
    {
        self.ready
    }

    /// The number of copies that the holder holds.
    pub fn held(&self, holder: Holder) -> u64
        requires { tally_of any_hold self.now < 2 ^ 64 }
        ensures { result ≡ tally_of (is_hold_of holder) self.now }
    {
        held_by(&self.counts, holder)
    }
}

/// Whether the holder is a consumer of the client.
fn is_of_client(holder: Holder, client: u32) -> bool
    ensures { result ≡ is_of_client client holder }
{
    !holder.link && holder.number == client
}

/// Drops the holder's count.
fn forget(counts: &mut Vec<Count>, holder: Holder)
    ensures kept { counts.new.items ≡ filter (λ count. not (same_holder holder count.holder)) counts.old.items }
    ensures room { vec_capacity counts.new ≡ vec_capacity counts.old }
{
    counts.retain(|count| holder != count.holder);
}

/// Drops the counts of the client's consumers.
fn forget_client(counts: &mut Vec<Count>, client: u32)
    ensures kept { counts.new.items ≡ filter (λ count. not (is_of_client client count.holder)) counts.old.items }
    ensures room { vec_capacity counts.new ≡ vec_capacity counts.old }
{
    counts.retain(|count| !is_of_client(count.holder, client));
}

/// How many copies are held.
fn total(counts: &[Count]) -> u64
    requires { held_in any_hold counts.now < 2 ^ 64 }
    ensures { result ≡ held_in any_hold counts.now }
{
    let mut copies = 0;
    for count in counts {
        copies += count.copies;
    }
    copies
}

/// How many copies the holder holds.
fn held_by(counts: &[Count], holder: Holder) -> u64
    requires { held_in any_hold counts.now < 2 ^ 64 }
    ensures { result ≡ held_in (is_hold_of holder) counts.now }
{
    let mut copies = 0;
    for count in counts {
        if count.holder == holder {
            copies += count.copies;
        }
    }
    copies
}

/// Where the holder's count stands; None where it has none.
fn place_of(counts: &[Count], holder: Holder) -> Option<usize>
    ensures there { IfSome result (λ place. (place < length counts.now) × ((other : Count) → (slice_index_or counts.now place other).holder ≡ holder)) }
    ensures absent { IfNone result (held_in (is_hold_of holder) counts.now ≡ 0) }
{
    for (place, count) in counts.iter().enumerate() {
        if count.holder == holder {
            return Some(place);
        }
    }
    None
}

/// Counts one more copy of the holder, for which there is room.
fn add(counts: &mut Vec<Count>, holder: Holder)
    requires positive { ArePositive counts.old.items }
    requires fits { held_in any_hold counts.old.items + 1 < 2 ^ 64 }
    requires room { held_in is_held_hold counts.old.items < vec_capacity counts.old }
    ensures positive { ArePositive counts.new.items }
    ensures counts { (test : Hold → Bool) → held_in test counts.new.items ≡ held_in test counts.old.items + (if test (Held holder) then 1 else 0) }
    ensures room { vec_capacity counts.old ≤ vec_capacity counts.new }
{
    match place_of(counts, holder) {
        Some(place) => counts[place].copies += 1,
        None => start(counts, holder),
    }
}

/// Counts the first copy of the holder, for which there is room.
fn start(counts: &mut Vec<Count>, holder: Holder)
    requires { vec_len counts.old < vec_capacity counts.old }
    ensures counts { counts.new.items ≡ counts.old.items ++ record { holder = holder; copies = 1 } ∷ [] }
    ensures room { vec_capacity counts.old ≤ vec_capacity counts.new }
{
    match counts.push(Count { holder, copies: 1 }) {
        Ok(()) => {}
        Err(_) => unreachable!(),
    }
}

/// Counts one copy of the holder less.
fn lessen(counts: &mut Vec<Count>, holder: Holder)
    requires positive { ArePositive counts.old.items }
    requires held { 1 ≤ held_in (is_hold_of holder) counts.old.items }
    ensures positive { ArePositive counts.new.items }
    ensures counts { (test : Hold → Bool) → held_in test counts.new.items + (if test (Held holder) then 1 else 0) ≡ held_in test counts.old.items }
    ensures room { vec_capacity counts.new ≡ vec_capacity counts.old }
{
    if let Some(place) = place_of(counts, holder) {
        if counts[place].copies <= 1 {
            counts.swap_remove(place);
        } else {
            counts[place].copies -= 1;
        }
    }
}
