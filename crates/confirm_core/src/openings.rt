//! The open publications by the number of their opening, and beside them the numbers that may be confirmed.

ghost use Rattle.std.specs.Prelude.{◌≡◌, ◌==◌, ◌<◌, ◌+◌, ◌++◌, ℕ, [], ◌∷◌, All, map, length, count_by, OnOk, OnErr};
ghost use Rattle.std.specs.Option.{option_to_list};
ghost use Rattle.std.specs.Ordering.{nat_cmp};
ghost use Rattle.std.specs.BTreeMap.{IsOrdered};
ghost use Rattle.confirm_core.specs.Waits.{ready_numbers, least};
ghost use Rattle.confirm_core.specs.Openings.{has, unconfirmed, is_waiting, released_at, without_number};

use crate::numbers;
use crate::publication::Publication;
use std::alloc::{AllocError, Global};
use std::collections::{BTreeMap, VecDeque};
use std::marker::Model;

/// The open publications, each under the number of its opening, which rises.
#[derive(Drop)]
pub struct Openings {
    publications: BTreeMap<u64, Publication>,
    ready: VecDeque<u64>,
}

impl Model for Openings {
    ghost use Rattle.std.specs.Prelude.{◌≡◌, ◌+◌, ◌≤◌, ℕ, List, count_by};
    ghost use Rattle.std.specs.Ordering.{nat_cmp};
    ghost use Rattle.std.specs.BTreeMap.{IsOrdered};
    ghost use Rattle.std.specs.VecDeque.{deque_len, deque_capacity};
    ghost use Rattle.confirm_core.specs.Waits.{Unconfirmed, ready_numbers};
    ghost use Rattle.confirm_core.specs.Openings.{has, Ascends, unconfirmed, is_waiting};

    ghost Value = { List (ℕ × Unconfirmed) };

    ghost view = { λ o. o.publications.entries };

    // Openings rise, the ready numbers are those of the publications that wait for nothing, and each of the others has room among them.
    ghost invariant = { λ o. IsOrdered nat_cmp o.publications
        × Ascends o.ready.items
        × ((n : ℕ) → has n o.ready.items ≡ has n (ready_numbers (unconfirmed o.publications.entries)))
        × (deque_len o.ready + count_by is_waiting (unconfirmed o.publications.entries) ≤ deque_capacity o.ready) };
}

impl Openings {
    /// No publications.
    pub fn new(alloc: Global) -> Openings
        ensures { result ≡ [] }
    {
        Openings {
            publications: BTreeMap::new(alloc),
            ready: VecDeque::new(alloc),
        }
    }

    /// Adds a publication under the next opening.
    ///
    /// # Errors
    ///
    /// For want of memory; the openings are then as they were.
    pub fn insert(&mut self, opening: u64, publication: Publication) -> Result<(), AllocError>
        requires { All (λ entry. entry.0 < opening) self.old }
        ensures ok { OnOk result (self.new ≡ self.old ++ (opening, publication) ∷ []) }
        ensures err { OnErr result (self.new ≡ self.old) }
    {
        self.ready.reserve(self.publications.len() + 1)?;
        let number = publication.number();
        let is_ready = publication.is_ready();
        self.publications.insert(opening, publication)?;
        if is_ready {
            numbers::add(&mut self.ready, number);
        }
        Ok(())
    }

    /// The publication of the opening no longer waits for the copy.
    pub fn release(&mut self, opening: u64, copy: u64)
        ensures { self.new ≡ map (released_at opening copy) self.old }
    {
        if let Some(number) = release_in(&mut self.publications, opening, copy) {
            numbers::add(&mut self.ready, number);
        }
    }

    /// Removes the publication of the opening, which has the number.
    pub fn remove(&mut self, opening: u64, number: u64)
        requires { All (λ entry. (opening == entry.0) ≡ (entry.1.number == number)) self.old }
        ensures { self.new ≡ without_number number self.old }
    {
        self.publications.remove(&opening);
        numbers::remove(&mut self.ready, number);
    }

    /// Whether no publication is open.
    pub fn is_empty(&self) -> bool
        ensures { result ≡ (length (unconfirmed self.now) == 0) }
    {
        self.publications.len() == 0
    }

    /// The least number that waits for nothing.
    pub fn next_ready(&self) -> Option<u64>
        ensures { result ≡ least (ready_numbers (unconfirmed self.now)) }
    {
        numbers::first(&self.ready)
    }
}

/// The publication of the opening no longer waits for the copy; its number, if it waits for nothing since then.
fn release_in(publications: &mut BTreeMap<u64, Publication>, opening: u64, copy: u64) -> Option<u64>
    ensures ordered { IsOrdered nat_cmp publications.new }
    ensures released { publications.new.entries ≡ map (released_at opening copy) publications.old.entries }
    ensures ready { (n : ℕ) → has n (ready_numbers (unconfirmed publications.new.entries)) ≡ has n (option_to_list result ++ ready_numbers (unconfirmed publications.old.entries)) }
    ensures waiting { count_by is_waiting (unconfirmed publications.new.entries) + length (option_to_list result) ≡ count_by is_waiting (unconfirmed publications.old.entries) }
{
    let publication = publications.get_mut(&opening)?;
    if publication.release(copy) {
        Some(publication.number())
    } else {
        None
    }
}
