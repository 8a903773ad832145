ghost use Rattle.std.specs.Prelude.{◌≡◌, ◌==◌, ◌<◌, true, false, ℕ, [], ◌∷◌, ◌++◌, map, All, Some, OnOk, OnErr, length};
ghost use Rattle.std.specs.Ordering.{nat_cmp};
ghost use Rattle.std.specs.BTreeMap.{get};
ghost use Rattle.confirm_core.specs.Waits.{is_open, released, all_stored, without, ready_numbers, least};
ghost use Rattle.confirm_core.specs.Openings.{has, openings_of, released_among};

use crate::openings::Openings;
use crate::publication::Publication;
use std::alloc::{AllocError, Global};
use std::collections::BTreeMap;
use std::marker::Model;

/// The open publications of a broker, in the order in which they were opened.
#[derive(Drop)]
pub struct Ledger {
    alloc: Global,
    openings: Openings,
    by_number: BTreeMap<u64, u64>,
    by_copy: BTreeMap<u64, Vec<u64>>,
    next_opening: u64,
}

impl Model for Ledger {
    ghost use Rattle.std.specs.Prelude.{◌≡◌, ◌<◌, ◌↔◌, ℕ, List, All, true, Some, is_some, IfSome};
    ghost use Rattle.std.specs.Ordering.{nat_cmp};
    ghost use Rattle.std.specs.BTreeMap.{get};
    ghost use Rattle.confirm_core.specs.Waits.{Unconfirmed, is_open};
    ghost use Rattle.confirm_core.specs.Openings.{has, openings_of, unconfirmed};

    ghost Value = { List Unconfirmed };

    ghost view = { λ l. unconfirmed l.openings };

    // A number leads to its opening and no other, and a copy to each opening that waits for it. An opening may stand
    // under a copy that it does not wait for, and goes with the copy.
    ghost invariant = { λ l. All (λ entry. entry.0 < l.next_opening) l.openings
        × All (λ entry. (n : ℕ) → (get nat_cmp l.by_number n ≡ Some entry.0) ↔ (n ≡ entry.1.number)) l.openings
        × ((n : ℕ) → is_some (get nat_cmp l.by_number n) ≡ is_open n (unconfirmed l.openings))
        × ((n : ℕ) → IfSome (get nat_cmp l.by_number n) (λ opening. opening < l.next_opening))
        × All (λ entry. (copy : ℕ) → has copy entry.1.waits ≡ true → has entry.0 (openings_of copy l.by_copy) ≡ true) l.openings };
}

impl Ledger {
    /// A ledger without open publications, which keeps the allocator for those that are opened.
    pub fn new(alloc: Global) -> Ledger
        ensures { result ≡ [] }
    {
        Ledger {
            alloc,
            openings: Openings::new(alloc),
            by_number: BTreeMap::new(alloc),
            by_copy: BTreeMap::new(alloc),
            next_opening: 0,
        }
    }

    /// Opens a publication that waits for these copies; one that waits for none is ready at once.
    ///
    /// # Errors
    ///
    /// For want of memory, or where 2^64 - 1 publications were opened; the ledger is then as it was.
    pub fn open(&mut self, number: u64, waits: &[u64]) -> Result<(), AllocError>
        requires { is_open number self.old ≡ false }
        ensures ok { OnOk result (self.new ≡ self.old ++ (record { number = number; waits = waits.now }) ∷ []) }
        ensures err { OnErr result (self.new ≡ self.old) }
    {
        let opening = self.next_opening;
        if opening == u64::MAX {
            return Err(AllocError);
        }
        let publication = Publication::new(self.alloc, number, waits)?;
        await_copies(self.alloc, &mut self.by_copy, opening, waits)?;
        self.by_number.insert(number, opening)?;
        if let Err(refused) = self.openings.insert(opening, publication) {
            self.by_number.remove(&number);
            return Err(refused);
        }
        self.next_opening = opening + 1;
        Ok(())
    }

    /// Every copy was stored, so no publication waits for anything.
    pub fn flushed(&mut self)
        ensures { self.new ≡ all_stored self.old }
    {
        while let Some((copy, openings)) = self.by_copy.pop_first() {
            release_all(&mut self.openings, &openings, copy);
        }
    }

    /// The copy was stored, or left its queue in another way than loss, so no publication waits for it any more.
    pub fn left(&mut self, copy: u64)
        ensures { self.new ≡ released copy self.old }
    {
        if let Some(openings) = self.by_copy.remove(&copy) {
            release_all(&mut self.openings, &openings, copy);
        }
    }

    /// Whether no publication is open.
    pub fn is_empty(&self) -> bool
        ensures { result ≡ (length self.now == 0) }
    {
        self.openings.is_empty()
    }

    /// The least number that waits for nothing; None exactly where there is none.
    pub fn next_ready(&self) -> Option<u64>
        ensures { result ≡ least (ready_numbers self.now) }
    {
        self.openings.next_ready()
    }

    /// Closes the publication, since it is answered; false exactly where it isn't open.
    pub fn answered(&mut self, number: u64) -> bool
        ensures was_open { result ≡ is_open number self.old }
        ensures closed { self.new ≡ without number self.old }
    {
        let Some(opening) = self.by_number.remove(&number) else {
            return false;
        };
        self.openings.remove(opening, number);
        true
    }
}

/// Puts the opening under each copy that it waits for; what was there stays, also for want of memory.
fn await_copies(
    alloc: Global,
    by_copy: &mut BTreeMap<u64, Vec<u64>>,
    opening: u64,
    waits: &[u64],
) -> Result<(), AllocError>
    ensures kept { (copy other : ℕ) → has other (openings_of copy by_copy.old) ≡ true → has other (openings_of copy by_copy.new) ≡ true }
    ensures ok { OnOk result ((copy : ℕ) → has copy waits.now ≡ true → has opening (openings_of copy by_copy.new) ≡ true) }
{
    for copy in waits {
        await_copy(alloc, by_copy, opening, *copy)?;
    }
    Ok(())
}

/// Puts the opening under the copy; what was there stays, also for want of memory.
fn await_copy(
    alloc: Global,
    by_copy: &mut BTreeMap<u64, Vec<u64>>,
    opening: u64,
    copy: u64,
) -> Result<(), AllocError>
    ensures kept { (c other : ℕ) → has other (openings_of c by_copy.old) ≡ true → has other (openings_of c by_copy.new) ≡ true }
    ensures ok { OnOk result (has opening (openings_of copy by_copy.new) ≡ true) }
{
    if let Some(openings) = by_copy.get_mut(&copy) {
        openings.push(opening)?;
        return Ok(());
    }
    let openings = Vec::from_slice(alloc, &[opening])?;
    by_copy.insert(copy, openings)?;
    Ok(())
}

/// None of these openings waits for the copy any more.
fn release_all(openings: &mut Openings, waiting: &[u64], copy: u64)
    ensures { openings.new ≡ map (released_among waiting.now copy) openings.old }
{
    for opening in waiting {
        openings.release(*opening, copy);
    }
}
