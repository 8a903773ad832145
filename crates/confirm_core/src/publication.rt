ghost use Rattle.std.specs.Prelude.{◌≡◌, ◌==◌, ◌&&◌, not, filter, IfOk};
ghost use Rattle.confirm_core.specs.Waits.{waits_for_nothing, without_wait};
ghost use Rattle.confirm_core.specs.Openings.{is_waiting};

use std::alloc::{AllocError, Global};
use std::marker::Model;

/// A publication that is not confirmed yet, and the copies that it waits for.
#[derive(Drop)]
pub struct Publication {
    number: u64,
    waits: Vec<u64>,
}

impl Model for Publication {
    ghost use Rattle.confirm_core.specs.Waits.{Unconfirmed};

    ghost Value = { Unconfirmed };

    ghost view = { λ p. record { number = p.number; waits = p.waits.items } };
}

impl Publication {
    /// A publication that waits for these copies.
    pub fn new(alloc: Global, number: u64, waits: &[u64]) -> Result<Publication, AllocError>
        ensures { IfOk result (λ publication. publication ≡ record { number = number; waits = waits.now }) }
    {
        Ok(Publication {
            number,
            waits: Vec::from_slice(alloc, waits)?,
        })
    }

    /// The publication's number.
    pub fn number(&self) -> u64
        ensures { result ≡ self.now.number }
    {
        self.number
    }

    /// Whether it waits for nothing.
    pub fn is_ready(&self) -> bool
        ensures { result ≡ waits_for_nothing self.now }
    {
        self.waits.is_empty()
    }

    /// No longer waits for the copy; whether it waited until then, and waits for nothing now.
    pub fn release(&mut self, copy: u64) -> bool
        ensures released { self.new ≡ without_wait copy self.old }
        ensures freed { result ≡ (is_waiting self.old && waits_for_nothing self.new) }
    {
        let waited = !self.is_ready();
        remove(&mut self.waits, copy);
        waited && self.is_ready()
    }
}

/// Removes the copy from the waits.
fn remove(waits: &mut Vec<u64>, copy: u64)
    ensures { waits.new.items ≡ filter (λ wait. not (wait == copy)) waits.old.items }
{
    waits.retain(|wait| *wait != copy);
}
