// The calls of a fake that are to fail.
ghost use Rattle.std.specs.Prelude.{◌≡◌, ◌≤◌};

use std::marker::Model;

/// A call of a fake that is to fail.
#[derive(Clone, Copy, PartialEq, Eq)]
pub struct FailingCall {
    /// The number of the call, from 1.
    pub call: u64,
    /// How many octets of the piece go out first, in a call that puts or writes one.
    pub octets: usize,
}

/// Counts the calls of a fake, and those that were faults.
#[derive(Drop)]
pub struct CallPlan {
    failing: Vec<FailingCall>,
    calls: u64,
    faults: u64,
}

impl Model for CallPlan {
    ghost use Rattle.std.specs.Prelude.{◌<◌, ◌^◌};
    ghost use Rattle.fed_outside.specs.Plan.{Plan};

    ghost Value = { Plan };

    ghost view = { λ p. record { failing = p.failing.items; calls = p.calls; faults = p.faults } };

    ghost invariant = { λ p. (p.calls < 2 ^ 64) × (p.faults < 2 ^ 64) };
}

impl CallPlan {
    ghost use Rattle.fed_outside.specs.Plan.{planned, judged};

    /// No call was made yet.
    pub fn new(failing: Vec<FailingCall>) -> Self
        ensures { result ≡ record { failing = failing.items; calls = 0; faults = 0 } }
    {
        CallPlan {
            failing,
            calls: 0,
            faults: 0,
        }
    }

    /// How many calls were faults.
    pub fn faults(&self) -> u64
        ensures { result ≡ self.now.faults }
    {
        self.faults
    }

    /// How many octets the next call lets out first, if it is to fail.
    pub fn planned(&self) -> Option<usize>
        ensures { result ≡ planned self.now }
    {
        let call = self.calls.saturating_add(1);
        self.failing
            .iter()
            .find(|f| f.call == call)
            .map(|f| f.octets)
    }

    /// Counts a call, and a fault if it was one.
    pub fn count(&mut self, is_fault: bool)
        ensures after { self.new ≡ judged is_fault self.old }
        ensures later { self.old.faults ≤ self.new.faults }
    {
        self.calls = self.calls.saturating_add(1);
        if is_fault {
            self.faults = self.faults.saturating_add(1);
        }
    }
}
