// A sink in memory.
ghost use Rattle.std.specs.Prelude.{◌≡◌, ◌-◌, ◌≤◌, [], ◌++◌, length, take, vec_len, vec_capacity, Some, IfOk, not};
ghost use Rattle.fed_outside.specs.Fakes.{most_out, is_fault};
ghost use Rattle.fed_outside.specs.Plan.{planned};

use crate::Sink;
use crate::plan::{CallPlan, FailingCall};
use std::alloc::{AllocError, Global};
use std::marker::Model;

/// A sink over memory, with room that is made at the start. A piece past the room is a fault, and so are the calls that
/// are to fail. There is no other fault.
#[derive(Drop)]
pub struct MemSink {
    octets: Vec<u8>,
    room: usize,
    plan: CallPlan,
}

impl Model for MemSink {
    ghost use Rattle.std.specs.Prelude.{◌≤◌, vec_len, vec_capacity};
    ghost use Rattle.fed_outside.specs.Fakes.{SinkState};

    ghost Value = { SinkState };

    ghost view = { λ s. record { octets = s.octets.items; room = s.room; plan = s.plan } };

    ghost invariant = { λ s. (vec_len s.octets ≤ s.room) × (s.room ≤ vec_capacity s.octets) };
}

// Lets out of the piece what is planned and fits. Answers whether that was a fault.
pub(crate) fn let_out_into(
    octets: &mut Vec<u8>,
    room: usize,
    planned: Option<usize>,
    piece: &[u8],
) -> bool
    requires within { vec_len octets.old ≤ room }
    requires room { room ≤ vec_capacity octets.old }
    ensures octets { octets.new.items ≡ octets.old.items ++ take (most_out planned (room - vec_len octets.old)) piece.now }
    ensures fault { result ≡ is_fault planned (room - vec_len octets.old) piece.now }
    ensures within { vec_len octets.new ≤ room }
    ensures room { room ≤ vec_capacity octets.new }
{
    let fits = room - octets.len();
    let goes = match planned {
        None => fits,
        Some(first) => first.min(fits),
    };
    let goes = goes.min(piece.len());
    match octets.extend_from_slice(&piece[..goes]) {
        Ok(()) => planned.is_some() || fits < piece.len(),
        Err(_) => unreachable!(),
    }
}

impl MemSink {
    /// An empty sink that takes up to `room` octets.
    pub fn new(alloc: Global, room: usize, failing: Vec<FailingCall>) -> Result<Self, AllocError>
        ensures { IfOk result (λ sink. sink ≡ record {
          octets = [];
          room = room;
          plan = record { failing = failing.items; calls = 0; faults = 0 };
        }) }
    {
        Ok(MemSink {
            octets: Vec::with_capacity(alloc, room)?,
            room,
            plan: CallPlan::new(failing),
        })
    }

    /// What went out.
    pub fn octets(&self) -> &[u8]
        ensures { result.now ≡ self.now.octets }
    {
        &self.octets
    }

    /// How many calls failed.
    pub fn faults(&self) -> u64
        ensures { result ≡ self.now.plan.faults }
    {
        self.plan.faults()
    }
}

impl Sink for MemSink {
    ghost use Rattle.fed_outside.specs.Fakes.{sink_after, is_fault};

    ghost faults = { λ s. s.plan.faults };

    ghost told = { λ s. Some s.octets };

    ghost puts = { λ s. Some s.plan.calls };

    fn put(&mut self, piece: &[u8]) -> bool
        ensures after { self.new ≡ sink_after self.old piece.now }
        ensures fault { result ≡ not (is_fault (planned self.old.plan) (self.old.room - length self.old.octets) piece.now) }
        ensures later { self.old.plan.faults ≤ self.new.plan.faults }
    {
        let planned = self.plan.planned();
        let is_fault = let_out_into(&mut self.octets, self.room, planned, piece);
        self.plan.count(is_fault);
        !is_fault
    }
}
