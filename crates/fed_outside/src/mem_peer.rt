// A peer in memory.
ghost use Rattle.std.specs.Prelude.{◌≡◌, ◌-◌, ◌<◌, ◌≤◌, ◌↔◌, [], ◌++◌, length, take, drop, min, vec_len, vec_capacity, Some, is_some, IsSome, IsNone, IfOk, IfSome, IfNone, not, true};
ghost use Rattle.fed_outside.specs.Plan.{planned, judged};

use crate::Peer;
use crate::mem_sink::let_out_into;
use crate::plan::{CallPlan, FailingCall};
use std::alloc::{AllocError, Global};
use std::marker::Model;

/// A peer over memory, with its whole input and with room for what is written. A read gives all that fits into the
/// slice. A piece past the room is a fault, and so are the calls that are to fail. There is no other fault.
#[derive(Drop)]
pub struct MemPeer {
    input: Vec<u8>,
    at: usize,
    written: Vec<u8>,
    room: usize,
    plan: CallPlan,
}

impl Model for MemPeer {
    ghost use Rattle.std.specs.Prelude.{◌≤◌, take, drop, vec_len, vec_capacity};
    ghost use Rattle.fed_outside.specs.Fakes.{PeerState};

    ghost Value = { PeerState };

    ghost view = { λ p. record {
      traffic = record { read = take p.at p.input.items; left = drop p.at p.input.items; written = p.written.items };
      room = p.room;
      plan = p.plan;
    } };

    ghost invariant = { λ p. record {
      at : p.at ≤ vec_len p.input;
      within : vec_len p.written ≤ p.room;
      room : p.room ≤ vec_capacity p.written;
    } };
}

// Copies what fits to the front of the slice, and says how many octets that was.
fn copy_front(from: &[u8], into: &mut [u8]) -> usize
    ensures count { result ≡ min (length from.now) (length into.old) }
    ensures copied { into.new ≡ take result from.now ++ drop result into.old }
{
    let n = from.len().min(into.len());
    into[..n].copy_from_slice(&from[..n]);
    n
}

impl MemPeer {
    /// A peer that has this input to give, and takes up to `room` octets.
    pub fn new(
        alloc: Global,
        input: Vec<u8>,
        room: usize,
        failing: Vec<FailingCall>,
    ) -> Result<Self, AllocError>
        ensures { IfOk result (λ peer. peer ≡ record {
          traffic = record { read = []; left = input.items; written = [] };
          room = room;
          plan = record { failing = failing.items; calls = 0; faults = 0 };
        }) }
    {
        Ok(MemPeer {
            input,
            at: 0,
            written: Vec::with_capacity(alloc, room)?,
            room,
            plan: CallPlan::new(failing),
        })
    }

    /// The octets that were read.
    pub fn octets_read(&self) -> &[u8]
        ensures { result.now ≡ self.now.traffic.read }
    {
        &self.input[..self.at]
    }

    /// The octets that are left to read.
    pub fn octets_left(&self) -> &[u8]
        ensures { result.now ≡ self.now.traffic.left }
    {
        &self.input[self.at..]
    }

    /// The octets that were written.
    pub fn octets_written(&self) -> &[u8]
        ensures { result.now ≡ self.now.traffic.written }
    {
        &self.written
    }

    /// How many calls failed.
    pub fn faults(&self) -> u64
        ensures { result ≡ self.now.plan.faults }
    {
        self.plan.faults()
    }
}

impl Peer for MemPeer {
    ghost use Rattle.fed_outside.specs.Fakes.{peer_after_read, peer_after_write, is_fault};

    ghost faults = { λ p. p.plan.faults };

    ghost told = { λ p. Some p.traffic };

    fn read(&mut self, into: &mut [u8]) -> Option<usize>
        requires { 0 < length into.old }

        ensures fault { IsNone result ↔ IsSome (planned self.old.plan) }
        ensures count { IfSome result (λ n. n ≡ min (length self.old.traffic.left) (length into.old)) }
        ensures copied { IfSome result (λ n. into.new ≡ take n self.old.traffic.left ++ drop n into.old) }
        ensures after { IfSome result (λ n. self.new ≡ peer_after_read n self.old) }
        ensures after_fault { IfNone result (self.new ≡ record self.old { plan = judged true self.old.plan }) }

        ensures later { self.old.plan.faults ≤ self.new.plan.faults }
    {
        let is_fault = self.plan.planned().is_some();
        self.plan.count(is_fault);
        if is_fault {
            return None;
        }
        let n = copy_front(&self.input[self.at..], into);
        self.at += n;
        Some(n)
    }

    fn write(&mut self, piece: &[u8]) -> bool
        ensures after { self.new ≡ peer_after_write self.old piece.now }
        ensures fault { result ≡ not (is_fault (planned self.old.plan) (self.old.room - length self.old.traffic.written) piece.now) }

        ensures later { self.old.plan.faults ≤ self.new.plan.faults }
    {
        let planned = self.plan.planned();
        let is_fault = let_out_into(&mut self.written, self.room, planned, piece);
        self.plan.count(is_fault);
        !is_fault
    }
}
