// A door in memory.
ghost use Rattle.std.specs.Prelude.{◌≡◌, ◌+◌, ◌-◌, ◌<◌, ◌≤◌, ◌↔◌, ◌⊎◌, [], ◌∷◌, map, All, Some, is_some, IsSome, IsNone, IfOk, IfSome, IfNone, not, true, false};
ghost use Rattle.fed_outside.specs.Outside.{IsUntouched};
ghost use Rattle.fed_outside.specs.Plan.{planned, judged};

use crate::plan::{CallPlan, FailingCall};
use crate::{Door, MemPeer};
use std::alloc::{AllocError, Global};
use std::collections::VecDeque;
use std::marker::Model;

/// A door over memory. It gives the peers that it was made with, in order, and keeps those that it is given back. Calls
/// of `open` and `accept` are counted together. Those that are to fail are faults, and so is an `accept` where no peer
/// is left. There is no other fault.
#[derive(Drop)]
pub struct MemDoor {
    waiting: VecDeque<MemPeer>,
    given_back: Vec<MemPeer>,
    out: usize,
    peer_faults: u64,
    plan: CallPlan,
}

impl Model for MemDoor {
    ghost use Rattle.std.specs.Prelude.{◌+◌, ◌≤◌, ◌<◌, ◌^◌, All, vec_len, vec_capacity};
    ghost use Rattle.std.specs.VecDeque.{deque_len};
    ghost use Rattle.fed_outside.specs.Fakes.{DoorState, IsFresh};

    ghost Value = { DoorState };

    ghost view = { λ d. record {
      waiting = d.waiting.items;
      given_back = d.given_back.items;
      out = d.out;
      peer_faults = d.peer_faults;
      plan = d.plan;
    } };

    ghost invariant = { λ d. record {
      fresh : All IsFresh d.waiting.items;
      room : vec_len d.given_back + d.out + deque_len d.waiting ≤ vec_capacity d.given_back;
      peer_faults : d.peer_faults < 2 ^ 64;
    } };
}

impl MemDoor {
    ghost use Rattle.fed_outside.specs.Fakes.{IsFresh};

    /// A door that has these peers to give.
    pub fn new(
        alloc: Global,
        peers: Vec<MemPeer>,
        failing: Vec<FailingCall>,
    ) -> Result<Self, AllocError>
        requires { All IsFresh peers.items }
        ensures { IfOk result (λ door. door ≡ record {
          waiting = peers.items;
          given_back = [];
          out = 0;
          peer_faults = 0;
          plan = record { failing = failing.items; calls = 0; faults = 0 };
        }) }
    {
        Ok(MemDoor {
            given_back: Vec::with_capacity(alloc, peers.len())?,
            waiting: VecDeque::from_vec(peers),
            out: 0,
            peer_faults: 0,
            plan: CallPlan::new(failing),
        })
    }

    /// The peers that the door was given back, in order.
    pub fn given_back(&self) -> &[MemPeer]
        ensures { result.now ≡ self.now.given_back }
    {
        &self.given_back
    }

    /// How many calls of `open` and `accept` failed.
    pub fn faults(&self) -> u64
        ensures { result ≡ self.now.plan.faults }
    {
        self.plan.faults()
    }

    /// How many peers that had faults were given back.
    pub fn peer_faults(&self) -> u64
        ensures { result ≡ self.now.peer_faults }
    {
        self.peer_faults
    }
}

impl Door for MemDoor {
    type Peer = MemPeer;

    ghost use Rattle.fed_outside.specs.Fakes.{door_after_back, parting};

    ghost faults = { λ d. d.plan.faults };

    ghost peer_faults = { λ d. d.peer_faults };

    ghost peers_out = { λ d. d.out };

    ghost told = { λ d. Some (map parting d.given_back) };

    fn open(&mut self, port: u16) -> bool
        ensures fault { result ≡ not (is_some (planned self.old.plan)) }
        ensures after { self.new ≡ record self.old { plan = judged (is_some (planned self.old.plan)) self.old.plan } }

        ensures later { self.old.plan.faults ≤ self.new.plan.faults }
    {
        let is_fault = self.plan.planned().is_some();
        self.plan.count(is_fault);
        !is_fault
    }

    fn accept(&mut self) -> Option<MemPeer>
        ensures fault { IsNone result ↔ (IsSome (planned self.old.plan) ⊎ (self.old.waiting ≡ [])) }
        ensures first { IfSome result (λ peer. self.old.waiting ≡ peer ∷ self.new.waiting) }
        ensures after { IfSome result (λ _. self.new ≡ record self.old {
          waiting = self.new.waiting;
          out = self.old.out + 1;
          plan = judged false self.old.plan;
        }) }
        ensures after_fault { IfNone result (self.new ≡ record self.old { plan = judged true self.old.plan }) }

        ensures no_faults { IfSome result (λ peer. peer.plan.faults ≡ 0) }
        ensures untouched { IfSome result (λ peer. IsUntouched (Some peer.traffic)) }
        ensures later { self.old.plan.faults ≤ self.new.plan.faults }
    {
        if self.plan.planned().is_some() {
            self.plan.count(true);
            return None;
        }
        match self.waiting.pop_front() {
            None => {
                self.plan.count(true);
                None
            }
            Some(peer) => {
                self.plan.count(false);
                self.out += 1;
                Some(peer)
            }
        }
    }

    fn back(&mut self, peer: MemPeer)
        requires { 0 < self.old.out }
        ensures after { self.new ≡ door_after_back self.old peer }

        ensures later { self.old.peer_faults ≤ self.new.peer_faults }
    {
        if peer.faults() > 0 {
            self.peer_faults = self.peer_faults.saturating_add(1);
        }
        self.given_back.push_reserved(peer);
        self.out -= 1;
    }
}
