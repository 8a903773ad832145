// Where connections come in.
ghost use Rattle.std.specs.Prelude.{◌≡◌, ◌+◌, ◌<◌, ◌≤◌, ℕ, List, Option, IsSome, IfSome, IfNone};
ghost use Rattle.std.specs.Bool.{OnFalse};
ghost use Rattle.fed_outside.specs.Outside.{Rose, GivenBack, IsUntouched, with_back};

use crate::Peer;

/// Gives the peers that connect, and takes each back when its connection is to be closed.
pub trait Door {
    type Peer: Peer;

    /// How many calls of `open` and `accept` failed. It never falls.
    ghost faults: { Self → ℕ };

    /// How many peers that had faults were given back. It never falls.
    ghost peer_faults: { Self → ℕ };

    /// How many peers the door gave that it wasn't given back.
    ghost peers_out: { Self → ℕ };

    /// The peers given back, in order and as they were then, where the door tells them.
    ghost told: { Self → Option (List GivenBack) };

    /// Opens the port, and answers whether it is open.
    fn open(&mut self, port: u16) -> bool
        ensures failed { OnFalse result (Rose (faults self.old) (faults self.new)) }
        ensures later { faults self.old ≤ faults self.new }
        ensures peer_faults { peer_faults self.new ≡ peer_faults self.old }
        ensures peers_out { peers_out self.new ≡ peers_out self.old }
        ensures told { told self.new ≡ told self.old };

    /// The next peer, of which nothing was read and to which nothing was written. It is to be given back once.
    fn accept(&mut self) -> Option<Self::Peer>
        ensures no_faults { IfSome result (λ peer. Self.Peer.faults peer ≡ 0) }
        ensures untouched { IfSome result (λ peer. IsUntouched (Self.Peer.told peer)) }
        ensures telling { IfSome result (λ peer. IsSome (told self.old) → IsSome (Self.Peer.told peer)) }
        ensures out { IfSome result (λ _. peers_out self.new ≡ peers_out self.old + 1) }
        ensures not_out { IfNone result (peers_out self.new ≡ peers_out self.old) }
        ensures failed { IfNone result (Rose (faults self.old) (faults self.new)) }
        ensures later { faults self.old ≤ faults self.new }
        ensures peer_faults { peer_faults self.new ≡ peer_faults self.old }
        ensures told { told self.new ≡ told self.old };

    /// Closes a peer. It takes no memory.
    fn back(&mut self, peer: Self::Peer)
        requires { 0 < peers_out self.old }
        ensures told { told self.new ≡ with_back (told self.old) (Self.Peer.faults peer) (Self.Peer.told peer) }
        ensures out { peers_out self.new + 1 ≡ peers_out self.old }
        ensures no_fault { Self.Peer.faults peer ≡ 0 → peer_faults self.new ≡ peer_faults self.old }
        ensures fault { 0 < Self.Peer.faults peer → Rose (peer_faults self.old) (peer_faults self.new) }
        ensures later { peer_faults self.old ≤ peer_faults self.new }
        ensures faults { faults self.new ≡ faults self.old };
}
