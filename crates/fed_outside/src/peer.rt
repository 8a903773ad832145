// The other side of a connection.
ghost use Rattle.std.specs.Prelude.{◌≡◌, ◌<◌, ◌≤◌, ℕ, Option, Some, IfSome, IfNone, option_map, length, take};
ghost use Rattle.std.specs.Bool.{OnTrue, OnFalse};
ghost use Rattle.fed_outside.specs.Outside.{Rose, Traffic, advanced, written_on, AreNext, IsAtEnd, WrittenByPrefix};

/// A connection as this side has it: octets come from it and go to it.
pub trait Peer {
    /// How many calls failed. It never falls.
    ghost faults: { Self → ℕ };

    /// The octets read, those left and those written, where the peer tells them.
    ghost told: { Self → Option Traffic };

    /// Reads the next octets of the input into the front of the slice, and gives their number. None at all are the end
    /// of input. At a fault it gives `None`, and nothing was taken.
    fn read(&mut self, into: &mut [u8]) -> Option<usize>
        requires { 0 < length into.old }
        ensures within { IfSome result (λ n. n ≤ length into.old) }
        ensures next { IfSome result (λ n. AreNext (take n into.new) (told self.old)) }
        ensures advanced { IfSome result (λ n. told self.new ≡ option_map (advanced n) (told self.old)) }
        ensures end { result ≡ Some 0 → IsAtEnd (told self.old) }
        ensures nothing_taken { IfNone result (told self.new ≡ told self.old) }
        ensures failed { IfNone result (Rose (faults self.old) (faults self.new)) }
        ensures later { faults self.old ≤ faults self.new };

    /// Writes the piece, and answers whether all of it went out. At a fault a prefix of it went out.
    fn write(&mut self, piece: &[u8]) -> bool
        ensures whole { OnTrue result (told self.new ≡ option_map (written_on piece.now) (told self.old)) }
        ensures part { OnFalse result (WrittenByPrefix (told self.old) (told self.new) piece.now) }
        ensures failed { OnFalse result (Rose (faults self.old) (faults self.new)) }
        ensures later { faults self.old ≤ faults self.new };
}
