// Where text and octets are put.
ghost use Rattle.std.specs.Prelude.{◌≡◌, ◌≤◌, ℕ, List, Option};
ghost use Rattle.std.specs.Bool.{OnTrue, OnFalse};
ghost use Rattle.fed_outside.specs.Outside.{Rose, grown, GrownByPrefix, once_more};

/// What octets are put into, as standard output.
pub trait Sink {
    /// How many calls failed. It never falls.
    ghost faults: { Self → ℕ };

    /// The octets that went out, where the sink tells them.
    ghost told: { Self → Option (List ℕ) };

    /// How many puts there were, where the sink tells that. It stays at the limit of 64 bits.
    ghost puts: { Self → Option ℕ };

    /// Puts the piece, and answers whether all of it went out. At a fault a prefix of it went out.
    fn put(&mut self, piece: &[u8]) -> bool
        ensures whole { OnTrue result (told self.new ≡ grown (told self.old) piece.now) }
        ensures part { OnFalse result (GrownByPrefix (told self.old) (told self.new) piece.now) }
        ensures failed { OnFalse result (Rose (faults self.old) (faults self.new)) }
        ensures later { faults self.old ≤ faults self.new }
        ensures puts { puts self.new ≡ once_more (puts self.old) };
}
