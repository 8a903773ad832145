//! Names, which contracts see as the lists of their octets.
ghost use Rattle.std.specs.Prelude.{◌≡◌, ◌<◌, ◌^◌, length};

use amqp_props::Text;
use std::marker::Model;

/// Names in order, fewer than 2^32, seen as their list.
#[derive(Drop)]
pub struct Names {
    inner: Vec<Text>,
}

impl Model for Names {
    ghost use Rattle.std.specs.Prelude.{List, ℕ, ◌<◌, ◌^◌, length};

    ghost Value = { List (List ℕ) };

    ghost view = { λ n. n.inner.items };

    ghost invariant = { λ n. length n.inner.items < 2 ^ 32 };
}

impl Names {
    /// The names of a vector.
    pub fn new(inner: Vec<Text>) -> Self
        requires { length inner.items < 2 ^ 32 }
        ensures { result ≡ inner.items }
    {
        Names { inner }
    }

    /// The names as a slice.
    pub fn as_slice(&self) -> &[Text]
        ensures { result.now ≡ self.now }
    {
        self.inner.as_slice()
    }

    /// How many names there are.
    pub fn count(&self) -> u64
        ensures same { result ≡ length self.now }
        ensures few { result < 2 ^ 32 }
    {
        self.inner.len() as u64
    }
}
