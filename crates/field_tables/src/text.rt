//! Names and keys, which contracts see as the lists of their octets.

ghost use Rattle.std.specs.Prelude.{◌≡◌, List, ℕ, IfOk, string_bytes, nat_eq};
ghost use Rattle.std.specs.Cmp.Lexicographic.{pointwise};
ghost use Rattle.std.specs.Cmp.Rules.{comparing, hashing};
ghost use Rattle.std.specs.Hash as fed;
ghost use Rattle.std.proofs.Common.{rules};

use std::alloc::{AllocError, AllocFailed, Global};
use std::hash::{Hash, Hasher};
use std::marker::Model;
use std::rc::Rc;

/// A name or a key: UTF-8 text, seen as its octets. A clone shares them.
#[derive(Debug, Drop)]
pub struct Text {
    inner: Rc<String>,
}

impl Model for Text {
    ghost use Rattle.std.specs.Prelude.{List, ℕ, string_bytes};

    ghost Value = { List ℕ };

    ghost view = { λ t. string_bytes t.inner.value };
}

impl Text {
    /// The text of a string.
    ///
    /// # Errors
    ///
    /// For want of memory.
    pub fn new(alloc: Global, inner: String) -> Result<Self, AllocError>
        ensures { IfOk result (λ text. text ≡ string_bytes inner) }
    {
        match Rc::new(alloc, inner) {
            Ok(inner) => Ok(Text { inner }),
            Err(_) => Err(AllocError),
        }
    }

    /// A text of these octets.
    ///
    /// # Errors
    ///
    /// For want of memory.
    pub fn from_str(alloc: Global, text: &str) -> Result<Self, AllocError>
        ensures { IfOk result (λ copy. copy ≡ text.now) }
    {
        let inner = String::from_str(alloc, text)?;
        Text::new(alloc, inner)
    }

    /// The text as Rust's.
    pub fn as_str(&self) -> &str
        ensures { result.now ≡ self.now }
    {
        self.inner.as_ref().as_str()
    }
}

impl Clone for Text {
    ghost is_clone = { λ t copy. copy ≡ t };

    fn clone(&self) -> Result<Self, AllocError> {
        let inner = self.inner.clone()?;
        Ok(Text { inner })
    }
}

impl PartialEq for Text {
    ghost eq = { pointwise nat_eq };

    ghost laws = { Prim.search (comparing, rules) };

    fn eq(&self, other: &Text) -> bool {
        self.inner.as_ref().as_str() == other.inner.as_ref().as_str()
    }
}

impl Eq for Text {
    ghost laws = { Prim.search (comparing, rules) };
}

impl Hash for Text {
    ghost hash_input = { λ t. fed.str t };

    ghost respects_eq = { Prim.search (hashing, rules) };

    fn hash<H: Hasher>(&self, state: &mut H) {
        self.inner.as_ref().as_str().hash(state);
    }
}
