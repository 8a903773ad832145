//! Lists that contracts see as such, and patterns that they see as their texts.
ghost use Rattle.std.specs.Prelude.{◌≡◌, [], ◌∷◌, ◌++◌, IfOk, OnOk};
ghost use Rattle.policy_core.specs.Patterns.{is_found};

use policy_core::Pattern;
use std::alloc::{AllocError, AllocFailed, Global};
use std::marker::Model;
use std::rc::Rc;

/// Items in their order, which contracts see as a list.
#[derive(Drop)]
pub struct Sequence<T> {
    inner: Vec<T>,
}

impl<T> Model for Sequence<T> {
    ghost use Rattle.std.specs.Prelude.{List};

    ghost Value = { List T };

    ghost view = { λ s. s.inner.items };
}

impl<T> Sequence<T> {
    /// The items of a vector.
    pub fn new(inner: Vec<T>) -> Self
        ensures { result ≡ inner.items }
    {
        Sequence { inner }
    }

    /// The items as a slice.
    pub fn as_slice(&self) -> &[T]
        ensures { result.now ≡ self.now }
    {
        self.inner.as_slice()
    }

    /// Puts an item behind the others.
    pub fn push(&mut self, item: T) -> Result<(), AllocFailed<T>>
        ensures { OnOk result (self.new ≡ self.old ++ item ∷ []) }
    {
        self.inner.push(item)
    }
}

/// A pattern that a configuration shares with its copies, seen as its text.
#[derive(Drop)]
pub struct SharedPattern {
    inner: Rc<Pattern>,
}

impl Model for SharedPattern {
    ghost use Rattle.std.specs.Prelude.{List, ℕ};

    ghost Value = { List ℕ };

    ghost view = { λ p. p.inner.value };
}

impl SharedPattern {
    /// A pattern to be shared.
    pub fn new(alloc: Global, pattern: Pattern) -> Result<Self, AllocError>
        ensures { IfOk result (λ shared. shared ≡ pattern) }
    {
        let inner = Rc::new(alloc, pattern)?;
        Ok(SharedPattern { inner })
    }

    /// The text that the pattern was built from.
    pub fn text(&self) -> &str
        ensures { result.now ≡ self.now }
    {
        self.inner.text()
    }

    /// Whether the pattern is found in the name. Fails only by memory.
    pub fn found(&self, alloc: Global, name: &str) -> Result<bool, AllocError>
        ensures { IfOk result (λ found. found ≡ is_found self.now name.now) }
    {
        self.inner.found(alloc, name)
    }

    /// The pattern itself, shared.
    pub fn share(&self) -> Result<Rc<Pattern>, AllocError>
        ensures { IfOk result (λ shared. shared.value ≡ self.now) }
    {
        self.inner.clone()
    }
}

impl Clone for SharedPattern {
    ghost is_clone = { λ pattern copy. copy ≡ pattern };

    fn clone(&self) -> Result<Self, AllocError> {
        let inner = self.inner.clone()?;
        Ok(SharedPattern { inner })
    }
}
