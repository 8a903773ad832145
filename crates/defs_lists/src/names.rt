//! The names of objects, policies and parameters.
ghost use Rattle.std.specs.Prelude.{◌≡◌, ◌≢◌, [], ◌∷◌, ◌++◌, None, Some, false, is_some, IfOk, IfErr, IfSome, OnOk, if◌then◌else◌, nat_eq};
ghost use Rattle.std.specs.Cmp.Lexicographic.{pointwise};
ghost use Rattle.std.specs.Cmp.Rules.{comparing, hashing};
ghost use Rattle.std.specs.Hash as fed;
ghost use Rattle.std.proofs.Common.{rules};
ghost use Rattle.defs_lists.specs.Names as known;
ghost use Rattle.defs_values.specs.Paths.{whole_fault};

use defs_values::fault::{KeyFault, Refusal};
use defs_values::paths::at_item;
use indexmap::IndexSet;
use std::alloc::{AllocError, AllocFailed, Global};
use std::hash::{Hash, Hasher};
use std::marker::Model;

/// A text, seen as its octets.
#[derive(Debug, Drop)]
pub struct Word {
    inner: String,
}

impl Model for Word {
    ghost use Rattle.std.specs.Prelude.{List, ℕ, string_bytes};

    ghost Value = { List ℕ };

    ghost view = { λ w. string_bytes w.inner };
}

impl Word {
    /// A copy of the text.
    pub fn from_str(alloc: Global, text: &str) -> Result<Self, AllocError>
        ensures { IfOk result (λ word. word ≡ text.now) }
    {
        let inner = String::from_str(alloc, text)?;
        Ok(Word { inner })
    }

    /// The empty text.
    pub fn empty(alloc: Global) -> Self
        ensures { result ≡ [] }
    {
        Word {
            inner: String::new(alloc),
        }
    }

    /// The word as Rust's text.
    pub fn as_str(&self) -> &str
        ensures { result.now ≡ self.now }
    {
        self.inner.as_str()
    }
}

impl PartialEq for Word {
    ghost eq = { pointwise nat_eq };

    ghost laws = { Prim.search (comparing, rules) };

    fn eq(&self, other: &Word) -> bool {
        self.inner.as_str() == other.inner.as_str()
    }
}

impl Eq for Word {
    ghost laws = { Prim.search (comparing, rules) };
}

impl Hash for Word {
    ghost hash_input = { λ w. fed.str w };

    ghost respects_eq = { Prim.search (hashing, rules) };

    fn hash<H: Hasher>(&self, state: &mut H) {
        self.inner.as_str().hash(state);
    }
}

/// The name of an object, a policy or a parameter.
#[derive(Debug, PartialEq, Eq, Hash, Drop)]
pub struct Name {
    /// Its virtual host.
    pub vhost: Word,
    /// The component of a parameter, and empty for what is none.
    pub component: Word,
    /// The name itself.
    pub name: Word,
}

/// Names in their order, each once, and looked up by hash.
#[derive(Drop)]
pub struct Names {
    set: IndexSet<Name>,
}

impl Model for Names {
    ghost use Rattle.std.specs.Prelude.{List};
    ghost use Rattle.defs_lists.specs.declared.names.Name.{Name};

    ghost Value = { List Name };

    ghost view = { λ n. n.set.keys };
}

impl Names {
    /// No names.
    pub fn new(alloc: Global) -> Self
        ensures { result ≡ [] }
    {
        Names {
            set: IndexSet::new(alloc),
        }
    }

    /// The names as a slice.
    pub fn as_slice(&self) -> &[Name]
        ensures { result.now ≡ self.now }
    {
        self.set.as_slice()
    }

    /// Whether the name stands here.
    #[tactic(auto, unfolding(crate::specs::Names::has_name, crate::specs::Names::same_name))]
    pub fn has(&self, name: &Name) -> bool
        ensures { result ≡ known.has_name name.now self.now }
    {
        self.set.contains(name)
    }

    /// Puts a new name behind the others.
    pub fn add(&mut self, name: Name) -> Result<(), AllocFailed<Name>>
        requires { known.has_name name self.old ≡ false }
        ensures { OnOk result (self.new ≡ self.old ++ name ∷ []) }
    {
        self.note(name)
    }

    /// Puts a name behind the others if it is new.
    #[tactic(auto, unfolding(crate::specs::Names::has_name, crate::specs::Names::same_name))]
    pub fn note(&mut self, name: Name) -> Result<(), AllocFailed<Name>>
        ensures { OnOk result (self.new ≡ (if known.has_name name self.old then self.old else self.old ++ name ∷ [])) }
    {
        self.set.insert(name)?;
        Ok(())
    }

    /// The place of the name, where it stands here.
    #[tactic(auto, unfolding(crate::specs::Names::has_name, crate::specs::Names::same_name))]
    pub fn place_of(&self, name: &Name) -> Option<usize>
        ensures found { is_some result ≡ known.has_name name.now self.now }
        ensures place { IfSome result (λ place. place ≡ known.place_of name.now self.now) }
    {
        self.set.get_index_of(name)
    }
}

/// Items that are passed over.
#[derive(Drop)]
pub struct Passed {
    /// Their names, each once.
    pub names: Names,
    /// How many they are.
    pub count: u32,
}

/// Refuses an item whose name stands among those before it.
#[tactic(auto, unfolding(defs_values::specs::Paths::whole_fault))]
pub fn once(
    alloc: Global,
    names: &Names,
    name: &Name,
    list: &str,
    index: usize,
) -> Result<(), KeyFault>
    ensures new { OnOk result (known.has_name name.now names.now ≡ false) }
    ensures ok { OnOk result (whole_fault list.now index (known.has_name name.now names.now) ≡ None) }
    ensures fault { IfErr result (λ fault. fault ≢ KeyFault.Memory
        → whole_fault list.now index (known.has_name name.now names.now) ≡ Some fault) }
{
    if names.has(name) {
        return Err(at_item(alloc, list, index, Refusal::Shape));
    }
    Ok(())
}
