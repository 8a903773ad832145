//! Octets and field tables, which contracts see as lists and pairs without where they lie in memory, and what may be absent.
ghost use Rattle.std.specs.Prelude.{◌≡◌, ◌↔◌, IsTrue, List, ℕ, IfOk, string_bytes, nat_eq};
ghost use Rattle.std.specs.Cmp.Lexicographic.{pointwise};
ghost use Rattle.std.specs.Cmp.Rules.{comparing};
ghost use Rattle.std.proofs.Common.{rules};
ghost use Rattle.std.specs.Cmp.{partial_equiv_from_equiv};
ghost use Rattle.field_tables.specs.Same.{same_pairs};
ghost use Rattle.field_tables.specs.SameLaws.{one_table_laws};
ghost use Rattle.field_tables.specs.View.{table_view};
ghost use Rattle.amqp_props.specs.Same.{same_text, same_table};

use field_tables::{Table, Text};
use std::alloc::{AllocError, Global};
use std::marker::Model;
use std::rc::Rc;

/// The body of a message: octets, seen as their list. A clone shares them.
#[derive(Debug, Drop)]
pub struct Octets {
    inner: Rc<Vec<u8>>,
}

impl Model for Octets {
    ghost use Rattle.std.specs.Prelude.{List, ℕ};

    ghost Value = { List ℕ };

    ghost view = { λ o. o.inner.value.items };
}

impl Octets {
    /// The octets of a vector.
    pub fn new(alloc: Global, octets: Vec<u8>) -> Result<Self, AllocError>
        ensures { IfOk result (λ o. o ≡ octets.items) }
    {
        let inner = Rc::new(alloc, octets)?;
        Ok(Octets { inner })
    }

    /// The octets as a slice.
    pub fn as_slice(&self) -> &[u8]
        ensures { result.now ≡ self.now }
    {
        self.inner.as_slice()
    }
}

impl Clone for Octets {
    ghost is_clone = { λ o copy. copy ≡ o };

    fn clone(&self) -> Result<Self, AllocError> {
        let inner = self.inner.clone()?;
        Ok(Octets { inner })
    }
}

impl PartialEq for Octets {
    ghost eq = { pointwise nat_eq };

    ghost laws = { Prim.search (comparing, rules) };

    fn eq(&self, other: &Octets) -> bool {
        self.inner.as_slice() == other.inner.as_slice()
    }
}

impl Eq for Octets {
    ghost laws = { Prim.search (comparing, rules) };
}

/// A field table, seen as its names and values. A clone shares them.
#[derive(Debug, Drop)]
pub struct FieldTable {
    inner: Rc<Table>,
}

impl Model for FieldTable {
    ghost use Rattle.field_tables.specs.Fields.{Pairs};
    ghost use Rattle.amqp_props.specs.Codes.{coded_pairs};
    ghost use Rattle.std.specs.Cmp.{partial_equiv_from_equiv};
    ghost use Rattle.field_tables.specs.Same.{same_pairs};
    ghost use Rattle.field_tables.specs.SameLaws.{one_table_laws};
    ghost use Rattle.field_tables.specs.View.{table_view};

    ghost Value = { Pairs };

    ghost coded = { coded_pairs };

    ghost view = { λ t. table_view t.inner.value };
}

impl FieldTable {
    /// The field table of a table.
    ///
    /// # Errors
    ///
    /// For want of memory.
    pub fn new(alloc: Global, table: Table) -> Result<Self, AllocError>
        ensures { IfOk result (λ made. made ≡ table_view table) }
    {
        match Rc::new(alloc, table) {
            Ok(inner) => Ok(FieldTable { inner }),
            Err(_) => Err(AllocError),
        }
    }

    /// The table itself.
    pub fn as_table(&self) -> &Table
        ensures { table_view result.now ≡ self.now }
    {
        self.inner.as_ref()
    }
}

impl Clone for FieldTable {
    ghost is_clone = { λ t copy. copy ≡ t };

    fn clone(&self) -> Result<Self, AllocError> {
        let inner = self.inner.clone()?;
        Ok(FieldTable { inner })
    }
}

impl PartialEq for FieldTable {
    ghost eq = { same_pairs };

    ghost laws = { partial_equiv_from_equiv one_table_laws };

    fn eq(&self, other: &FieldTable) -> bool
        ensures tested { result ≡ same_pairs self.now other.now }
        ensures same { IsTrue result ↔ (self.now ≡ other.now) }
    {
        *self.as_table() == *other.as_table()
    }
}

impl Eq for FieldTable {
    ghost laws = { one_table_laws };
}

/// A copy of a text that may be absent.
pub(crate) fn copy_text(text: &Option<Text>) -> Result<Option<Text>, AllocError>
    ensures { IfOk result (λ copy. copy ≡ text.now) }
{
    match text {
        Some(text) => Ok(Some(text.clone()?)),
        None => Ok(None),
    }
}

/// A copy of a field table that may be absent.
pub(crate) fn copy_table(table: &Option<FieldTable>) -> Result<Option<FieldTable>, AllocError>
    ensures { IfOk result (λ copy. copy ≡ table.now) }
{
    match table {
        Some(table) => Ok(Some(table.clone()?)),
        None => Ok(None),
    }
}

/// Whether two texts that may be absent are the same.
pub(crate) fn same_text(one: &Option<Text>, other: &Option<Text>) -> bool
    ensures { result ≡ same_text one.now other.now }
{
    match (one, other) {
        (Some(one), Some(other)) => *one == *other,
        (None, None) => true,
        _ => false,
    }
}

/// Whether two field tables that may be absent are the same.
pub(crate) fn same_table(one: &Option<FieldTable>, other: &Option<FieldTable>) -> bool
    ensures { result ≡ same_table one.now other.now }
{
    match (one, other) {
        (Some(one), Some(other)) => *one == *other,
        (None, None) => true,
        _ => false,
    }
}
