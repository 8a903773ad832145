//! Bindings.

ghost use Rattle.std.specs.Prelude.{◌≡◌, ◌↔◌, IsTrue, IfSome, IfNone, false, ◌+◌, ◌≤◌, not, filter, length, slice_get, vec_len, vec_capacity};
ghost use Rattle.std.specs.Cmp.{partial_equiv_from_equiv};
ghost use Rattle.std.specs.List.{Contains, list_any};
ghost use Rattle.std.specs.Option.{option_copied};
ghost use Rattle.field_tables.specs.View.{table_view};
ghost use Rattle.route_core.specs.Bindings.{binding_of, is_same as is_same_binding, leaves as binding_leaves, ends_with as binding_ends_with, has_binding as has_same};
ghost use Rattle.route_core.specs.SameBindings.{binding_laws};
ghost use Rattle.route_core.specs.Sources.{source_code as source_code_of, source_codes};

use crate::chains::{Chains, code_from};
use crate::object::{Sort, same_sort};
use amqp_props::{FieldTable, Text};
use field_tables::Table;
use std::alloc::{AllocError, Global};

/// A binding from an exchange to a queue or an exchange.
#[derive(Debug, Drop)]
pub struct Binding {
    /// The exchange that it leaves.
    pub source: Text,
    /// What it leads to.
    pub sort: Sort,
    /// The name of what it leads to.
    pub dest: Text,
    /// Its routing key.
    pub key: Text,
    /// Its arguments.
    pub args: FieldTable,
}

impl Clone for Binding {
    ghost is_clone = { λ binding copy. copy ≡ binding };

    fn clone(&self) -> Result<Self, AllocError> {
        let source = self.source.clone()?;
        let dest = self.dest.clone()?;
        let key = self.key.clone()?;
        let args = self.args.clone()?;
        Ok(Binding {
            source,
            sort: self.sort,
            dest,
            key,
            args,
        })
    }
}

impl PartialEq for Binding {
    ghost eq = { is_same_binding };

    ghost laws = { partial_equiv_from_equiv binding_laws };

    fn eq(&self, other: &Binding) -> bool
        ensures tested { result ≡ is_same_binding self.now other.now }
        ensures same { IsTrue result ↔ (self.now ≡ other.now) }
    {
        is_same(other, self.as_asked())
    }
}

impl Eq for Binding {
    ghost laws = { binding_laws };
}

/// The parts of a binding that is asked for.
#[derive(Clone, Copy)]
pub(crate) struct Asked<'a> {
    pub(crate) source: &'a str,
    pub(crate) sort: Sort,
    pub(crate) dest: &'a str,
    pub(crate) key: &'a str,
    pub(crate) args: &'a Table,
}

pub(crate) fn is_same(binding: &Binding, asked: Asked) -> bool
    ensures { result ≡ is_same_binding (binding_of asked.entry.source.now asked.entry.sort asked.entry.dest.now asked.entry.key.now (table_view asked.entry.args.now)) binding.now }
{
    binding.source.as_str() == asked.source
        && same_sort(binding.sort, asked.sort)
        && binding.dest.as_str() == asked.dest
        && binding.key.as_str() == asked.key
        && *binding.args.as_table() == *asked.args
}

impl Binding {
    ghost use Rattle.std.specs.Prelude.{◌≡◌, IfOk};
    ghost use Rattle.field_tables.specs.View.{table_view};
    ghost use Rattle.route_core.specs.Bindings.{binding_of};

    pub(crate) fn from_parts(alloc: Global, asked: Asked) -> Result<Self, AllocError>
        ensures { IfOk result (λ made. made ≡ binding_of asked.entry.source.now asked.entry.sort asked.entry.dest.now asked.entry.key.now (table_view asked.entry.args.now)) }
    {
        Ok(Binding {
            source: Text::from_str(alloc, asked.source)?,
            sort: asked.sort,
            dest: Text::from_str(alloc, asked.dest)?,
            key: Text::from_str(alloc, asked.key)?,
            args: FieldTable::new(alloc, asked.args.clone()?)?,
        })
    }

    pub(crate) fn as_asked(&self) -> Asked<'_>
        ensures { binding_of result.source.now result.sort result.dest.now result.key.now (table_view result.args.now) ≡ self.now }
    {
        Asked {
            source: self.source.as_str(),
            sort: self.sort,
            dest: self.dest.as_str(),
            key: self.key.as_str(),
            args: self.args.as_table(),
        }
    }
}

pub(crate) fn has_binding(bindings: &[Binding], asked: Asked) -> bool
    ensures { result ≡ has_same (binding_of asked.entry.source.now asked.entry.sort asked.entry.dest.now asked.entry.key.now (table_view asked.entry.args.now)) bindings.now }
{
    bindings.iter().any(|binding| is_same(binding, asked))
}

pub(crate) fn remove_binding(bindings: &mut Vec<Binding>, asked: Asked)
    ensures items { bindings.new.items ≡ filter (λ other. not (is_same_binding (binding_of asked.entry.source.now asked.entry.sort asked.entry.dest.now asked.entry.key.now (table_view asked.entry.args.now)) other)) bindings.old.items }
    ensures len { vec_len bindings.new ≤ vec_len bindings.old }
    ensures capacity { vec_capacity bindings.new ≡ vec_capacity bindings.old }
{
    bindings.retain(|binding| !is_same(binding, asked));
}

fn leaves(binding: &Binding, exchange: &str) -> bool
    ensures { result ≡ binding_leaves exchange.now binding.now }
{
    binding.source.as_str() == exchange
}

fn ends_with(binding: &Binding, sort: Sort, name: &str) -> bool
    ensures { result ≡ binding_ends_with sort name.now binding.now }
{
    same_sort(sort, Sort::Exchange) && leaves(binding, name)
        || same_sort(binding.sort, sort) && binding.dest.as_str() == name
}

/// Removes each binding that has an end there.
pub(crate) fn remove_ends(bindings: &mut Vec<Binding>, sort: Sort, name: &str)
    ensures items { bindings.new.items ≡ filter (λ other. not (binding_ends_with sort name.now other)) bindings.old.items }
    ensures len { vec_len bindings.new ≤ vec_len bindings.old }
    ensures capacity { vec_capacity bindings.new ≡ vec_capacity bindings.old }
{
    bindings.retain(|binding| !ends_with(binding, sort, name));
}

/// The last binding that leaves the exchange; only those that the chain of its name has are read.
pub(crate) fn last_from<'a>(
    bindings: &'a [Binding],
    sources: &Chains,
    exchange: &str,
) -> Option<&'a Binding>
    requires { sources.now.codes ≡ source_codes bindings.now }
    ensures some { IfSome result (λ b. Contains bindings.now b.now × (b.now.source ≡ exchange.now)) }
    ensures none { IfNone result (list_any (binding_leaves exchange.now) bindings.now ≡ false) }
{
    let mut at = sources.last(source_code(exchange));
    while at > 0 {
        let binding = &bindings[at - 1];
        if leaves(binding, exchange) {
            return Some(binding);
        }
        at = sources.before(at - 1);
    }
    None
}

/// The binding at that place among those from the exchange.
pub(crate) fn binding_at<'a>(
    bindings: &'a [Binding],
    exchange: &str,
    place: usize,
) -> Option<&'a Binding>
    ensures { option_copied result ≡ slice_get (filter (binding_leaves exchange.now) bindings.now) place }
{
    let mut left = place;
    for binding in bindings {
        if leaves(binding, exchange) {
            if left == 0 {
                return Some(binding);
            }
            left -= 1;
        }
    }
    None
}

/// The code of the name of an exchange.
pub(crate) fn source_code(exchange: &str) -> u64
    ensures { result ≡ source_code_of exchange.now }
{
    code_from(0, exchange)
}

/// Chains the bindings anew by the exchanges that they leave, in the room that is there.
pub(crate) fn chain_sources(sources: &mut Chains, bindings: &[Binding])
    requires room { length bindings.now ≤ length sources.old.codes + sources.old.spare }
    ensures codes { sources.new.codes ≡ source_codes bindings.now }
    ensures spare { sources.new.spare + length bindings.now ≡ sources.old.spare + length sources.old.codes }
{
    sources.clear();
    for binding in bindings {
        sources.push(source_code(binding.source.as_str()));
    }
}
