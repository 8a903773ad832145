//! The upstreams and the sets of a virtual host under their names.
ghost use Rattle.std.specs.Prelude.{◌≡◌, [], IfOk, OnOk};
ghost use Rattle.std.specs.Map.{lookup};
ghost use Rattle.std.specs.Option.{option_copied};
ghost use Rattle.std.specs.Str.{bytes_eq};
ghost use Rattle.upstream_sets.specs.Tables as tables;

use fed_defs::{ParameterDef, ParameterValue};
use indexmap::IndexMap;
use std::alloc::{AllocError, Global};
use std::marker::Model;

/// The components whose parameters are named by policies, or by the members of sets.
#[derive(Clone, Copy)]
pub(crate) enum Component {
    /// `federation-upstream`.
    Upstream,
    /// `federation-upstream-set`.
    Set,
}

impl Component {
    /// Whether the parameter is of the component.
    fn has(self, parameter: &ParameterDef) -> bool
        ensures { result ≡ tables.is_of self parameter.now }
    {
        match (self, &parameter.value) {
            (Component::Upstream, ParameterValue::Upstream(_)) => true,
            (Component::Set, ParameterValue::Set(_)) => true,
            _ => false,
        }
    }
}

/// Parameters under their names, of which no two are the same.
#[derive(Drop)]
pub(crate) struct ParameterTable<'a> {
    table: IndexMap<&'a str, &'a ParameterDef>,
}

impl<'a> Model for ParameterTable<'a> {
    ghost use Rattle.std.specs.Prelude.{List, map};
    ghost use Rattle.std.specs.Coded.{codes};
    ghost use Rattle.fed_defs.specs.contracts.config.ParameterDef as parameter;
    ghost use Rattle.upstream_sets.specs.Tables.{Named};

    ghost Value = { List Named };

    ghost coded = { Prim.hlevel (codes, parameter.the_row.coded) };

    ghost view = { λ t. map (λ e. (e.0.now, e.1.now)) t.table.entries };
}

impl<'a> ParameterTable<'a> {
    /// No parameters.
    fn new(alloc: Global) -> Self
        ensures { result ≡ [] }
    {
        ParameterTable {
            table: IndexMap::new(alloc),
        }
    }

    /// The parameter of that name.
    pub(crate) fn find(&self, name: &str) -> Option<&'a ParameterDef>
        ensures { option_copied result ≡ lookup (bytes_eq name.now) self.now }
    {
        match self.table.get(name) {
            Some(parameter) => Some(*parameter),
            None => None,
        }
    }

    /// Adds the parameter unless there is one of its name.
    fn add(&mut self, parameter: &'a ParameterDef) -> Result<(), AllocError>
        ensures { OnOk result (self.new ≡ tables.with_first self.old parameter.now) }
    {
        let name = parameter.name.as_str();
        if self.table.contains_key(name) {
            return Ok(());
        }
        self.table.insert(name, parameter)?;
        Ok(())
    }
}

/// The parameters of a component under their names: of several of one name the first.
#[tactic(auto, using(crate::proofs::ParameterTableLemmas::more_added, crate::proofs::ParameterTableLemmas::more_passed, crate::proofs::ParameterTableLemmas::all_seen))]
pub(crate) fn table_of<'a>(
    alloc: Global,
    component: Component,
    parameters: &'a [ParameterDef],
) -> Result<ParameterTable<'a>, AllocError>
    ensures { IfOk result (λ table. tables.IsTableOf component table parameters.now) }
{
    let mut table = ParameterTable::new(alloc);
    for parameter in parameters {
        if component.has(parameter) {
            table.add(parameter)?;
        }
    }
    Ok(table)
}
