//! The parameters of a definitions file.
ghost use Rattle.std.specs.Option.{option_or};
ghost use Rattle.std.specs.Prelude.{◌≡◌, ◌≢◌, ◌+◌, ◌++◌, ◌∷◌, [], None, Some, IfOk, OnOk, IfErr, codes};
ghost use Rattle.serde_json.specs.View.{view, items_view};
ghost use Rattle.serde_json.specs.Find.{as_str};
ghost use Rattle.defs_lists.specs.ParameterItems as parameters;
ghost use Rattle.defs_lists.specs.Vhosts as hosts;
ghost use Rattle.defs_values.specs.Texts as texts;
ghost use Rattle.defs_lists.specs.Names.{has_name};
ghost use Rattle.defs_values.specs.Paths.{item_fault, whole_fault};

use crate::names::{Name, Names, Word, once};
use crate::placed::Placed;
use crate::queues::word_at;
use crate::vhosts::{own_vhost, vhost_at};
use amqp_props::Text;
use defs_values::fault::KeyFault;
use defs_values::inert::add;
use defs_values::keys::{text_at, value_of};
use defs_values::parameters::{
    check_text, is_other_component, own_component, own_value, value_inert,
};
use defs_values::paths::{at_item, in_item};
use defs_values::value::misfit;
use fed_defs::ParameterDef;
use serde_json::Value;
use std::alloc::{AllocError, Global};

/// What the keys before the value say.
#[derive(Drop)]
struct Front {
    vhost: Text,
    name: Text,
}

/// Reads where the parameter is, and its name.
#[tactic(auto, unfolding(crate::specs::ParameterItems::parameter_front_fault))]
fn read_front(alloc: Global, vhosts: &Names, value: &Value) -> Result<Front, KeyFault>
    ensures vhost { IfOk result (λ front. front.vhost ≡ hosts.vhost_at (view value.now)) }
    ensures name { IfOk result (λ front. front.name ≡ texts.text_at (codes "name") (view value.now)) }
    ensures ok { OnOk result (parameters.parameter_front_fault vhosts.now (view value.now) ≡ None) }
    ensures fault { IfErr result (λ fault. fault ≢ KeyFault.Memory
        → parameters.parameter_front_fault vhosts.now (view value.now) ≡ Some fault) }
{
    let vhost = own_vhost(alloc, vhosts, value)?;
    check_text(alloc, value, "component")?;
    let name = text_at(alloc, value, "name")?;
    Ok(Front { vhost, name })
}

/// Reads the keys of a parameter.
#[tactic(auto, unfolding(crate::specs::ParameterItems::parameter_all_fault, crate::specs::ParameterItems::parameter_of))]
fn read_all(alloc: Global, vhosts: &Names, value: &Value) -> Result<Placed<ParameterDef>, KeyFault>
    ensures read { IfOk result (λ parameter. parameter ≡ parameters.parameter_of (view value.now)) }
    ensures ok { OnOk result (parameters.parameter_all_fault vhosts.now (view value.now) ≡ None) }
    ensures fault { IfErr result (λ fault. fault ≢ KeyFault.Memory
        → parameters.parameter_all_fault vhosts.now (view value.now) ≡ Some fault) }
{
    let front = read_front(alloc, vhosts, value)?;
    let meant = own_value(alloc, own_component(value), value)?;
    let item = ParameterDef {
        name: front.name,
        value: meant,
    };
    Ok(Placed {
        vhost: front.vhost,
        item,
    })
}

/// Reads a parameter.
#[tactic(auto, unfolding(crate::specs::ParameterItems::parameter_fault, defs_values::specs::Paths::item_fault))]
fn read_parameter(
    alloc: Global,
    vhosts: &Names,
    index: usize,
    value: &Value,
) -> Result<Placed<ParameterDef>, KeyFault>
    ensures read { IfOk result (λ parameter. parameter ≡ parameters.parameter_of (view value.now)) }
    ensures ok { OnOk result (parameters.parameter_fault vhosts.now index (view value.now) ≡ None) }
    ensures fault { IfErr result (λ fault. fault ≢ KeyFault.Memory
        → parameters.parameter_fault vhosts.now index (view value.now) ≡ Some fault) }
{
    if !value.is_object() {
        return Err(at_item(alloc, "parameters", index, misfit(value)));
    }
    match read_all(alloc, vhosts, value) {
        Ok(parameter) => Ok(parameter),
        Err(fault) => Err(in_item(alloc, "parameters", index, fault)),
    }
}

/// The name of a parameter within its virtual host and component.
#[tactic(auto, unfolding(crate::specs::ParameterItems::parameter_name))]
fn parameter_name(alloc: Global, value: &Value) -> Result<Name, AllocError>
    ensures { IfOk result (λ name. name ≡ parameters.parameter_name (view value.now)) }
{
    let vhost = vhost_at(alloc, value)?;
    let component = word_at(alloc, value, "component")?;
    let name = word_at(alloc, value, "name")?;
    Ok(Name {
        vhost: Word::from_str(alloc, vhost.as_str())?,
        component,
        name,
    })
}

/// How many keys of a parameter are inert.
#[tactic(auto, unfolding(crate::specs::ParameterItems::parameter_inert))]
fn parameter_inert(value: &Value) -> Result<u32, KeyFault>
    ensures count { IfOk result (λ count. count ≡ parameters.parameter_inert (view value.now)) }
    ensures fault { IfErr result (λ fault. fault ≡ KeyFault.Memory) }
{
    match value_of(value, "value") {
        Some(found) => value_inert(own_component(value), found),
        None => value_inert(own_component(value), &Value::Null),
    }
}

/// Reads a parameter whose name doesn't stand among those before it, and puts its name behind them.
fn take_parameter(
    alloc: Global,
    vhosts: &Names,
    names: &mut Names,
    index: usize,
    value: &Value,
) -> Result<Placed<ParameterDef>, KeyFault>
    ensures read { IfOk result (λ parameter. parameter ≡ parameters.parameter_of (view value.now)) }
    ensures named { OnOk result (names.new ≡ names.old ++ parameters.parameter_name (view value.now) ∷ []) }
    ensures ok { OnOk result (parameters.parameter_fault vhosts.now index (view value.now) ≡ None) }
    ensures once { OnOk result (whole_fault (codes "parameters") index (has_name (parameters.parameter_name (view value.now)) names.old) ≡ None) }
    ensures fault { IfErr result (λ fault. fault ≢ KeyFault.Memory
        → option_or (parameters.parameter_fault vhosts.now index (view value.now))
        (whole_fault (codes "parameters") index (has_name (parameters.parameter_name (view value.now)) names.old)) ≡ Some fault) }
{
    let parameter = read_parameter(alloc, vhosts, index, value)?;
    let name = parameter_name(alloc, value)?;
    once(alloc, names, &name, "parameters", index)?;
    names.add(name)?;
    Ok(parameter)
}

/// What the list of parameters holds.
#[derive(Drop)]
pub struct ParameterList {
    /// The upstreams, sets and shovels.
    pub kept: Vec<Placed<ParameterDef>>,
    /// How many keys and parameters are inert.
    pub inert: u32,
}

/// Reads the list of parameters.
pub fn read_parameters(
    alloc: Global,
    vhosts: &Names,
    items: &[Value],
) -> Result<ParameterList, KeyFault>
    ensures kept { IfOk result (λ list. list.kept.items ≡ parameters.parameters_of (items_view items.now)) }
    ensures inert { IfOk result (λ list. list.inert ≡ parameters.parameters_inert (items_view items.now)) }
    ensures ok { OnOk result (parameters.parameters_fault vhosts.now [] 0 (items_view items.now) ≡ None) }
    ensures fault { IfErr result (λ fault. fault ≢ KeyFault.Memory
        → parameters.parameters_fault vhosts.now [] 0 (items_view items.now) ≡ Some fault) }
{
    let mut kept = Vec::new(alloc);
    let mut names = Names::new(alloc);
    let mut others = 0;
    let mut inert = 0;
    for (index, value) in items.iter().enumerate() {
        if is_other_component(value) {
            others = add(others, 1)?;
        } else {
            let parameter = take_parameter(alloc, vhosts, &mut names, index, value)?;
            kept.push(parameter)?;
            inert = add(inert, parameter_inert(value)?)?;
        }
    }
    let inert = add(others, inert)?;
    Ok(ParameterList { kept, inert })
}
