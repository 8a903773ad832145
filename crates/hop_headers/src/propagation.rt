//! Bindings that are propagated to the upstream exchange.

ghost use Rattle.std.specs.Prelude.{◌≡◌, ◌<◌, ◌≤◌, ◌^◌, ◌++◌, ◌∷◌, [], true, IfOk, OnOk, IfSome, option_map, is_some, filter, if◌then◌else◌};
ghost use Rattle.std.specs.List.{list_all, filter_map};
ghost use Rattle.field_tables.specs.Fields.{table};
ghost use Rattle.field_tables.specs.View.{field_view, fields_view, pairs_view, pair_view, table_view};
ghost use Rattle.hop_headers.specs.Names.{name_text};
ghost use Rattle.hop_headers.specs.Propagation.{hops_at as hops_of_pairs, bound_at, bound_of, is_bound as is_bound_field, is_chain as is_chain_of, chain as chain_of, kept_chain as kept_of, one_less as one_less_than, first_hops as hops_of_first, hops_left as hops_left_of, if_left, new_hops as new_hops_of, has_passed as has_passed_place, bound_entry as bound_entry_of, is_other, bound_on as bound_on_args, if_short as if_short_of, propagated};

use crate::entry::PlaceName;
use crate::gate::has_been_at;
use crate::hops::{PlaceTexts, place_at};
use crate::names::FieldName;
use crate::pairs::{Pairs, array_value, copy_values, put, table_value};
use crate::stamps::put_names;
use crate::values::{array_at, table_of, text_at};
use field_tables::{FieldValue, Table, is_within};
use std::alloc::{AllocError, Global};

/// How many octets the arguments of a binding have at most.
const MAX_ARGUMENTS: usize = 98_304;

/// The hops that a table has.
fn hops_at(table: &Table) -> Option<i32>
    ensures { result ≡ hops_of_pairs (table_view table.now) }
{
    match table.get(FieldName::Hops.text()) {
        Some(FieldValue::I32(hops)) => Some(*hops),
        _ => None,
    }
}

/// The hops of a table that is an entry of an `x-bound-from`.
#[tactic(auto, unfolding(crate::specs::Propagation::bound_at))]
fn entry_hops(table: &Table) -> Option<i32>
    ensures { result ≡ option_map (λ e. e.hops) (bound_at (table_view table.now)) }
{
    match (
        place_at(table),
        text_at(FieldName::Exchange, table),
        hops_at(table),
    ) {
        (Some(_), Some(_), Some(hops)) => Some(hops),
        _ => None,
    }
}

fn hops_of(value: &FieldValue) -> Option<i32>
    ensures { result ≡ option_map (λ e. e.hops) (bound_of (field_view value.now)) }
{
    match table_of(value) {
        Some(table) => entry_hops(table),
        None => None,
    }
}

#[tactic(auto, unfolding(crate::specs::Propagation::is_bound))]
fn is_bound(value: &FieldValue) -> bool
    ensures { result ≡ is_bound_field (field_view value.now) }
{
    hops_of(value).is_some()
}

fn all_bound(values: &[FieldValue]) -> bool
    ensures { result ≡ list_all is_bound_field (fields_view values.now) }
{
    for value in values {
        if !is_bound(value) {
            return false;
        }
    }
    true
}

fn is_chain(values: &[FieldValue]) -> bool
    ensures { result ≡ is_chain_of (fields_view values.now) }
{
    !values.is_empty() && all_bound(values)
}

/// The values of the argument; `None` where there is none, or a malformed one.
#[tactic(auto, unfolding(crate::specs::Propagation::chain))]
fn chain(args: &Table) -> Option<&[FieldValue]>
    ensures { option_map (λ v. fields_view v.now) result ≡ chain_of (table_view args.now) }
{
    match array_at(FieldName::BoundFrom, args) {
        Some(values) if is_chain(values) => Some(values),
        _ => None,
    }
}

/// The values of the argument; none where it is malformed.
fn kept_chain(args: &Table) -> &[FieldValue]
    ensures kept { fields_view result.now ≡ kept_of (table_view args.now) }
    ensures entries { list_all is_bound_field (fields_view result.now) ≡ true }
{
    match chain(args) {
        Some(values) => values,
        None => &[],
    }
}

fn one_less(hops: i32) -> u32
    ensures { result ≡ one_less_than hops }
{
    u32::try_from(hops).unwrap_or(0).saturating_sub(1)
}

fn at_least_one(hops: u32) -> Option<u32>
    ensures value { result ≡ if_left hops }
    ensures same { IfSome result (λ left. left ≡ hops) }
{
    if hops >= 1 { Some(hops) } else { None }
}

/// The hops of the first entry, if there is one.
fn first_hops(values: &[FieldValue]) -> Option<i32>
    requires { list_all is_bound_field (fields_view values.now) ≡ true }
    ensures { result ≡ hops_of_first (filter_map bound_of (fields_view values.now)) }
{
    match values {
        [] => None,
        [first, ..] => hops_of(first),
    }
}

fn hops_left(first: Option<i32>, max_hops: u32) -> u32
    ensures value { result ≡ hops_left_of first max_hops }
    ensures most { result ≤ max_hops }
{
    match first {
        Some(hops) => one_less(hops).min(max_hops),
        None => max_hops,
    }
}

/// The hops of the new entry; `None` where none are left.
#[tactic(auto, unfolding(crate::specs::Propagation::new_hops))]
fn new_hops(values: &[FieldValue], max_hops: u32) -> Option<u32>
    requires { list_all is_bound_field (fields_view values.now) ≡ true }
    ensures value { result ≡ new_hops_of (filter_map bound_of (fields_view values.now)) max_hops }
    ensures most { IfSome result (λ hops. hops ≤ max_hops) }
{
    at_least_one(hops_left(first_hops(values), max_hops))
}

fn has_passed(upstream: &PlaceName, values: &[FieldValue]) -> bool
    requires { list_all is_bound_field (fields_view values.now) ≡ true }
    ensures { result ≡ has_passed_place upstream.now (filter_map bound_of (fields_view values.now)) }
{
    let wanted = PlaceTexts {
        cluster: upstream.cluster.as_str(),
        vhost: upstream.vhost.as_str(),
    };
    has_been_at(wanted, values)
}

#[tactic(auto, unfolding(crate::specs::Propagation::bound_entry))]
fn bound_entry(
    alloc: Global,
    downstream: &PlaceName,
    exchange: &str,
    hops: u32,
) -> Result<FieldValue, AllocError>
    requires { hops < 2 ^ 31 }
    ensures { IfOk result (λ v. field_view v
        ≡ table (bound_entry_of downstream.now exchange.now hops)) }
{
    let mut pairs = Vec::with_capacity(alloc, 4)?;
    put_names(downstream, FieldName::Exchange, exchange, &mut pairs)?;
    put(FieldName::Hops, FieldValue::I32(hops as i32), &mut pairs)?;
    Ok(table_value(pairs))
}

fn copy_unless(
    name: FieldName,
    pair: &(String, FieldValue),
    to: &mut Pairs,
) -> Result<(), AllocError>
    ensures { OnOk result (pairs_view to.new.items ≡ pairs_view to.old.items
        ++ (if is_other (name_text name) (pair_view pair.now) then pair_view pair.now ∷ [] else [])) }
{
    let (key, value) = pair;
    if key.as_str() != name.text() {
        let key = key.clone()?;
        to.push((key, value.clone()?))?;
    }
    Ok(())
}

/// Adds copies of the names and values, those of this name apart.
fn copy_without(
    name: FieldName,
    from: &[(String, FieldValue)],
    to: &mut Pairs,
) -> Result<(), AllocError>
    ensures { OnOk result (pairs_view to.new.items ≡ pairs_view to.old.items
        ++ filter (is_other (name_text name)) (pairs_view from.now)) }
{
    for pair in from {
        copy_unless(name, pair, to)?;
    }
    Ok(())
}

#[tactic(auto, unfolding(crate::specs::Propagation::bound_on), using(crate::proofs::Views::listed))]
fn bound_on(
    alloc: Global,
    args: &Table,
    downstream: &PlaceName,
    exchange: &str,
    hops: u32,
) -> Result<Table, AllocError>
    requires { hops < 2 ^ 31 }
    ensures { IfOk result (λ t. table_view t
        ≡ bound_on_args (table_view args.now) downstream.now exchange.now hops) }
{
    let mut entries = vec![in alloc; bound_entry(alloc, downstream, exchange, hops)?]?;
    copy_values(kept_chain(args), &mut entries)?;
    let mut pairs = Vec::with_capacity(alloc, args.pairs.len())?;
    copy_without(FieldName::BoundFrom, args.pairs.as_slice(), &mut pairs)?;
    put(FieldName::BoundFrom, array_value(entries), &mut pairs)?;
    Ok(Table { pairs })
}

/// The arguments, unless they are too long for a binding.
#[tactic(auto, unfolding(crate::specs::Propagation::is_short))]
fn if_short(table: Table) -> Option<Table>
    ensures { option_map table_view result ≡ if_short_of (table_view table) }
{
    if is_within(&table, MAX_ARGUMENTS) {
        Some(table)
    } else {
        None
    }
}

/// The arguments of the upstream binding that stands for a binding of the downstream exchange with these arguments;
/// `None` exactly where the binding goes no further.
///
/// That is where the upstream place stands in its `x-bound-from`, where no hops are left, or where the new arguments
/// would be longer than 98,304 octets. Otherwise its `x-bound-from` goes, and a new one comes last: an entry of the
/// downstream place and exchange with the new hops, and behind it the entries that were there. A malformed argument
/// counts as none. RabbitMQ's "Federated Exchanges".
#[tactic(auto, unfolding(crate::specs::Propagation::propagated))]
pub fn propagate(
    alloc: Global,
    args: &Table,
    upstream: &PlaceName,
    downstream: &PlaceName,
    exchange: &str,
    max_hops: u32,
) -> Result<Option<Table>, AllocError>
    requires { max_hops < 2 ^ 31 }
    ensures { IfOk result (λ found. option_map table_view found
        ≡ propagated (table_view args.now) upstream.now downstream.now exchange.now max_hops) }
{
    let values = kept_chain(args);
    if has_passed(upstream, values) {
        return Ok(None);
    }
    match new_hops(values, max_hops) {
        Some(hops) => Ok(if_short(bound_on(alloc, args, downstream, exchange, hops)?)),
        None => Ok(None),
    }
}
