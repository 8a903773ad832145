//! Upstreams, and the members of sets, which override them.
ghost use Rattle.std.specs.Prelude.{◌≡◌, ◌≢◌, None, Some, IfOk, OnOk, IfErr, option_map, codes};
ghost use Rattle.serde_json.specs.View.{view};
ghost use Rattle.serde_json.specs.Find.{as_str};
ghost use Rattle.defs_values.specs.Upstreams as upstreams;
ghost use Rattle.defs_values.specs.Keys.{named, value_at};
ghost use Rattle.defs_values.specs.Values.{IsAtMost, mode_at, number_in};
ghost use Rattle.defs_values.specs.Upstreams.{most_hops, most_prefetch, most_delay, overrides_of, overrides_fault, upstream_of, upstream_fault};

use crate::fault::{KeyFault, ValueFault};
use crate::keys::{mode_at, name_at, named, number_at, uris_at};
use amqp_props::{AckMode, Text};
use fed_defs::{Overrides, UpstreamDef};
use serde_json::Value;
use std::alloc::Global;

/// The greatest `prefetch-count`.
pub const MOST_PREFETCH: u64 = 65_535;

/// The greatest `reconnect-delay`.
pub const MOST_DELAY: u64 = 1_000_000;

/// The greatest `max-hops`.
const MOST_HOPS: u64 = 2_147_483_647;

/// A number of 16 bits.
pub fn as_short(number: Option<u64>) -> Option<u16>
    requires { IsAtMost 65535 number }
    ensures { result ≡ number }
{
    match number {
        Some(number) => Some(number as u16),
        None => None,
    }
}

/// A number of 32 bits.
fn as_long(number: Option<u64>) -> Option<u32>
    requires { IsAtMost 2147483647 number }
    ensures { result ≡ number }
{
    match number {
        Some(number) => Some(number as u32),
        None => None,
    }
}

/// What the keys up to `max-hops` say.
#[derive(Drop)]
struct FirstHalf {
    mode: Option<AckMode>,
    exchange: Option<Text>,
    max_hops: Option<u32>,
}

/// What the keys from `prefetch-count` on say.
#[derive(Drop)]
struct SecondHalf {
    prefetch: Option<u16>,
    queue: Option<Text>,
    delay: Option<u64>,
}

/// Reads the keys up to `max-hops`.
#[tactic(auto, unfolding(crate::specs::Upstreams::first_half))]
fn read_first_half(alloc: Global, value: &Value) -> Result<FirstHalf, KeyFault>
    ensures mode { IfOk result (λ half. half.mode ≡ value_at mode_at (codes "ack-mode") (view value.now)) }
    ensures exchange { IfOk result (λ half. half.exchange ≡ value_at as_str (codes "exchange") (view value.now)) }
    ensures max_hops { IfOk result (λ half. half.max_hops
        ≡ value_at (number_in 1 most_hops) (codes "max-hops") (view value.now)) }
    ensures ok { OnOk result (upstreams.first_half (view value.now) ≡ None) }
    ensures fault { IfErr result (λ fault. fault ≢ KeyFault.Memory
        → upstreams.first_half (view value.now) ≡ Some fault) }
{
    let mode = mode_at(alloc, value, "ack-mode")?;
    let exchange = name_at(alloc, value, "exchange")?;
    let max_hops = number_at(alloc, value, "max-hops", 1, MOST_HOPS)?;
    Ok(FirstHalf {
        mode,
        exchange,
        max_hops: as_long(max_hops),
    })
}

/// Reads the keys from `prefetch-count` on.
#[tactic(auto, unfolding(crate::specs::Upstreams::second_half))]
fn read_second_half(alloc: Global, value: &Value) -> Result<SecondHalf, KeyFault>
    ensures prefetch { IfOk result (λ half. half.prefetch
        ≡ value_at (number_in 0 most_prefetch) (codes "prefetch-count") (view value.now)) }
    ensures queue { IfOk result (λ half. half.queue ≡ value_at as_str (codes "queue") (view value.now)) }
    ensures delay { IfOk result (λ half. half.delay
        ≡ value_at (number_in 0 most_delay) (codes "reconnect-delay") (view value.now)) }
    ensures ok { OnOk result (upstreams.second_half (view value.now) ≡ None) }
    ensures fault { IfErr result (λ fault. fault ≢ KeyFault.Memory
        → upstreams.second_half (view value.now) ≡ Some fault) }
{
    let prefetch = number_at(alloc, value, "prefetch-count", 0, MOST_PREFETCH)?;
    let queue = name_at(alloc, value, "queue")?;
    let delay = number_at(alloc, value, "reconnect-delay", 0, MOST_DELAY)?;
    Ok(SecondHalf {
        prefetch: as_short(prefetch),
        queue,
        delay,
    })
}

/// Reads what an upstream or the member of a set says of its links.
#[tactic(auto, unfolding(crate::specs::Upstreams::overrides_of, crate::specs::Upstreams::overrides_fault))]
pub fn read_overrides(alloc: Global, value: &Value) -> Result<Overrides, KeyFault>
    ensures read { IfOk result (λ own. own ≡ overrides_of (view value.now)) }
    ensures ok { OnOk result (overrides_fault (view value.now) ≡ None) }
    ensures fault { IfErr result (λ fault. fault ≢ KeyFault.Memory → overrides_fault (view value.now) ≡ Some fault) }
{
    let first = read_first_half(alloc, value)?;
    let second = read_second_half(alloc, value)?;
    Ok(Overrides {
        mode: first.mode,
        prefetch: second.prefetch,
        delay: second.delay,
        max_hops: first.max_hops,
        exchange: first.exchange,
        queue: second.queue,
    })
}

/// Reads an upstream.
#[tactic(auto, unfolding(crate::specs::Upstreams::upstream_of, crate::specs::Upstreams::upstream_fault))]
pub fn read_keys(alloc: Global, value: &Value) -> Result<UpstreamDef, KeyFault>
    ensures read { IfOk result (λ upstream. upstream ≡ upstream_of (view value.now)) }
    ensures ok { OnOk result (upstream_fault (view value.now) ≡ None) }
    ensures fault { IfErr result (λ fault. fault ≢ KeyFault.Memory → upstream_fault (view value.now) ≡ Some fault) }
{
    let own = read_overrides(alloc, value)?;
    let uris = uris_at(alloc, value, "uri")?;
    Ok(UpstreamDef { uris, own })
}

/// Reads the value of an upstream. What is no key of an upstream has no effect.
pub fn read_upstream(alloc: Global, value: &Value) -> Result<UpstreamDef, ValueFault>
    ensures read { IfOk result (λ upstream. upstream ≡ upstream_of (view value.now)) }
    ensures ok { OnOk result (upstream_fault (view value.now) ≡ None) }
    ensures fault { IfErr result (λ fault. fault ≢ ValueFault.Memory
        → option_map named (upstream_fault (view value.now)) ≡ Some fault) }
{
    match read_keys(alloc, value) {
        Ok(upstream) => Ok(upstream),
        Err(fault) => Err(named(alloc, &fault)),
    }
}
