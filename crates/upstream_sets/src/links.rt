//! The links of a configuration: those of its exchanges and queues, and its shovels.
ghost use Rattle.std.specs.Prelude.{◌≡◌, ◌<◌, ◌≤◌, length, flat_map, IfOk, OnOk, Err};
ghost use Rattle.std.specs.List.{AllPairs};
ghost use Rattle.fed_defs.specs.Links as links;
ghost use Rattle.fed_defs.specs.Links.{most_links, with_links};
ghost use Rattle.upstream_sets.specs.Distinct.{HaveTwoNames};

use crate::fault::LinksFault;
use crate::federation::{copy_place, keep_exchanges, keep_queues, named_start};
use crate::kept::Kept;
use crate::name::shovel_name;
use crate::places::first_place;
use crate::scope::{Scope, rules_of};
use crate::table::{Component, table_of};
use amqp_props::{ExchangeKind, LinkKind, LinkSpec, Place, StartState, Text};
use fed_defs::{
    BrokerConfig, Config, ExchangeDef, Owner, ParameterDef, ParameterValue, ShovelDef, VhostConfig,
};
use std::alloc::{AllocError, Global};

/// What a shovel starts as: it needs both of its places.
#[tactic(auto, unfolding(fed_defs::specs::Links::shovel_start))]
fn shovel_start(source: &Option<Place>, target: &Option<Place>, name: &Text) -> StartState
    ensures { result ≡ links.shovel_start source.now target.now name.now }
{
    match (source, target) {
        (Some(_), Some(_)) => named_start(name),
        _ => StartState::NoBroker,
    }
}

/// The link of a shovel between these places.
#[tactic(auto, unfolding(fed_defs::specs::Links::shovel_between))]
fn shovel_between(
    name: Text,
    owner: &Owner,
    source: Option<Place>,
    target: Option<Place>,
    shovel: &ShovelDef,
) -> Result<LinkSpec, AllocError>
    ensures { IfOk result (λ link. link
        ≡ links.shovel_between name owner.now source target shovel.now) }
{
    let start = shovel_start(&source, &target, &name);
    let owner = owner.place.clone()?;
    let source_at = shovel.source_at.clone()?;
    let target_at = shovel.target_at.clone()?;
    let props = shovel.props.clone()?;
    Ok(LinkSpec {
        name,
        kind: LinkKind::Shovel,
        start,
        owner,
        source,
        target,
        source_at,
        target_at,
        mode: shovel.mode,
        prefetch: shovel.prefetch,
        delay: shovel.delay,
        max_hops: 1,
        delete_after: shovel.delete_after,
        stamp: shovel.stamp,
        props,
    })
}

/// The link of a shovel.
#[tactic(auto, unfolding(fed_defs::specs::Links::shovel_link))]
fn shovel_link(
    alloc: Global,
    config: &Config,
    owner: &Owner,
    name: &Text,
    shovel: &ShovelDef,
) -> Result<LinkSpec, AllocError>
    ensures { IfOk result (λ link. link
        ≡ links.shovel_link config.now owner.now name.now shovel.now) }
{
    let name = shovel_name(alloc, owner, name)?;
    let source = first_place(alloc, config, owner, &shovel.sources)?;
    let target = first_place(alloc, config, owner, &shovel.targets)?;
    shovel_between(name, owner, source, target, shovel)
}

/// Keeps the link of a parameter that is a shovel.
#[tactic(auto, using(crate::proofs::KeptLemmas::with_one), unfolding(fed_defs::specs::Links::shovel_links, fed_defs::specs::Links::with_links))]
fn keep_shovel(scope: &Scope, parameter: &ParameterDef, kept: &mut Kept) -> Result<(), LinksFault>
    ensures kept { OnOk result (kept.new
        ≡ with_links kept.old (links.shovel_links scope.now.config.now scope.now.owner.now parameter.now)) }
    ensures full { result ≡ Err LinksFault.Links → most_links
        < length (with_links kept.old (links.shovel_links scope.now.config.now scope.now.owner.now parameter.now)) }
{
    let ParameterValue::Shovel(shovel) = &parameter.value else {
        return Ok(());
    };
    let link = shovel_link(
        scope.alloc,
        scope.config,
        scope.owner,
        &parameter.name,
        shovel,
    )?;
    kept.keep(scope.alloc, link)
}

/// Keeps the links of the shovels among the parameters.
#[tactic(auto, using(crate::proofs::KeptLemmas::part_more, crate::proofs::KeptLemmas::over_part, crate::proofs::KeptLemmas::part_done))]
fn keep_shovels(
    scope: &Scope,
    parameters: &[ParameterDef],
    kept: &mut Kept,
) -> Result<(), LinksFault>
    ensures kept { OnOk result (kept.new ≡ with_links kept.old
        (flat_map (links.shovel_links scope.now.config.now scope.now.owner.now) parameters.now)) }
    ensures full { result ≡ Err LinksFault.Links → most_links < length (with_links kept.old
        (flat_map (links.shovel_links scope.now.config.now scope.now.owner.now) parameters.now)) }
{
    for parameter in parameters {
        keep_shovel(scope, parameter, kept)?;
    }
    Ok(())
}

/// A predeclared exchange.
fn predeclared_exchange(
    alloc: Global,
    name: &str,
    kind: ExchangeKind,
) -> Result<ExchangeDef, AllocError>
    ensures { IfOk result (λ exchange. exchange ≡ links.predeclared_exchange name.now kind) }
{
    let name = Text::from_str(alloc, name)?;
    Ok(ExchangeDef {
        name,
        kind,
        durable: true,
        internal: false,
    })
}

/// The exchanges with which every virtual host begins.
fn predeclared(alloc: Global) -> Result<[ExchangeDef; 5], AllocError>
    ensures { IfOk result (λ exchanges. exchanges ≡ links.predeclared) }
{
    let direct = predeclared_exchange(alloc, "amq.direct", ExchangeKind::Direct)?;
    let fanout = predeclared_exchange(alloc, "amq.fanout", ExchangeKind::Fanout)?;
    let headers = predeclared_exchange(alloc, "amq.headers", ExchangeKind::Headers)?;
    let matched = predeclared_exchange(alloc, "amq.match", ExchangeKind::Headers)?;
    let topic = predeclared_exchange(alloc, "amq.topic", ExchangeKind::Topic)?;
    Ok([direct, fanout, headers, matched, topic])
}

/// Keeps the links of a virtual host.
#[tactic(auto, using(crate::proofs::KeptLemmas::with_four, crate::proofs::KeptLemmas::full_first, crate::proofs::KeptLemmas::full_second, crate::proofs::KeptLemmas::full_third, crate::proofs::KeptLemmas::full_fourth), unfolding(fed_defs::specs::Links::vhost_links))]
fn keep_vhost(scope: &Scope, kept: &mut Kept) -> Result<(), LinksFault>
    ensures kept { OnOk result (kept.new ≡ with_links kept.old
        (links.vhost_links scope.now.config.now scope.now.owner.now scope.now.vhost.now)) }
    ensures full { result ≡ Err LinksFault.Links → most_links < length (with_links kept.old
        (links.vhost_links scope.now.config.now scope.now.owner.now scope.now.vhost.now)) }
{
    let predeclared = predeclared(scope.alloc)?;
    let vhost = scope.vhost;
    keep_exchanges(scope, &predeclared, kept)?;
    keep_exchanges(scope, vhost.exchanges.as_slice(), kept)?;
    keep_queues(scope, vhost.queues.as_slice(), kept)?;
    keep_shovels(scope, vhost.parameters.as_slice(), kept)
}

/// The virtual host as the owner of links. A broker whose index has over 32 bits takes more memory than there is.
fn owner_of(index: usize, broker: &BrokerConfig, vhost: &VhostConfig) -> Result<Owner, AllocError>
    ensures { IfOk result (λ owner. owner ≡ links.owner_of index broker.now vhost.now) }
{
    let Ok(index) = u32::try_from(index) else {
        return Err(AllocError);
    };
    let name = broker.name.clone()?;
    let cluster = broker.cluster.clone()?;
    let vhost = vhost.name.clone()?;
    let place = Place {
        broker: index,
        cluster,
        vhost,
    };
    Ok(Owner {
        broker: name,
        place,
    })
}

/// Keeps the links that a virtual host of a broker owns.
#[tactic(auto, unfolding(fed_defs::specs::Links::owned_links))]
fn keep_owned(
    alloc: Global,
    config: &Config,
    index: usize,
    broker: &BrokerConfig,
    vhost: &VhostConfig,
    kept: &mut Kept,
) -> Result<(), LinksFault>
    ensures kept { OnOk result (kept.new
        ≡ with_links kept.old (links.owned_links config.now index broker.now vhost.now)) }
    ensures full { result ≡ Err LinksFault.Links → most_links
        < length (with_links kept.old (links.owned_links config.now index broker.now vhost.now)) }
{
    let owner = owner_of(index, broker, vhost)?;
    let rules = rules_of(alloc, vhost)?;
    let parameters = vhost.parameters.as_slice();
    let upstreams = table_of(alloc, Component::Upstream, parameters)?;
    let sets = table_of(alloc, Component::Set, parameters)?;
    let scope = Scope {
        alloc,
        config,
        owner: &owner,
        vhost,
        rules: rules.as_slice(),
        upstreams,
        sets,
    };
    keep_vhost(&scope, kept)
}

/// Keeps the links of a broker.
#[tactic(auto, using(crate::proofs::KeptLemmas::part_more, crate::proofs::KeptLemmas::over_part, crate::proofs::KeptLemmas::part_done), unfolding(fed_defs::specs::Links::broker_links))]
fn keep_broker(
    alloc: Global,
    config: &Config,
    index: usize,
    broker: &BrokerConfig,
    kept: &mut Kept,
) -> Result<(), LinksFault>
    ensures kept { OnOk result (kept.new
        ≡ with_links kept.old (links.broker_links config.now (index, broker.now))) }
    ensures full { result ≡ Err LinksFault.Links → most_links
        < length (with_links kept.old (links.broker_links config.now (index, broker.now))) }
{
    for vhost in broker.vhosts.as_slice() {
        keep_owned(alloc, config, index, broker, vhost, kept)?;
    }
    Ok(())
}

/// Keeps the links of the brokers.
#[tactic(auto, using(crate::proofs::KeptLemmas::numbered_more, crate::proofs::KeptLemmas::over_numbered, crate::proofs::KeptLemmas::numbered_done), unfolding(fed_defs::specs::Links::asked_links))]
fn keep_brokers(alloc: Global, config: &Config, kept: &mut Kept) -> Result<(), LinksFault>
    ensures kept { OnOk result (kept.new ≡ with_links kept.old (links.asked_links config.now)) }
    ensures full { result ≡ Err LinksFault.Links
        → most_links < length (with_links kept.old (links.asked_links config.now)) }
{
    for (index, broker) in config.brokers.as_slice().iter().enumerate() {
        keep_broker(alloc, config, index, broker, kept)?;
    }
    Ok(())
}

/// The links that a configuration asks for: brokers in their order, their virtual hosts, and of each the links of its
/// exchanges, the predeclared ones first, then of its queues, each by its upstreams in their order, and last its
/// shovels. Of links of one name the first is kept.
///
/// # Errors
///
/// `Links` where these are over 4,096, and `Memory`.
#[tactic(auto, using(crate::proofs::DistinctLemmas::links_distinct), unfolding(fed_defs::specs::Links::links_of))]
pub fn links_of(alloc: Global, config: &Config) -> Result<Vec<LinkSpec>, LinksFault>
    ensures links { IfOk result (λ list. list.items ≡ links.links_of config.now) }
    ensures distinct { IfOk result (λ list. AllPairs HaveTwoNames list.items) }
    ensures within { OnOk result (length (links.links_of config.now) ≤ most_links) }
    ensures full { result ≡ Err LinksFault.Links → most_links < length (links.links_of config.now) }
{
    let mut kept = Kept::new(alloc);
    keep_brokers(alloc, config, &mut kept)?;
    let list = kept.into_vec(alloc)?;
    Ok(list)
}
