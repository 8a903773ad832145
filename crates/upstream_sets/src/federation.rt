//! The links of federated exchanges and queues.
ghost use Rattle.std.specs.Prelude.{◌≡◌, ◌<◌, length, map, flat_map, unwrap_or, IfOk, OnOk, Err};
ghost use Rattle.fed_defs.specs.Places.{same_place};
ghost use Rattle.fed_defs.specs.Texts.{is_reserved};
ghost use Rattle.fed_defs.specs.Links as links;
ghost use Rattle.fed_defs.specs.Links.{most_links, with_links};

use crate::choices::policy_choices;
use crate::fault::LinksFault;
use crate::kept::Kept;
use crate::name::federation_name;
use crate::scope::{Scope, any_could_choose, policy_in};
use amqp_props::{
    AckMode, DeleteAfter, LinkKind, LinkSpec, Place, SourceAt, StartState, TargetAt, Text,
};
use fed_defs::{Choice, ExchangeDef, Owner, QueueDef, no_props};
use policy_core::ObjectKind;
use std::alloc::{AllocError, Global};

/// The longest name of a link that can start.
const LONGEST_NAME: usize = 230;

/// What a link starts as whose ends are there.
pub(crate) fn named_start(name: &Text) -> StartState
    ensures { result ≡ links.named_start name.now }
{
    if name.as_str().len() > LONGEST_NAME {
        StartState::NameTooLong
    } else {
        StartState::Start
    }
}

/// Whether the two are one broker and one virtual host of it.
#[tactic(auto, unfolding(fed_defs::specs::Places::same_place))]
fn same_place(one: &Place, other: &Place) -> bool
    ensures { result ≡ same_place one.now other.now }
{
    one.broker == other.broker && one.vhost == other.vhost
}

/// What a link of federation starts as.
#[tactic(auto, unfolding(fed_defs::specs::Links::federation_start))]
fn federation_start(owner: &Place, source: &Option<Place>, name: &Text) -> StartState
    ensures { result ≡ links.federation_start owner.now source.now name.now }
{
    match source {
        None => StartState::NoBroker,
        Some(source) if same_place(source, owner) => StartState::SelfLink,
        Some(_) => named_start(name),
    }
}

/// A copy of a place that may be absent.
pub(crate) fn copy_place(place: &Option<Place>) -> Result<Option<Place>, AllocError>
    ensures { IfOk result (λ copy. copy ≡ place.now) }
{
    match place {
        Some(place) => Ok(Some(place.clone()?)),
        None => Ok(None),
    }
}

/// A link of federation, with the defaults of the keys that neither its upstream nor a set gives.
#[tactic(auto, unfolding(fed_defs::specs::Links::federation_link))]
fn federation_link(
    kind: LinkKind,
    name: Text,
    owner: &Owner,
    choice: &Choice,
    source_at: SourceAt,
    target_at: TargetAt,
) -> Result<LinkSpec, AllocError>
    ensures { IfOk result (λ link. link
        ≡ links.federation_link kind name owner.now choice.now source_at target_at) }
{
    let start = federation_start(&owner.place, &choice.source, &name);
    let source = copy_place(&choice.source)?;
    let target = owner.place.clone()?;
    let owner = owner.place.clone()?;
    Ok(LinkSpec {
        name,
        kind,
        start,
        owner,
        source,
        target: Some(target),
        source_at,
        target_at,
        mode: choice.own.mode.unwrap_or(AckMode::OnConfirm),
        prefetch: choice.own.prefetch.unwrap_or(1_000),
        delay: choice.own.delay.unwrap_or(5),
        max_hops: choice.own.max_hops.unwrap_or(1),
        delete_after: DeleteAfter::Never,
        stamp: false,
        props: no_props(),
    })
}

/// A copy of the text, or of the other where it is absent.
fn text_or(text: &Option<Text>, other: &Text) -> Result<Text, AllocError>
    ensures { IfOk result (λ copy. copy ≡ unwrap_or text.now other.now) }
{
    match text {
        Some(text) => text.clone(),
        None => other.clone(),
    }
}

/// The link of a federated exchange to an upstream.
#[tactic(auto, unfolding(fed_defs::specs::Links::exchange_link))]
fn exchange_link(
    alloc: Global,
    owner: &Owner,
    exchange: &ExchangeDef,
    choice: &Choice,
) -> Result<LinkSpec, AllocError>
    ensures { IfOk result (λ link. link ≡ links.exchange_link owner.now exchange.now choice.now) }
{
    let upstream = text_or(&choice.own.exchange, &exchange.name)?;
    let name = federation_name(
        alloc,
        "x",
        owner,
        &exchange.name,
        &choice.upstream,
        &upstream,
    )?;
    let source_at = SourceAt::Upstream {
        exchange: upstream,
        kind: exchange.kind,
        durable: exchange.durable,
    };
    let target_at = TargetAt::Downstream(exchange.name.clone()?);
    federation_link(
        LinkKind::Exchange,
        name,
        owner,
        choice,
        source_at,
        target_at,
    )
}

/// The link of a federated queue to an upstream.
#[tactic(auto, unfolding(fed_defs::specs::Links::queue_link))]
fn queue_link(
    alloc: Global,
    owner: &Owner,
    queue: &QueueDef,
    choice: &Choice,
) -> Result<LinkSpec, AllocError>
    ensures { IfOk result (λ link. link ≡ links.queue_link owner.now queue.now choice.now) }
{
    let upstream = text_or(&choice.own.queue, &queue.name)?;
    let name = federation_name(alloc, "q", owner, &queue.name, &choice.upstream, &upstream)?;
    let source_at = SourceAt::UpstreamQueue {
        queue: upstream,
        options: queue.options,
    };
    let target_at = TargetAt::DownstreamQueue(queue.name.clone()?);
    federation_link(LinkKind::Queue, name, owner, choice, source_at, target_at)
}

/// The upstreams of an object: those that the policy chooses that applies to it.
#[tactic(auto, using(crate::proofs::FittingLemmas::none_could), unfolding(fed_defs::specs::Links::object_choices))]
fn object_choices(scope: &Scope, kind: ObjectKind, name: &str) -> Result<Vec<Choice>, AllocError>
    ensures { IfOk result (λ list. list.items
        ≡ links.object_choices scope.now.config.now scope.now.owner.now scope.now.vhost.now kind
        name.now) }
{
    if !any_could_choose(scope, kind, name)? {
        return Ok(Vec::new(scope.alloc));
    }
    match policy_in(scope, kind, name)? {
        Some(policy) => policy_choices(scope, policy),
        None => Ok(Vec::new(scope.alloc)),
    }
}

/// Whether the name belongs to links.
fn is_reserved(name: &Text) -> bool
    ensures { result ≡ is_reserved name.now }
{
    name.as_str().as_bytes().starts_with(b"federation: ")
}

/// Whether exchanges such as this can be federated.
#[tactic(auto, unfolding(fed_defs::specs::Links::is_federable))]
fn is_federable(exchange: &ExchangeDef) -> bool
    ensures { result ≡ links.is_federable exchange.now }
{
    !exchange.name.as_str().is_empty() && !exchange.internal && !is_reserved(&exchange.name)
}

/// Whether queues such as this can be federated.
#[tactic(auto, unfolding(fed_defs::specs::Links::is_federable_queue))]
fn is_federable_queue(queue: &QueueDef) -> bool
    ensures { result ≡ links.is_federable_queue queue.now }
{
    !queue.options.exclusive && !is_reserved(&queue.name)
}

/// Keeps the links of an exchange to these upstreams.
#[tactic(auto, using(crate::proofs::KeptLemmas::one_more, crate::proofs::KeptLemmas::over_one, crate::proofs::KeptLemmas::one_done))]
fn keep_exchange_links(
    scope: &Scope,
    exchange: &ExchangeDef,
    choices: &[Choice],
    kept: &mut Kept,
) -> Result<(), LinksFault>
    ensures kept { OnOk result (kept.new
        ≡ with_links kept.old (map (links.exchange_link scope.now.owner.now exchange.now) choices.now)) }
    ensures full { result ≡ Err LinksFault.Links → most_links
        < length (with_links kept.old (map (links.exchange_link scope.now.owner.now exchange.now) choices.now)) }
{
    for choice in choices {
        let link = exchange_link(scope.alloc, scope.owner, exchange, choice)?;
        kept.keep(scope.alloc, link)?;
    }
    Ok(())
}

/// Keeps the links of a queue to these upstreams.
#[tactic(auto, using(crate::proofs::KeptLemmas::one_more, crate::proofs::KeptLemmas::over_one, crate::proofs::KeptLemmas::one_done))]
fn keep_queue_links(
    scope: &Scope,
    queue: &QueueDef,
    choices: &[Choice],
    kept: &mut Kept,
) -> Result<(), LinksFault>
    ensures kept { OnOk result (kept.new
        ≡ with_links kept.old (map (links.queue_link scope.now.owner.now queue.now) choices.now)) }
    ensures full { result ≡ Err LinksFault.Links → most_links
        < length (with_links kept.old (map (links.queue_link scope.now.owner.now queue.now) choices.now)) }
{
    for choice in choices {
        let link = queue_link(scope.alloc, scope.owner, queue, choice)?;
        kept.keep(scope.alloc, link)?;
    }
    Ok(())
}

/// Keeps the links of an exchange.
#[tactic(auto, unfolding(fed_defs::specs::Links::exchange_links, fed_defs::specs::Links::with_links))]
fn keep_exchange(scope: &Scope, exchange: &ExchangeDef, kept: &mut Kept) -> Result<(), LinksFault>
    ensures kept { OnOk result (kept.new ≡ with_links kept.old
        (links.exchange_links scope.now.config.now scope.now.owner.now scope.now.vhost.now exchange.now)) }
    ensures full { result ≡ Err LinksFault.Links → most_links < length (with_links kept.old
        (links.exchange_links scope.now.config.now scope.now.owner.now scope.now.vhost.now exchange.now)) }
{
    if !is_federable(exchange) {
        return Ok(());
    }
    let name = exchange.name.as_str();
    let choices = object_choices(scope, ObjectKind::Exchange, name)?;
    keep_exchange_links(scope, exchange, choices.as_slice(), kept)
}

/// The type of a queue, by which policies apply.
fn queue_kind(queue: &QueueDef) -> ObjectKind
    ensures { result ≡ links.queue_kind queue.now }
{
    if queue.quorum {
        ObjectKind::Quorum
    } else {
        ObjectKind::Classic
    }
}

/// Keeps the links of a queue.
#[tactic(auto, unfolding(fed_defs::specs::Links::queue_links, fed_defs::specs::Links::with_links))]
fn keep_queue(scope: &Scope, queue: &QueueDef, kept: &mut Kept) -> Result<(), LinksFault>
    ensures kept { OnOk result (kept.new ≡ with_links kept.old
        (links.queue_links scope.now.config.now scope.now.owner.now scope.now.vhost.now queue.now)) }
    ensures full { result ≡ Err LinksFault.Links → most_links < length (with_links kept.old
        (links.queue_links scope.now.config.now scope.now.owner.now scope.now.vhost.now queue.now)) }
{
    if !is_federable_queue(queue) {
        return Ok(());
    }
    let name = queue.name.as_str();
    let kind = queue_kind(queue);
    let choices = object_choices(scope, kind, name)?;
    keep_queue_links(scope, queue, choices.as_slice(), kept)
}

/// Keeps the links of exchanges.
#[tactic(auto, using(crate::proofs::KeptLemmas::part_more, crate::proofs::KeptLemmas::over_part, crate::proofs::KeptLemmas::part_done))]
pub(crate) fn keep_exchanges(
    scope: &Scope,
    exchanges: &[ExchangeDef],
    kept: &mut Kept,
) -> Result<(), LinksFault>
    ensures kept { OnOk result (kept.new ≡ with_links kept.old
        (flat_map (links.exchange_links scope.now.config.now scope.now.owner.now scope.now.vhost.now) exchanges.now)) }
    ensures full { result ≡ Err LinksFault.Links → most_links < length (with_links kept.old
        (flat_map (links.exchange_links scope.now.config.now scope.now.owner.now scope.now.vhost.now) exchanges.now)) }
{
    for exchange in exchanges {
        keep_exchange(scope, exchange, kept)?;
    }
    Ok(())
}

/// Keeps the links of queues.
#[tactic(auto, using(crate::proofs::KeptLemmas::part_more, crate::proofs::KeptLemmas::over_part, crate::proofs::KeptLemmas::part_done))]
pub(crate) fn keep_queues(
    scope: &Scope,
    queues: &[QueueDef],
    kept: &mut Kept,
) -> Result<(), LinksFault>
    ensures kept { OnOk result (kept.new ≡ with_links kept.old
        (flat_map (links.queue_links scope.now.config.now scope.now.owner.now scope.now.vhost.now) queues.now)) }
    ensures full { result ≡ Err LinksFault.Links → most_links < length (with_links kept.old
        (flat_map (links.queue_links scope.now.config.now scope.now.owner.now scope.now.vhost.now) queues.now)) }
{
    for queue in queues {
        keep_queue(scope, queue, kept)?;
    }
    Ok(())
}
