//! A link between two brokers, as its configuration describes it.
ghost use Rattle.std.specs.Prelude.{◌≡◌, ◌↔◌, IfOk, IsTrue};
ghost use Rattle.std.specs.Cmp.{partial_equiv_from_equiv};
ghost use Rattle.amqp_props.specs.SameLinks.{same_link, link_laws};

use crate::properties::Properties;
use crate::text::copy_text;
use field_tables::Text;
use std::alloc::AllocError;

/// A broker and a virtual host of it.
#[derive(Debug, Drop, PartialEq, Eq)]
pub struct Place {
    /// Which broker of the run, from 0.
    pub broker: u32,
    /// The name of the broker's cluster.
    pub cluster: Text,
    /// The name of the virtual host.
    pub vhost: Text,
}

/// What a link moves messages for.
#[derive(Clone, Copy, Debug, PartialEq, Eq)]
pub enum LinkKind {
    /// A federated exchange.
    Exchange,
    /// A federated queue.
    Queue,
    /// A shovel.
    Shovel,
}

/// Whether a configured link can be opened.
#[derive(Clone, Copy, Debug, PartialEq, Eq)]
pub enum StartState {
    /// It can.
    Start,
    /// Both ends of a federation link would be one place.
    SelfLink,
    /// No URI of a side names a place of the run.
    NoBroker,
    /// Its name has over 230 octets.
    NameTooLong,
}

/// When a link removes a copy from its source (RabbitMQ, federation and shovels: `ack-mode`).
#[derive(Clone, Copy, Debug, PartialEq, Eq)]
pub enum AckMode {
    /// After the target broker has confirmed the publication.
    OnConfirm,
    /// After it was sent on.
    OnPublish,
    /// As it is taken.
    NoAck,
}

/// When a shovel removes itself (RabbitMQ, dynamic shovels: `src-delete-after`).
#[derive(Clone, Copy, Debug, PartialEq, Eq)]
pub enum DeleteAfter {
    /// Not at all.
    Never,
    /// After so many messages.
    Count(u64),
    /// After the messages that were ready in the source when it first opened.
    QueueLength,
}

/// The type of an exchange (AMQP 0-9-1, 3.1.3 "Exchange Types").
#[derive(Clone, Copy, Debug, PartialEq, Eq)]
pub enum ExchangeKind {
    /// Routes by the whole routing key.
    Direct,
    /// Routes everything.
    Fanout,
    /// Routes by the headers.
    Headers,
    /// Routes by patterns of words.
    Topic,
}

/// The options of a queue (AMQP 0-9-1, queue.declare).
#[derive(Clone, Copy, Debug, PartialEq, Eq)]
pub struct QueueOptions {
    /// It outlives a restart of its broker.
    pub durable: bool,
    /// It belongs to one connection.
    pub exclusive: bool,
    /// It goes with its last consumer.
    pub auto_delete: bool,
}

/// What a link takes messages from.
#[derive(Debug, Drop, PartialEq, Eq)]
pub enum SourceAt {
    /// The upstream exchange of an exchange link, declared with this type where it is missing.
    Upstream {
        exchange: Text,
        kind: ExchangeKind,
        durable: bool,
    },
    /// The upstream queue of a queue link, declared with these options where it is missing.
    UpstreamQueue {
        queue: Text,
        options: QueueOptions,
    },
    /// A shovel's `src-queue`.
    Queue(Text),
    /// A shovel's `src-exchange` and `src-exchange-key`.
    Exchange {
        name: Text,
        key: Text,
    },
}

/// Where a link publishes to.
#[derive(Debug, Drop, PartialEq, Eq)]
pub enum TargetAt {
    /// The federated exchange of an exchange link.
    Downstream(Text),
    /// The federated queue of a queue link.
    DownstreamQueue(Text),
    /// A shovel's `dest-queue`.
    Queue(Text),
    /// A shovel's `dest-exchange` and `dest-exchange-key`; without a key, each message keeps its own.
    Exchange { name: Text, key: Option<Text> },
    /// The exchange and the key that each message had at its source.
    Original,
}

/// The description of a link.
#[derive(Debug, Drop)]
pub struct LinkSpec {
    /// The name, which is its identity.
    pub name: Text,
    /// What it is for.
    pub kind: LinkKind,
    /// Whether it can be opened.
    pub start: StartState,
    /// The place whose configuration sets the link.
    pub owner: Place,
    /// Where it takes from; none exactly where no URI of that side names a place of the run.
    pub source: Option<Place>,
    /// Where it publishes; none exactly where no URI of that side names a place of the run.
    pub target: Option<Place>,
    /// What it takes messages from there.
    pub source_at: SourceAt,
    /// What it publishes to there.
    pub target_at: TargetAt,
    /// When it removes a copy from its source.
    pub mode: AckMode,
    /// How many copies it may hold unacknowledged; 0 is no limit.
    pub prefetch: u16,
    /// How long it waits after a drop until it opens again.
    pub delay: u64,
    /// How many federation links a message may cross.
    pub max_hops: u32,
    /// When a shovel removes itself.
    pub delete_after: DeleteAfter,
    /// Whether a shovel adds its forward header (RabbitMQ, dynamic shovels: `dest-add-forward-headers`).
    pub stamp: bool,
    /// The properties that a shovel sets on each message (`dest-publish-properties`).
    pub props: Properties,
}

impl Clone for Place {
    ghost is_clone = { λ place copy. copy ≡ place };

    fn clone(&self) -> Result<Self, AllocError> {
        let cluster = self.cluster.clone()?;
        let vhost = self.vhost.clone()?;
        Ok(Place {
            broker: self.broker,
            cluster,
            vhost,
        })
    }
}

impl Clone for SourceAt {
    ghost is_clone = { λ source copy. copy ≡ source };

    fn clone(&self) -> Result<Self, AllocError> {
        match self {
            SourceAt::Upstream {
                exchange,
                kind,
                durable,
            } => Ok(SourceAt::Upstream {
                exchange: exchange.clone()?,
                kind: *kind,
                durable: *durable,
            }),
            SourceAt::UpstreamQueue { queue, options } => Ok(SourceAt::UpstreamQueue {
                queue: queue.clone()?,
                options: *options,
            }),
            SourceAt::Queue(queue) => Ok(SourceAt::Queue(queue.clone()?)),
            SourceAt::Exchange { name, key } => {
                let name = name.clone()?;
                let key = key.clone()?;
                Ok(SourceAt::Exchange { name, key })
            }
        }
    }
}

impl Clone for TargetAt {
    ghost is_clone = { λ target copy. copy ≡ target };

    fn clone(&self) -> Result<Self, AllocError> {
        match self {
            TargetAt::Downstream(exchange) => Ok(TargetAt::Downstream(exchange.clone()?)),
            TargetAt::DownstreamQueue(queue) => Ok(TargetAt::DownstreamQueue(queue.clone()?)),
            TargetAt::Queue(queue) => Ok(TargetAt::Queue(queue.clone()?)),
            TargetAt::Exchange { name, key } => {
                let name = name.clone()?;
                let key = copy_text(key)?;
                Ok(TargetAt::Exchange { name, key })
            }
            TargetAt::Original => Ok(TargetAt::Original),
        }
    }
}

/// A copy of a place that may be absent.
fn copy_place(place: &Option<Place>) -> Result<Option<Place>, AllocError>
    ensures { IfOk result (λ copy. copy ≡ place.now) }
{
    match place {
        Some(place) => Ok(Some(place.clone()?)),
        None => Ok(None),
    }
}

impl Clone for LinkSpec {
    ghost is_clone = { λ spec copy. copy ≡ spec };

    fn clone(&self) -> Result<Self, AllocError> {
        let name = self.name.clone()?;
        let owner = self.owner.clone()?;
        let source = copy_place(&self.source)?;
        let target = copy_place(&self.target)?;
        let source_at = self.source_at.clone()?;
        let target_at = self.target_at.clone()?;
        let props = self.props.clone()?;
        Ok(LinkSpec {
            name,
            kind: self.kind,
            start: self.start,
            owner,
            source,
            target,
            source_at,
            target_at,
            mode: self.mode,
            prefetch: self.prefetch,
            delay: self.delay,
            max_hops: self.max_hops,
            delete_after: self.delete_after,
            stamp: self.stamp,
            props,
        })
    }
}

/// Whether the two links are of one name, kind and place.
fn is_one_link(one: &LinkSpec, other: &LinkSpec) -> bool
    ensures { IsTrue result ↔ ((one.now.name ≡ other.now.name) × (one.now.kind ≡ other.now.kind)
        × (one.now.start ≡ other.now.start) × (one.now.owner ≡ other.now.owner)) }
{
    one.name == other.name
        && one.kind == other.kind
        && one.start == other.start
        && one.owner == other.owner
}

/// Whether the two links go between the same ends.
fn has_one_way(one: &LinkSpec, other: &LinkSpec) -> bool
    ensures { IsTrue result ↔ ((one.now.source ≡ other.now.source) × (one.now.target ≡ other.now.target)
        × (one.now.source_at ≡ other.now.source_at) × (one.now.target_at ≡ other.now.target_at)) }
{
    one.source == other.source
        && one.target == other.target
        && one.source_at == other.source_at
        && one.target_at == other.target_at
}

/// Whether the two links work in the same way.
fn has_one_mode(one: &LinkSpec, other: &LinkSpec) -> bool
    ensures { IsTrue result ↔ ((one.now.mode ≡ other.now.mode) × (one.now.prefetch ≡ other.now.prefetch)
        × (one.now.delay ≡ other.now.delay) × (one.now.max_hops ≡ other.now.max_hops)
        × (one.now.delete_after ≡ other.now.delete_after) × (one.now.stamp ≡ other.now.stamp)
        × (one.now.props ≡ other.now.props)) }
{
    one.mode == other.mode
        && one.prefetch == other.prefetch
        && one.delay == other.delay
        && one.max_hops == other.max_hops
        && one.delete_after == other.delete_after
        && one.stamp == other.stamp
        && one.props == other.props
}

/// Whether all parts of the two links are the same.
fn are_same(one: &LinkSpec, other: &LinkSpec) -> bool
    ensures { IsTrue result ↔ (one.now ≡ other.now) }
{
    is_one_link(one, other) && has_one_way(one, other) && has_one_mode(one, other)
}

impl PartialEq for LinkSpec {
    ghost eq = { same_link };

    ghost laws = { partial_equiv_from_equiv link_laws };

    fn eq(&self, other: &LinkSpec) -> bool
        ensures tested { result ≡ same_link self.now other.now }
        ensures same { IsTrue result ↔ (self.now ≡ other.now) }
    {
        are_same(self, other)
    }
}

impl Eq for LinkSpec {
    ghost laws = { link_laws };
}
