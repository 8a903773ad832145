//! The places of the run that URIs name.
ghost use Rattle.std.specs.Prelude.{◌≡◌, IfOk, position};
ghost use Rattle.fed_defs.specs.Texts.{same_text};
ghost use Rattle.fed_defs.specs.Places as places;

use amqp_props::{Place, Text};
use fed_defs::{BrokerConfig, Config, Owner, UriRead, Uris};
use std::alloc::{AllocError, Global};

/// The index of the broker that the run knows by this name.
fn broker_named(config: &Config, name: &str) -> Option<usize>
    ensures { result ≡ position (λ broker. same_text broker.name name.now) config.now.brokers }
{
    let brokers = config.brokers.as_slice();
    brokers
        .iter()
        .position(|broker| broker.name.as_str() == name)
}

/// The index of the broker that a URI's host names: the owner's where the host is left out.
#[tactic(auto, unfolding(fed_defs::specs::Places::broker_index))]
fn broker_index(config: &Config, owner: &Owner, host: &str) -> Option<usize>
    ensures { result ≡ places.broker_index config.now owner.now host.now }
{
    if host.is_empty() {
        return Some(owner.place.broker as usize);
    }
    broker_named(config, host)
}

/// The virtual host that a URI names: the owner's where it is left out.
#[tactic(auto, unfolding(fed_defs::specs::Places::named_vhost))]
fn named_vhost<'a>(owner: &'a Owner, uri: &'a UriRead) -> &'a str
    ensures { result.now ≡ places.named_vhost owner.now uri.now }
{
    match &uri.uri().vhost {
        Some(vhost) => vhost.as_str(),
        None => owner.place.vhost.as_str(),
    }
}

/// Whether the broker has the virtual host.
#[tactic(auto, unfolding(fed_defs::specs::Places::has_vhost))]
fn has_vhost(vhost: &str, broker: &BrokerConfig) -> bool
    ensures { result ≡ places.has_vhost vhost.now broker.now }
{
    broker
        .vhosts
        .as_slice()
        .iter()
        .any(|other| other.name.as_str() == vhost)
}

/// The place of this broker and virtual host, if it is there. A broker whose index has over 32 bits takes more memory
/// than there is.
#[tactic(auto, unfolding(fed_defs::specs::Places::place_in))]
fn place_in(
    alloc: Global,
    index: usize,
    vhost: &str,
    broker: &BrokerConfig,
) -> Result<Option<Place>, AllocError>
    ensures { IfOk result (λ place. place ≡ places.place_in index vhost.now broker.now) }
{
    if !has_vhost(vhost, broker) {
        return Ok(None);
    }
    let Ok(index) = u32::try_from(index) else {
        return Err(AllocError);
    };
    let cluster = broker.cluster.clone()?;
    let vhost = Text::from_str(alloc, vhost)?;
    Ok(Some(Place {
        broker: index,
        cluster,
        vhost,
    }))
}

/// The place of this broker and virtual host in the run, if it is there.
#[tactic(auto, unfolding(fed_defs::specs::Places::place_at))]
fn place_at(
    alloc: Global,
    config: &Config,
    index: usize,
    vhost: &str,
) -> Result<Option<Place>, AllocError>
    ensures { IfOk result (λ place. place ≡ places.place_at config.now index vhost.now) }
{
    match config.brokers.as_slice().get(index) {
        Some(broker) => place_in(alloc, index, vhost, broker),
        None => Ok(None),
    }
}

/// The place that a URI names.
#[tactic(auto, unfolding(fed_defs::specs::Places::uri_place))]
fn uri_place(
    alloc: Global,
    config: &Config,
    owner: &Owner,
    uri: &UriRead,
) -> Result<Option<Place>, AllocError>
    ensures { IfOk result (λ place. place ≡ places.uri_place config.now owner.now uri.now) }
{
    match broker_index(config, owner, uri.uri().host.as_str()) {
        Some(index) => place_at(alloc, config, index, named_vhost(owner, uri)),
        None => Ok(None),
    }
}

/// The place that the first of the URIs names that names one.
#[tactic(auto, unfolding(fed_defs::specs::Places::first_place))]
pub(crate) fn first_place(
    alloc: Global,
    config: &Config,
    owner: &Owner,
    uris: &Uris,
) -> Result<Option<Place>, AllocError>
    ensures { IfOk result (λ place. place ≡ places.first_place config.now owner.now uris.now) }
{
    for uri in uris.as_slice() {
        if let Some(place) = uri_place(alloc, config, owner, uri)? {
            return Ok(Some(place));
        }
    }
    Ok(None)
}
