//! The links that a configuration asks for.
ghost use Rattle.std.specs.Prelude.{◌≡◌, ◌++◌, IfOk, OnOk, flat_map, IsTrue, ◌↔◌};
ghost use Rattle.fed_journal.specs.Links.{place_at, place_named, start_state, spec_of, links_set_by, links_of_broker, links_of, link_of, is_shovel_set};

use crate::configuration::is_place;
use amqp_props::Text;
use fed_journal::entry::Entry;
use fed_journal::event::Shovel;
use fed_journal::link::{DEFAULT_PREFETCH, LinkSpec, StartState};
use fed_journal::page::shovel_link_name;
use fed_journal::place::Place;
use std::alloc::{AllocError, Global};

/// The place that a URI with this host names, where it is one of the run.
fn place_named(
    alloc: Global,
    journal: &[Entry],
    broker: &Text,
    owner: &Place,
) -> Result<Option<Place>, AllocError>
    ensures { IfOk result (λ place. place ≡ place_named journal.now (place_at broker.now owner.now)) }
{
    let place = Place {
        broker: broker.clone()?,
        vhost: owner.vhost.clone()?,
    };
    if is_place(journal, &place) {
        Ok(Some(place))
    } else {
        Ok(None)
    }
}

/// Whether the link can be opened.
fn start_state(source: &Option<Place>, target: &Option<Place>, name: &Text) -> StartState
    ensures { result ≡ start_state source.now target.now name.now }
{
    if source.is_none() || target.is_none() {
        StartState::NoBroker
    } else if name.as_str().len() > 230 {
        StartState::NameTooLong
    } else {
        StartState::Start
    }
}

/// The link of a shovel's parameter.
#[tactic(auto, unfolding(fed_journal::specs::Links::spec_of))]
fn spec_of(
    alloc: Global,
    journal: &[Entry],
    owner: &Place,
    name: &Text,
    shovel: &Shovel,
) -> Result<LinkSpec, AllocError>
    ensures { IfOk result (λ spec. spec ≡ spec_of journal.now owner.now name.now shovel.now) }
{
    let link = shovel_link_name(alloc, owner, name)?;
    let source = place_named(alloc, journal, &shovel.source, owner)?;
    let target = place_named(alloc, journal, &shovel.target, owner)?;
    Ok(LinkSpec {
        start: start_state(&source, &target, &link),
        name: link,
        owner: owner.clone()?,
        source,
        target,
        source_queue: shovel.source_queue.clone()?,
        target_queue: shovel.target_queue.clone()?,
        mode: shovel.mode,
        prefetch: DEFAULT_PREFETCH,
    })
}

/// Appends the link that the entry sets, if the broker owns it.
fn push_link(
    alloc: Global,
    journal: &[Entry],
    broker: &Text,
    entry: &Entry,
    links: &mut Vec<LinkSpec>,
) -> Result<(), AllocError>
    ensures { OnOk result (links.new.items ≡ links.old.items ++ links_set_by journal.now broker.now entry.now) }
{
    if let Entry::ShovelSet {
        place,
        name,
        shovel,
    } = entry
        && &place.broker == broker
    {
        links.push(spec_of(alloc, journal, place, name, shovel)?)?;
    }
    Ok(())
}

/// Appends the links that the broker owns, in the order of setting.
fn push_links(
    alloc: Global,
    journal: &[Entry],
    broker: &Text,
    links: &mut Vec<LinkSpec>,
) -> Result<(), AllocError>
    ensures { OnOk result (links.new.items ≡ links.old.items ++ flat_map (links_set_by journal.now broker.now) journal.now) }
{
    for entry in journal {
        push_link(alloc, journal, broker, entry, links)?;
    }
    Ok(())
}

/// Appends the links of the broker that the entry begins, if it begins one.
fn push_links_of_broker(
    alloc: Global,
    journal: &[Entry],
    entry: &Entry,
    links: &mut Vec<LinkSpec>,
) -> Result<(), AllocError>
    ensures { OnOk result (links.new.items ≡ links.old.items ++ links_of_broker journal.now entry.now) }
{
    match entry {
        Entry::Begun { broker, .. } => push_links(alloc, journal, broker, links),
        _ => Ok(()),
    }
}

/// The links by the order of their owners' brokers, then of setting.
#[tactic(auto, unfolding(fed_journal::specs::Links::links_of))]
pub fn links_of(alloc: Global, journal: &[Entry]) -> Result<Vec<LinkSpec>, AllocError>
    ensures { IfOk result (λ links. links.items ≡ links_of journal.now) }
{
    let mut links = Vec::new(alloc);
    for entry in journal {
        push_links_of_broker(alloc, journal, entry, &mut links)?;
    }
    Ok(links)
}

/// The link of that name.
#[tactic(auto, unfolding(fed_journal::specs::Links::link_of))]
pub fn link_of(
    alloc: Global,
    journal: &[Entry],
    link: &Text,
) -> Result<Option<LinkSpec>, AllocError>
    ensures { IfOk result (λ spec. spec ≡ link_of journal.now link.now) }
{
    let links = links_of(alloc, journal)?;
    Ok(links.into_iter().find(|spec| &spec.name == link))
}

/// Whether the place has a shovel of that name.
#[tactic(auto, unfolding(fed_journal::specs::Links::is_shovel_set))]
pub fn is_shovel_set(journal: &[Entry], place: &Place, name: &Text) -> bool
    ensures { result ≡ is_shovel_set journal.now place.now name.now }
{
    journal.iter().any(
        |entry| matches!(entry, Entry::ShovelSet { place: at, name: set, .. } if at == place && set == name),
    )
}
