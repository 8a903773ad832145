//! What is asked of a link after a run.
use crate::line::{Line, print_numbers};
use amqp_props::Text;
use anyhow::Result;
use fed_journal::entry::Entry;
use fed_journal::link::StartState;
use fed_journal::place::Place;
use fed_world::world::World;
use journal_scan::flight::{
    flight_confirmed, flight_held, flight_noted, flight_published, flight_sent, flight_took,
};
use journal_scan::links::{is_shovel_set, link_of, links_of};
use journal_scan::phases::{is_open, session};

/// What the session holds, and how far each copy and each publication is.
fn print_flight(
    rt: &(impl Print + AllocGlobal),
    journal: &[Entry],
    link: &Text,
    session: u32,
) -> Result<()> {
    let alloc = rt.alloc();
    print_numbers(
        rt,
        "held",
        flight_held(alloc, journal, link, session)?.as_slice(),
    )?;
    print_numbers(
        rt,
        "took",
        flight_took(alloc, journal, link, session)?.as_slice(),
    )?;
    print_numbers(
        rt,
        "sent",
        flight_sent(alloc, journal, link, session)?.as_slice(),
    )?;
    let published = flight_published(alloc, journal, link, session)?;
    print_numbers(rt, "published", published.as_slice())?;
    let confirmed = flight_confirmed(alloc, journal, link, session)?;
    print_numbers(rt, "confirmed", confirmed.as_slice())?;
    print_numbers(
        rt,
        "noted",
        flight_noted(alloc, journal, link, session)?.as_slice(),
    )
}

fn print_end(rt: &impl Print, name: &str, place: &Option<Place>) -> Result<()> {
    match place {
        Some(place) => print!(rt; " {name} {}", place.broker.as_str())?,
        None => print!(rt; " {name} none")?,
    }
    Ok(())
}

/// A link: what its parameter asks for, its last session, and how far that is.
pub fn print(rt: &(impl Print + AllocGlobal), world: &World, line: &Line<'_>) -> Result<()> {
    let alloc = rt.alloc();
    let journal = world.journal().entries();
    let link = line.text(alloc, 0)?;
    let links = links_of(alloc, journal)?;
    print!(rt; " one of {}", links.len())?;
    let Some(spec) = link_of(alloc, journal, &link)? else {
        print!(rt; " isn't set")?;
        return Ok(());
    };
    let set = is_shovel_set(journal, &spec.owner, &line.text(alloc, 1)?);
    print!(rt;
        " set {set} starts {}",
        matches!(spec.start, StartState::Start)
    )?;
    print_end(rt, "source", &spec.source)?;
    print_end(rt, "target", &spec.target)?;
    let session = session(journal, &link);
    print!(rt;
        " prefetch {} session {session} open {}",
        spec.prefetch,
        is_open(journal, &link)
    )?;
    print_flight(rt, journal, &link, session)
}
