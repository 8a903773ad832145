//! The listing of a journal.
ghost use Rattle.std.specs.Prelude.{◌≡◌, ◌++◌, ◌<◌, ◌≤◌, All, Err, IfOk, OnOk, OnErr, flat_map, length};
ghost use Rattle.std.specs.Option.{option_to_list};
ghost use Rattle.fed_journal.specs.Copies.{IsFitting};
ghost use Rattle.fed_journal.specs.Limits.{most_entries};
ghost use Rattle.fed_status.specs.Bindings.{binding_lines};
ghost use Rattle.fed_status.specs.Links.{link_line};
ghost use Rattle.fed_status.specs.Listing.{object_lines, listing};
ghost use Rattle.fed_status.specs.Queues.{place_begun, places_of, queue_lines};

use crate::binding_line::push_binding_lines;
use crate::fault::TextFault;
use crate::link_line::push_link_line;
use crate::queue_line::push_queue_lines;
use amqp_props::Text;
use fed_journal::entry::Entry;
use fed_journal::link::LinkSpec;
use fed_journal::page::Page;
use fed_journal::place::Place;
use journal_scan::links::links_of;
use std::alloc::{AllocError, Global};

/// The most octets of a page that these calls append to.
const MAX_TEXT: usize = 67_108_864;

/// Appends the place that the entry begins, if it begins one.
fn push_place(alloc: Global, entry: &Entry, places: &mut Vec<Place>) -> Result<(), AllocError>
    ensures { OnOk result (places.new.items ≡ places.old.items ++ option_to_list (place_begun entry.now)) }
{
    if let Entry::Begun { broker, .. } = entry {
        let broker = broker.clone()?;
        let vhost = Text::from_str(alloc, "/")?;
        places.push(Place { broker, vhost })?;
    }
    Ok(())
}

/// The places of the run, in the order of its brokers.
#[tactic(auto, unfolding(crate::specs::Queues::places_of))]
fn places_of(alloc: Global, journal: &[Entry]) -> Result<Vec<Place>, AllocError>
    ensures { IfOk result (λ places. places.items ≡ places_of journal.now) }
{
    let mut places = Vec::new(alloc);
    for entry in journal {
        push_place(alloc, entry, &mut places)?;
    }
    Ok(places)
}

/// Appends the queue lines of every place.
fn push_queues(
    alloc: Global,
    journal: &[Entry],
    places: &[Place],
    page: &mut Page,
) -> Result<(), AllocError>
    requires { All IsFitting journal.now }
    ensures { OnOk result (page.new ≡ page.old ++ flat_map (queue_lines journal.now) places.now) }
{
    for place in places {
        push_queue_lines(alloc, journal, place, page)?;
    }
    Ok(())
}

/// Appends the binding lines of every place.
fn push_bindings(
    alloc: Global,
    journal: &[Entry],
    places: &[Place],
    page: &mut Page,
) -> Result<(), AllocError>
    requires fits { All IsFitting journal.now }
    requires within { length journal.now ≤ most_entries }
    ensures { OnOk result (page.new ≡ page.old ++ flat_map (binding_lines journal.now) places.now) }
{
    for place in places {
        push_binding_lines(alloc, journal, place, page)?;
    }
    Ok(())
}

/// Appends the lines of these links.
fn push_links(
    alloc: Global,
    journal: &[Entry],
    links: &[LinkSpec],
    page: &mut Page,
) -> Result<(), AllocError>
    ensures { OnOk result (page.new ≡ page.old ++ flat_map (link_line journal.now) links.now) }
{
    for spec in links {
        push_link_line(alloc, journal, spec, page)?;
    }
    Ok(())
}

/// The lines of the journal's queues and bindings.
#[tactic(auto, unfolding(crate::specs::Listing::object_lines))]
fn object_page(alloc: Global, journal: &[Entry]) -> Result<Page, AllocError>
    requires fits { All IsFitting journal.now }
    requires within { length journal.now ≤ most_entries }
    ensures { IfOk result (λ page. page ≡ object_lines journal.now) }
{
    let places = places_of(alloc, journal)?;
    let mut page = Page::new(alloc);
    push_queues(alloc, journal, places.as_slice(), &mut page)?;
    push_bindings(alloc, journal, places.as_slice(), &mut page)?;
    Ok(page)
}

/// The listing of the journal.
#[tactic(auto, unfolding(crate::specs::Listing::listing))]
fn listing_page(alloc: Global, journal: &[Entry]) -> Result<Page, AllocError>
    requires fits { All IsFitting journal.now }
    requires within { length journal.now ≤ most_entries }
    ensures { IfOk result (λ page. page ≡ listing journal.now) }
{
    let links = links_of(alloc, journal)?;
    let mut page = object_page(alloc, journal)?;
    push_links(alloc, journal, links.as_slice(), &mut page)?;
    Ok(page)
}

/// Appends a text, unless the page gets too long.
///
/// # Errors
///
/// `Long` where the page would have over 67,108,864 octets, or for want of memory; the page is then as it was.
fn append(page: &mut Page, lines: &Page) -> Result<(), TextFault>
    ensures appended { OnOk result (page.new ≡ page.old ++ lines.now) }
    ensures within { OnOk result (length (page.old ++ lines.now) ≤ 67108864) }
    ensures long { result ≡ Err TextFault.Long → 67108864 < length (page.old ++ lines.now) }
    ensures untouched { OnErr result (page.new ≡ page.old) }
{
    let length = page.as_str().len();
    let more = lines.as_str();
    if length > MAX_TEXT || more.len() > MAX_TEXT - length {
        return Err(TextFault::Long);
    }
    page.push(more)?;
    Ok(())
}

/// Appends the queues and bindings of the journal.
///
/// # Errors
///
/// `Long` where the page would have over 67,108,864 octets, or for want of memory; nothing is appended then.
pub fn push_object_lines(alloc: Global, journal: &[Entry], page: &mut Page) -> Result<(), TextFault>
    requires fits { All IsFitting journal.now }
    requires within { length journal.now ≤ most_entries }
    ensures lines { OnOk result (page.new ≡ page.old ++ object_lines journal.now) }
    ensures short { OnOk result (length (page.old ++ object_lines journal.now) ≤ 67108864) }
    ensures long { result ≡ Err TextFault.Long → 67108864 < length (page.old ++ object_lines journal.now) }
    ensures untouched { OnErr result (page.new ≡ page.old) }
{
    let lines = object_page(alloc, journal)?;
    append(page, &lines)
}

/// Appends the listing of the journal: its queues, bindings and links.
///
/// # Errors
///
/// `Long` where the page would have over 67,108,864 octets, or for want of memory; nothing is appended then.
pub fn push_listing(alloc: Global, journal: &[Entry], page: &mut Page) -> Result<(), TextFault>
    requires fits { All IsFitting journal.now }
    requires within { length journal.now ≤ most_entries }
    ensures listing { OnOk result (page.new ≡ page.old ++ listing journal.now) }
    ensures short { OnOk result (length (page.old ++ listing journal.now) ≤ 67108864) }
    ensures long { result ≡ Err TextFault.Long → 67108864 < length (page.old ++ listing journal.now) }
    ensures untouched { OnErr result (page.new ≡ page.old) }
{
    let lines = listing_page(alloc, journal)?;
    append(page, &lines)
}
