//! Names of links.
ghost use Rattle.std.specs.Prelude.{◌≡◌, ◌++◌, IfOk, OnOk, flat_map};
ghost use Rattle.std.specs.List.{list_any};
ghost use Rattle.schedule_words.specs.Links.{parts_of, part_word, place_part_word, next_part, joined, link_name, is_long_part, is_long_place, has_long, is_bad_link};

use crate::fields::{is_long, place_of};
use crate::words::{split, text_of};
use amqp_props::{Octets, Text};
use fed_journal::page::Page;
use std::alloc::{AllocError, Global};

/// The parts of a link's name.
#[tactic(auto, unfolding(crate::specs::Links::parts_of))]
fn parts_of(alloc: Global, word: &[u8]) -> Result<Vec<Octets>, AllocError>
    ensures { IfOk result (λ parts. parts.items ≡ parts_of word.now) }
{
    split(alloc, word, b'/')
}

/// Appends a part as a run writes it.
#[tactic(auto, unfolding(crate::specs::Links::part_word))]
fn push_part(alloc: Global, page: &mut Page, part: &[u8]) -> Result<(), AllocError>
    ensures { OnOk result (page.new ≡ page.old ++ part_word part.now) }
{
    let text = text_of(alloc, part)?;
    page.push_word(text.as_str())
}

/// Appends the part that is a place.
#[tactic(auto, unfolding(crate::specs::Links::place_part_word))]
fn push_place_part(alloc: Global, page: &mut Page, part: &[u8]) -> Result<(), AllocError>
    ensures { OnOk result (page.new ≡ page.old ++ place_part_word part.now) }
{
    let place = place_of(alloc, part)?;
    page.push_place(&place)
}

/// Appends the parts after the place.
fn push_next_parts(alloc: Global, page: &mut Page, parts: &[Octets]) -> Result<(), AllocError>
    ensures { OnOk result (page.new ≡ page.old ++ flat_map next_part parts.now) }
{
    for part in parts {
        page.push("/")?;
        push_part(alloc, page, part.as_slice())?;
    }
    Ok(())
}

/// Appends the parts, of which the second is a place.
#[tactic(auto, unfolding(crate::specs::Links::joined))]
fn push_parts(alloc: Global, page: &mut Page, parts: &[Octets]) -> Result<(), AllocError>
    ensures { OnOk result (page.new ≡ page.old ++ joined parts.now) }
{
    match parts {
        [] => Ok(()),
        [first] => push_part(alloc, page, first.as_slice()),
        [first, place, others @ ..] => {
            push_part(alloc, page, first.as_slice())?;
            page.push("/")?;
            push_place_part(alloc, page, place.as_slice())?;
            push_next_parts(alloc, page, others)
        }
    }
}

/// The link's name as a run writes it.
#[tactic(auto, unfolding(crate::specs::Links::link_name))]
pub fn link_name(alloc: Global, word: &[u8]) -> Result<Text, AllocError>
    ensures { IfOk result (λ name. name ≡ link_name word.now) }
{
    let parts = parts_of(alloc, word)?;
    let mut page = Page::new(alloc);
    push_parts(alloc, &mut page, parts.as_slice())?;
    page.into_text()
}

fn is_long_part(alloc: Global, part: &[u8]) -> Result<bool, AllocError>
    ensures { IfOk result (λ long. long ≡ is_long_part part.now) }
{
    let text = text_of(alloc, part)?;
    Ok(is_long(&text))
}

fn is_long_place(alloc: Global, part: &[u8]) -> Result<bool, AllocError>
    ensures { IfOk result (λ long. long ≡ is_long_place part.now) }
{
    let place = place_of(alloc, part)?;
    Ok(is_long(&place.broker) || is_long(&place.vhost))
}

fn has_long_part(alloc: Global, parts: &[Octets]) -> Result<bool, AllocError>
    ensures { IfOk result (λ long. long ≡ list_any is_long_part parts.now) }
{
    for part in parts {
        if is_long_part(alloc, part.as_slice())? {
            return Ok(true);
        }
    }
    Ok(false)
}

#[tactic(auto, unfolding(crate::specs::Links::has_long))]
fn has_long(alloc: Global, parts: &[Octets]) -> Result<bool, AllocError>
    ensures { IfOk result (λ long. long ≡ has_long parts.now) }
{
    match parts {
        [] => Ok(false),
        [first] => is_long_part(alloc, first.as_slice()),
        [first, place, others @ ..] => {
            if is_long_part(alloc, first.as_slice())? {
                return Ok(true);
            }
            if is_long_place(alloc, place.as_slice())? {
                return Ok(true);
            }
            has_long_part(alloc, others)
        }
    }
}

/// Whether a part of the link's name is too long.
#[tactic(auto, unfolding(crate::specs::Links::is_bad_link))]
pub fn is_bad_link(alloc: Global, word: &[u8]) -> Result<bool, AllocError>
    ensures { IfOk result (λ bad. bad ≡ is_bad_link word.now) }
{
    let parts = parts_of(alloc, word)?;
    has_long(alloc, parts.as_slice())
}
