//! Run names, names and places.
ghost use Rattle.std.specs.Prelude.{◌≡◌, ◌<◌, IfOk, IfSome, length};
ghost use Rattle.std.specs.List.{list_all, position};
ghost use Rattle.schedule_words.specs.Fields.{begins_run_name, is_in_run_name, is_run_name, is_long, is_colon, place_of, is_bad_place};

use crate::words::text_of;
use amqp_props::Text;
use fed_journal::place::Place;
use std::alloc::{AllocError, Global};

/// Whether a run name can begin with the octet.
fn begins_run_name(octet: u8) -> bool
    ensures { result ≡ begins_run_name octet }
{
    octet.is_ascii_lowercase() || octet.is_ascii_digit()
}

/// Whether a run name can hold the octet.
fn is_in_run_name(octet: u8) -> bool
    ensures { result ≡ is_in_run_name octet }
{
    begins_run_name(octet) || matches!(octet, b'.' | b'_' | b'-')
}

fn are_in_run_name(octets: &[u8]) -> bool
    ensures { result ≡ list_all is_in_run_name octets.now }
{
    octets.iter().all(|octet| is_in_run_name(*octet))
}

/// Whether the text can be a broker's name.
#[tactic(auto, unfolding(crate::specs::Fields::is_run_name))]
pub fn is_run_name(text: &Text) -> bool
    ensures { result ≡ is_run_name text.now }
{
    let octets = text.as_str().as_bytes();
    !octets.is_empty()
        && octets.len() <= 64
        && begins_run_name(octets[0])
        && are_in_run_name(octets)
}

/// Whether the text is too long for a name.
pub fn is_long(text: &Text) -> bool
    ensures { result ≡ is_long text.now }
{
    text.as_str().len() > 255
}

/// Where the first `:` stands.
fn colon_of(word: &[u8]) -> Option<usize>
    ensures place { result ≡ position is_colon word.now }
    ensures within { IfSome result (λ at. at < length word.now) }
{
    word.iter().position(|octet| *octet == b':')
}

/// The place that a word names.
#[tactic(auto, unfolding(crate::specs::Fields::place_of))]
pub fn place_of(alloc: Global, word: &[u8]) -> Result<Place, AllocError>
    ensures { IfOk result (λ place. place ≡ place_of word.now) }
{
    match colon_of(word) {
        Some(at) => {
            let broker = text_of(alloc, &word[..at])?;
            let vhost = text_of(alloc, &word[at + 1..])?;
            Ok(Place { broker, vhost })
        }
        None => {
            let broker = text_of(alloc, word)?;
            let vhost = Text::from_str(alloc, "/")?;
            Ok(Place { broker, vhost })
        }
    }
}

/// Whether the place has no run name, or its virtual host is too long.
pub fn is_bad_place(place: &Place) -> bool
    ensures { result ≡ is_bad_place place.now }
{
    !is_run_name(&place.broker) || is_long(&place.vhost)
}
