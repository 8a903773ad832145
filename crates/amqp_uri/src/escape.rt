ghost use Rattle.std.specs.Prelude.{◌≡◌, ◌≢◌, ◌+◌, ◌<◌, ◌^◌, length, None, Some, IfOk, IfErr, OnOk, string_bytes};
ghost use Rattle.percent_encoding.specs.Percent.{percent_decode};
ghost use Rattle.amqp_uri.specs.Uri.{begin_with_digits, bad_escape, first_escape, escape_fault};

use crate::fault::UriFault;
use crate::parts::length_before;
use percent_encoding::{DecodeError, percent_decode};
use std::alloc::Global;

/// Whether two hexadecimal digits begin the bytes.
fn begin_with_digits(bytes: &[u8]) -> bool
    ensures { result ≡ begin_with_digits bytes.now }
{
    match bytes {
        [high, low, ..] => high.is_ascii_hexdigit() && low.is_ascii_hexdigit(),
        _ => false,
    }
}

/// The place of the first `%` that lacks its digits, where the part begins at this place.
#[tactic(auto, unfolding(crate::specs::Uri::bad_escape))]
fn bad_escape(part: &[u8], place: usize) -> Option<usize>
    requires { place + length part.now < 2 ^ 64 }
    ensures { result ≡ bad_escape place part.now }
{
    for (i, byte) in part.iter().enumerate() {
        if *byte == b'%' && !begin_with_digits(&part[i + 1..]) {
            return Some(place + i);
        }
    }
    None
}

/// The place of the first `%`, where the part begins at this place.
fn first_escape(part: &[u8], place: usize) -> usize
    requires { place + length part.now < 2 ^ 64 }
    ensures { result ≡ first_escape place part.now }
{
    place + length_before(part, b'%')
}

/// The text that a part of a URI stands for. The part begins at this place of the URI.
#[tactic(auto, using(crate::proofs::EscapeLemmas::text_fault, crate::proofs::EscapeLemmas::no_text_fault), unfolding(crate::specs::Uri::escape_fault))]
pub(crate) fn decode(alloc: Global, part: &[u8], place: usize) -> Result<String, UriFault>
    requires { place + length part.now < 2 ^ 64 }
    ensures text { IfOk result (λ text. string_bytes text ≡ percent_decode part.now) }
    ensures ok { OnOk result (escape_fault place part.now ≡ None) }
    ensures fault { IfErr result (λ fault. fault ≢ UriFault.Memory → escape_fault place part.now ≡ Some fault) }
{
    if let Some(place) = bad_escape(part, place) {
        return Err(UriFault::Escape(place));
    }
    match percent_decode(part).decode_utf8(alloc) {
        Ok(text) => Ok(text.into_owned(alloc)?),
        Err(DecodeError::OutOfMemory) => Err(UriFault::Memory),
        Err(DecodeError::Utf8(_)) => Err(UriFault::Escape(first_escape(part, place))),
    }
}
