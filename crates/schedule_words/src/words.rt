//! The words of a line, and what they stand for.
ghost use Rattle.std.specs.Prelude.{◌≡◌, ◌+◌, ◌≤◌, IfOk, string_bytes, take, drop, length};
ghost use Rattle.std.specs.Str.{is_utf8};
ghost use Rattle.fed_journal.specs.Names.{same_text};
ghost use Rattle.schedule_words.specs.Words.{pieces_of, words_of, spaced_length, word_at, octets_of, text_of, is_text, is_hex_digit, begins_with_two_digits, is_well_escaped};

use amqp_props::{Octets, Text};
use percent_encoding::percent_decode;
use std::alloc::{AllocError, Global};
use std::mem;

/// The pieces between the separators.
#[tactic(auto, using(crate::proofs::Pieces::pieces_cut, crate::proofs::Pieces::pieces_kept, crate::proofs::Pieces::pieces_begun, crate::proofs::Pieces::pieces_ended, crate::proofs::Lengths::spaced_pieces))]
pub fn split(alloc: Global, octets: &[u8], separator: u8) -> Result<Vec<Octets>, AllocError>
    ensures pieces { IfOk result (λ pieces. pieces.items ≡ pieces_of separator octets.now) }
    ensures within { IfOk result (λ pieces. length pieces.items ≤ length octets.now + 1) }
    ensures spaced { IfOk result (λ pieces. spaced_length pieces.items ≡ length octets.now + 1) }
{
    let mut pieces = Vec::new(alloc);
    let mut piece = Vec::new(alloc);
    for octet in octets {
        if *octet == separator {
            let whole = mem::replace(&mut piece, Vec::new(alloc));
            pieces.push(Octets::new(alloc, whole)?)?;
        } else {
            piece.push(*octet)?;
        }
    }
    pieces.push(Octets::new(alloc, piece)?)?;
    Ok(pieces)
}

/// The words of a line.
#[tactic(auto, unfolding(crate::specs::Words::words_of))]
pub fn words_of(alloc: Global, line: &[u8]) -> Result<Vec<Octets>, AllocError>
    ensures words { IfOk result (λ words. words.items ≡ words_of line.now) }
    ensures spaced { IfOk result (λ words. spaced_length words.items ≡ length line.now + 1) }
{
    split(alloc, line, b' ')
}

/// The word at a place, without octets if there is none.
pub fn word_at(words: &[Octets], at: usize) -> &[u8]
    ensures { result.now ≡ word_at words.now at }
{
    match words.get(at) {
        Some(word) => word.as_slice(),
        None => b"",
    }
}

/// The words before a place.
pub fn words_before(words: &[Octets], at: usize) -> &[Octets]
    ensures { result.now ≡ take at words.now }
{
    if at < words.len() {
        &words[..at]
    } else {
        words
    }
}

/// The words from a place on.
pub fn words_from(words: &[Octets], at: usize) -> &[Octets]
    ensures { result.now ≡ drop at words.now }
{
    if at < words.len() { &words[at..] } else { &[] }
}

/// Whether the word is this one, as it stands.
pub fn is_word(word: &[u8], text: &str) -> bool
    ensures { result ≡ same_text word.now text.now }
{
    word == text.as_bytes()
}

/// The octets that a word, or a part of one, stands for.
#[tactic(auto, unfolding(crate::specs::Words::octets_of))]
pub fn decode(alloc: Global, word: &[u8]) -> Result<Vec<u8>, AllocError>
    ensures { IfOk result (λ octets. octets.items ≡ octets_of word.now) }
{
    let mut octets = Vec::new(alloc);
    if !is_word(word, "-") {
        percent_decode(word).append_to(&mut octets)?;
    }
    Ok(octets)
}

/// The octets that a word stands for.
pub fn octets_of(alloc: Global, word: &[u8]) -> Result<Octets, AllocError>
    ensures { IfOk result (λ octets. octets ≡ octets_of word.now) }
{
    Octets::new(alloc, decode(alloc, word)?)
}

/// The text that a word stands for, with U+FFFD for octets that aren't UTF-8.
#[tactic(auto, unfolding(crate::specs::Words::text_of))]
pub fn string_of(alloc: Global, word: &[u8]) -> Result<String, AllocError>
    ensures { IfOk result (λ text. string_bytes text ≡ text_of word.now) }
{
    let octets = decode(alloc, word)?;
    String::from_utf8_lossy(alloc, octets.as_slice())
}

/// The same as a text of the run.
pub fn text_of(alloc: Global, word: &[u8]) -> Result<Text, AllocError>
    ensures { IfOk result (λ text. text ≡ text_of word.now) }
{
    Text::new(alloc, string_of(alloc, word)?)
}

#[tactic(auto, using(crate::proofs::Utf8::is_utf8_no, crate::proofs::Utf8::is_utf8_yes))]
fn is_utf8(octets: &[u8]) -> bool
    ensures { result ≡ is_utf8 octets.now }
{
    match std::str::from_utf8(octets) {
        Ok(_) => true,
        Err(_) => false,
    }
}

/// Whether the word stands for UTF-8.
#[tactic(auto, unfolding(crate::specs::Words::is_text))]
pub fn is_text(alloc: Global, word: &[u8]) -> Result<bool, AllocError>
    ensures { IfOk result (λ text. text ≡ is_text word.now) }
{
    let octets = decode(alloc, word)?;
    Ok(is_utf8(octets.as_slice()))
}

fn is_hex_digit(octet: u8) -> bool
    ensures { result ≡ is_hex_digit octet }
{
    octet.is_ascii_hexdigit()
}

fn begins_with_two_digits(octets: &[u8]) -> bool
    ensures { result ≡ begins_with_two_digits octets.now }
{
    match octets {
        [high, low, ..] => is_hex_digit(*high) && is_hex_digit(*low),
        _ => false,
    }
}

/// Whether each `%` stands before two hexadecimal digits.
#[tactic(auto, unfolding(crate::specs::Words::is_well_escaped))]
pub fn is_well_escaped(word: &[u8]) -> bool
    ensures { result ≡ is_well_escaped word.now }
{
    for (at, octet) in word.iter().enumerate() {
        if *octet == b'%' && !begins_with_two_digits(&word[at + 1..]) {
            return false;
        }
    }
    true
}
