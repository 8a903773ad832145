//! The words of a line, each after a space.
ghost use Rattle.std.specs.Prelude.{◌≡◌, ◌<◌, [], ◌∷◌, ◌++◌, OnOk, IfOk, flat_map, string_bytes};
ghost use Rattle.std.specs.Fmt.{decimal};
ghost use Rattle.fed_journal.specs.Words.{is_plain, hex_digit, percent_octet, word, place_word};
ghost use Rattle.schedule_writer.specs.Lines.{spaced, option_words};

use amqp_props::Text;
use fed_journal::page::Page;
use fed_journal::place::Place;
use std::alloc::{AllocError, Global};

/// Appends a word that stands for itself.
pub(crate) fn push_fixed(page: &mut Page, text: &str) -> Result<(), AllocError>
    ensures { OnOk result (page.new ≡ page.old ++ spaced text.now) }
{
    page.push(" ")?;
    page.push(text)
}

/// Appends the word of a text.
pub(crate) fn push_name(page: &mut Page, name: &Text) -> Result<(), AllocError>
    ensures { OnOk result (page.new ≡ page.old ++ spaced (word name.now)) }
{
    page.push(" ")?;
    page.push_word(name.as_str())
}

/// Appends the word of a place.
pub(crate) fn push_place(page: &mut Page, place: &Place) -> Result<(), AllocError>
    ensures { OnOk result (page.new ≡ page.old ++ spaced (place_word place.now)) }
{
    page.push(" ")?;
    page.push_place(place)
}

/// Appends a number.
pub(crate) fn push_number(page: &mut Page, number: u64) -> Result<(), AllocError>
    ensures { OnOk result (page.new ≡ page.old ++ spaced (decimal number)) }
{
    page.push(" ")?;
    page.push_number(number)
}

/// Appends an option, if it is given.
pub(crate) fn push_option(page: &mut Page, given: bool, option: &str) -> Result<(), AllocError>
    ensures { OnOk result (page.new ≡ page.old ++ flat_map spaced (option_words given option.now)) }
{
    if given {
        return push_fixed(page, option);
    }
    Ok(())
}

/// Whether the octet stands for itself in a word.
fn is_plain(octet: u8) -> bool
    ensures { result ≡ is_plain octet }
{
    octet.is_ascii_alphanumeric() || matches!(octet, b'.' | b'_' | b'*' | b'#' | b'-')
}

/// An upper-case hexadecimal digit.
fn hex_digit(digit: u8) -> u8
    requires { digit < 16 }
    ensures value { result ≡ hex_digit digit }
    ensures ascii { result < 128 }
{
    if digit < 10 {
        b'0' + digit
    } else {
        b'A' - 10 + digit
    }
}

/// Appends an ASCII octet.
fn push_ascii(text: &mut String, octet: u8) -> Result<(), AllocError>
    requires { octet < 128 }
    ensures { OnOk result (string_bytes text.new ≡ string_bytes text.old ++ octet ∷ []) }
{
    text.push(octet as char)
}

/// Appends an octet: itself, or `%` and two hexadecimal digits.
fn push_percent(text: &mut String, octet: u8) -> Result<(), AllocError>
    ensures { OnOk result (string_bytes text.new ≡ string_bytes text.old ++ percent_octet octet) }
{
    if is_plain(octet) {
        return push_ascii(text, octet);
    }
    push_ascii(text, b'%')?;
    push_ascii(text, hex_digit(octet / 16))?;
    push_ascii(text, hex_digit(octet % 16))
}

/// The octets, each as a word has it.
fn escaped(alloc: Global, octets: &[u8]) -> Result<String, AllocError>
    ensures { IfOk result (λ text. string_bytes text ≡ flat_map percent_octet octets.now) }
{
    let mut text = String::new(alloc);
    for octet in octets {
        push_percent(&mut text, *octet)?;
    }
    Ok(text)
}

/// Appends the word of octets, as `Page::push_word` does that of a text.
pub(crate) fn push_octets(alloc: Global, page: &mut Page, octets: &[u8]) -> Result<(), AllocError>
    ensures { OnOk result (page.new ≡ page.old ++ spaced (word octets.now)) }
{
    if octets.is_empty() {
        return push_fixed(page, "-");
    }
    if octets == b"-".as_slice() {
        return push_fixed(page, "%2D");
    }
    let text = escaped(alloc, octets)?;
    push_fixed(page, text.as_str())
}
