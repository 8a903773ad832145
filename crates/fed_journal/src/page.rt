//! A text that grows: names of links, and printed lines.
ghost use Rattle.std.specs.Prelude.{◌≡◌, ◌<◌, [], ◌∷◌, ◌++◌, List, ℕ, OnOk, OnErr, IfOk, string_bytes, length, flat_map};
ghost use Rattle.std.specs.Fmt.{decimal};
ghost use Rattle.fed_journal.specs.Words.{word, place_word, percent_octet, hex_digit, low_digit, hex_octet, is_plain, shovel_link_name};

use crate::place::Place;
use amqp_props::Text;
use std::alloc::{AllocError, Global};
use std::marker::Model;

/// A text that grows at its end, seen as its octets. After an `Err` of a call that writes more than
/// one piece it may hold a part of them.
#[derive(Drop)]
pub struct Page {
    text: String,
}

impl Model for Page {
    ghost use Rattle.std.specs.Prelude.{List, ℕ, string_bytes};

    ghost Value = { List ℕ };

    ghost view = { λ p. string_bytes p.text };
}

impl Page {
    /// An empty page.
    pub fn new(alloc: Global) -> Self
        ensures { result ≡ [] }
    {
        Page {
            text: String::new(alloc),
        }
    }

    /// The text so far.
    pub fn as_str(&self) -> &str
        ensures { result.now ≡ self.now }
    {
        self.text.as_str()
    }

    /// The page as a text.
    ///
    /// # Errors
    ///
    /// For want of memory.
    pub fn into_text(self) -> Result<Text, AllocError>
        ensures { IfOk result (λ text. text ≡ self) }
    {
        let Page { text } = self;
        let alloc = *text.allocator();
        Text::new(alloc, text)
    }

    /// Appends a text as it is.
    pub fn push(&mut self, text: &str) -> Result<(), AllocError>
        ensures ok { OnOk result (self.new ≡ self.old ++ text.now) }
        ensures err { OnErr result (self.new ≡ self.old) }
    {
        self.text.push_str(text)
    }

    /// Appends an ASCII octet.
    fn push_ascii(&mut self, octet: u8) -> Result<(), AllocError>
        requires { octet < 128 }
        ensures { OnOk result (self.new ≡ self.old ++ octet ∷ []) }
    {
        self.text.push(octet as char)
    }

    /// Appends a number in decimal.
    pub fn push_number(&mut self, number: u64) -> Result<(), AllocError>
        ensures { OnOk result (self.new ≡ self.old ++ decimal number) }
    {
        write!(self.text, "{number}")
    }

    /// Appends an octet as a word has it: itself, or `%` and two hexadecimal digits.
    fn push_percent(&mut self, octet: u8) -> Result<(), AllocError>
        ensures { OnOk result (self.new ≡ self.old ++ percent_octet octet) }
    {
        if is_plain(octet) {
            return self.push_ascii(octet);
        }
        self.push_ascii(b'%')?;
        self.push_ascii(hex_digit(octet / 16))?;
        self.push_ascii(hex_digit(octet % 16))
    }

    /// Appends a text as a word: percent-encoded, `-` if it is empty and `%2D` if it is `-`.
    pub fn push_word(&mut self, text: &str) -> Result<(), AllocError>
        ensures { OnOk result (self.new ≡ self.old ++ word text.now) }
    {
        if text.is_empty() {
            return self.push("-");
        }
        if text == "-" {
            return self.push("%2D");
        }
        self.push_octets(text.as_bytes())
    }

    fn push_octets(&mut self, octets: &[u8]) -> Result<(), AllocError>
        ensures { OnOk result (self.new ≡ self.old ++ flat_map percent_octet octets.now) }
    {
        for octet in octets {
            self.push_percent(*octet)?;
        }
        Ok(())
    }

    /// Appends an octet as two lower-case hexadecimal digits.
    fn push_hex_octet(&mut self, octet: u8) -> Result<(), AllocError>
        ensures { OnOk result (self.new ≡ self.old ++ hex_octet octet) }
    {
        self.push_ascii(low_digit(octet / 16))?;
        self.push_ascii(low_digit(octet % 16))
    }

    /// Appends octets in lower-case hexadecimal.
    pub fn push_hex(&mut self, octets: &[u8]) -> Result<(), AllocError>
        ensures { OnOk result (self.new ≡ self.old ++ flat_map hex_octet octets.now) }
    {
        for octet in octets {
            self.push_hex_octet(*octet)?;
        }
        Ok(())
    }

    /// Appends a place: its broker for the virtual host `/`, else both.
    pub fn push_place(&mut self, place: &Place) -> Result<(), AllocError>
        ensures { OnOk result (self.new ≡ self.old ++ place_word place.now) }
    {
        self.push_word(place.broker.as_str())?;
        if place.vhost.as_str() == "/" {
            return Ok(());
        }
        self.push(":")?;
        self.push_word(place.vhost.as_str())
    }
}

/// Whether the octet stands for itself in a word.
fn is_plain(octet: u8) -> bool
    ensures { result ≡ is_plain octet }
{
    octet.is_ascii_alphanumeric() || matches!(octet, b'.' | b'_' | b'*' | b'#' | b'-')
}

/// An upper-case hexadecimal digit.
fn hex_digit(digit: u8) -> u8
    requires { digit < 16 }
    ensures value { result ≡ hex_digit digit }
    ensures ascii { result < 128 }
{
    if digit < 10 {
        b'0' + digit
    } else {
        b'A' - 10 + digit
    }
}

/// A lower-case hexadecimal digit.
fn low_digit(digit: u8) -> u8
    requires { digit < 16 }
    ensures value { result ≡ low_digit digit }
    ensures ascii { result < 128 }
{
    if digit < 10 {
        b'0' + digit
    } else {
        b'a' - 10 + digit
    }
}

/// The name of the shovel that a place's parameter sets.
pub fn shovel_link_name(alloc: Global, owner: &Place, name: &Text) -> Result<Text, AllocError>
    ensures { IfOk result (λ link. link ≡ shovel_link_name owner.now name.now) }
{
    let mut page = Page::new(alloc);
    page.push("s/")?;
    page.push_place(owner)?;
    page.push("/")?;
    page.push_word(name.as_str())?;
    page.into_text()
}
