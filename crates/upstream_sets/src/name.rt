//! The names of links.
ghost use Rattle.std.specs.Prelude.{◌≡◌, ◌<◌, [], ◌∷◌, ◌++◌, OnOk, IfOk, flat_map};
ghost use Rattle.fed_defs.specs.Words.{word, percent_octet, hex_digit, is_plain};
ghost use Rattle.fed_defs.specs.Links.{owner_word, federation_name, shovel_name};

use amqp_props::Text;
use fed_defs::Owner;
use std::alloc::{AllocError, Global};
use std::marker::Model;

/// A name that grows at its end, seen as its octets.
#[derive(Drop)]
struct Name {
    text: String,
}

impl Model for Name {
    ghost use Rattle.std.specs.Prelude.{List, ℕ, string_bytes};

    ghost Value = { List ℕ };

    ghost view = { λ n. string_bytes n.text };
}

impl Name {
    /// An empty name.
    fn new(alloc: Global) -> Self
        ensures { result ≡ [] }
    {
        Name {
            text: String::new(alloc),
        }
    }

    /// The name as a text.
    fn into_text(self, alloc: Global) -> Result<Text, AllocError>
        ensures { IfOk result (λ text. text ≡ self) }
    {
        let Name { text } = self;
        Text::new(alloc, text)
    }

    /// Appends a text as it is.
    fn push(&mut self, text: &str) -> Result<(), AllocError>
        ensures { OnOk result (self.new ≡ self.old ++ text.now) }
    {
        self.text.push_str(text)
    }

    /// Appends an ASCII octet.
    fn push_ascii(&mut self, octet: u8) -> Result<(), AllocError>
        requires { octet < 128 }
        ensures { OnOk result (self.new ≡ self.old ++ octet ∷ []) }
    {
        self.text.push(octet as char)
    }

    /// Appends an octet as a word has it: itself, or `%` and two hexadecimal digits.
    fn push_percent(&mut self, octet: u8) -> Result<(), AllocError>
        ensures { OnOk result (self.new ≡ self.old ++ percent_octet octet) }
    {
        if is_plain(octet) {
            return self.push_ascii(octet);
        }
        self.push_ascii(b'%')?;
        self.push_ascii(hex_digit(octet / 16))?;
        self.push_ascii(hex_digit(octet % 16))
    }

    /// Appends octets as a word has them.
    fn push_octets(&mut self, octets: &[u8]) -> Result<(), AllocError>
        ensures { OnOk result (self.new ≡ self.old ++ flat_map percent_octet octets.now) }
    {
        for octet in octets {
            self.push_percent(*octet)?;
        }
        Ok(())
    }

    /// Appends a text as a word: percent-encoded, `-` if it is empty and `%2D` if it is `-`.
    fn push_word(&mut self, text: &str) -> Result<(), AllocError>
        ensures { OnOk result (self.new ≡ self.old ++ word text.now) }
    {
        if text.is_empty() {
            return self.push("-");
        }
        if text == "-" {
            return self.push("%2D");
        }
        self.push_octets(text.as_bytes())
    }

    /// Appends the owner's place: its broker for the virtual host `/`, else both.
    fn push_owner(&mut self, owner: &Owner) -> Result<(), AllocError>
        ensures { OnOk result (self.new ≡ self.old ++ owner_word owner.now) }
    {
        self.push_word(owner.broker.as_str())?;
        if owner.place.vhost.as_str() == "/" {
            return Ok(());
        }
        self.push(":")?;
        self.push_word(owner.place.vhost.as_str())
    }
}

/// Whether the octet stands for itself in a word.
fn is_plain(octet: u8) -> bool
    ensures { result ≡ is_plain octet }
{
    octet.is_ascii_alphanumeric() || matches!(octet, b'.' | b'_' | b'*' | b'#' | b'-')
}

/// An upper-case hexadecimal digit.
fn hex_digit(digit: u8) -> u8
    requires { digit < 16 }
    ensures value { result ≡ hex_digit digit }
    ensures ascii { result < 128 }
{
    if digit < 10 {
        b'0' + digit
    } else {
        b'A' - 10 + digit
    }
}

/// The name of the link of an object to an upstream.
#[tactic(auto, unfolding(fed_defs::specs::Links::federation_name))]
pub(crate) fn federation_name(
    alloc: Global,
    kind: &str,
    owner: &Owner,
    object: &Text,
    upstream: &Text,
    upstream_object: &Text,
) -> Result<Text, AllocError>
    ensures { IfOk result (λ name. name
        ≡ federation_name kind.now owner.now object.now upstream.now upstream_object.now) }
{
    let mut name = Name::new(alloc);
    name.push(kind)?;
    name.push("/")?;
    name.push_owner(owner)?;
    name.push("/")?;
    name.push_word(object.as_str())?;
    name.push("/")?;
    name.push_word(upstream.as_str())?;
    name.push("/")?;
    name.push_word(upstream_object.as_str())?;
    name.into_text(alloc)
}

/// The name of a shovel's link.
#[tactic(auto, unfolding(fed_defs::specs::Links::shovel_name))]
pub(crate) fn shovel_name(alloc: Global, owner: &Owner, shovel: &Text) -> Result<Text, AllocError>
    ensures { IfOk result (λ name. name ≡ shovel_name owner.now shovel.now) }
{
    let mut name = Name::new(alloc);
    name.push("s/")?;
    name.push_owner(owner)?;
    name.push("/")?;
    name.push_word(shovel.as_str())?;
    name.into_text(alloc)
}
