//! The URIs of upstreams and shovels.
ghost use Rattle.std.specs.Prelude.{◌≡◌};

use amqp_props::Text;
use amqp_uri::{AmqpUri, UriFault};
use std::alloc::Global;
use std::marker::Model;

/// An AMQP URI and its text, which is what contracts see: it says what the URI is.
#[derive(Debug, Drop)]
pub struct UriRead {
    text: Text,
    uri: AmqpUri,
}

impl Model for UriRead {
    ghost use Rattle.std.specs.Prelude.{ℕ, List};
    ghost use Rattle.fed_defs.specs.Uris.{IsReadFrom};

    ghost Value = { List ℕ };

    ghost view = { λ u. u.text };

    ghost invariant = { λ u. IsReadFrom u.text u.uri };
}

impl UriRead {
    ghost use Rattle.std.specs.Prelude.{◌≡◌, ◌≢◌, None, Some, IfOk, OnOk, IfErr};
    ghost use Rattle.amqp_uri.specs.Uri.{uri_fault};
    ghost use Rattle.fed_defs.specs.Uris.{IsReadFrom};

    /// Reads a URI (RabbitMQ, "AMQP URI Specification"). The fault is the first in reading order.
    pub fn read(alloc: Global, text: &str) -> Result<UriRead, UriFault>
        ensures read { IfOk result (λ uri. uri ≡ text.now) }
        ensures ok { OnOk result (uri_fault text.now ≡ None) }
        ensures fault { IfErr result (λ fault. fault ≢ UriFault.Memory → uri_fault text.now ≡ Some fault) }
    {
        let uri = AmqpUri::read(alloc, text)?;
        match Text::from_str(alloc, text) {
            Ok(text) => Ok(UriRead { text, uri }),
            Err(_) => Err(UriFault::Memory),
        }
    }

    /// The text of the URI.
    pub fn text(&self) -> &str
        ensures { result.now ≡ self.now }
    {
        self.text.as_str()
    }

    /// The URI itself.
    pub fn uri(&self) -> &AmqpUri
        ensures { IsReadFrom self.now result.now }
    {
        &self.uri
    }
}

/// URIs in their order, of which the first that fits is used.
#[derive(Debug, Drop)]
pub struct Uris {
    list: Vec<UriRead>,
}

impl Model for Uris {
    ghost use Rattle.std.specs.Prelude.{ℕ, List};

    ghost Value = { List (List ℕ) };

    ghost view = { λ u. u.list.items };
}

impl Uris {
    /// The URIs of a list.
    pub fn new(list: Vec<UriRead>) -> Self
        ensures { result ≡ list.items }
    {
        Uris { list }
    }

    /// The URIs as a slice.
    pub fn as_slice(&self) -> &[UriRead]
        ensures { result.now ≡ self.now }
    {
        self.list.as_slice()
    }
}
