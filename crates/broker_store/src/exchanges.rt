//! The exchanges of a virtual host under their names.

ghost use Rattle.std.specs.Prelude.{◌≡◌, [], ◌∷◌, ◌++◌, None, OnOk, OnErr, string_bytes};
ghost use Rattle.std.specs.Option.{option_copied};
ghost use Rattle.route_core.specs.Predeclared.{predeclared_kind as kind_predeclared, predeclared_shape as shape_predeclared};
ghost use Rattle.broker_store.specs.Exchanges.{declared_shape, shape_of};

use amqp_props::ExchangeKind;
use client_rules::ExchangeShape;
use indexmap::IndexMap;
use std::alloc::{AllocError, Global};
use std::marker::Model;

/// The exchanges of a virtual host that were declared, in the order of making.
#[derive(Drop)]
pub struct Exchanges {
    table: IndexMap<String, ExchangeShape>,
}

impl Model for Exchanges {
    ghost use Rattle.std.specs.Prelude.{List, map, string_bytes};
    ghost use Rattle.broker_store.specs.Exchanges.{NamedShape};

    ghost Value = { List NamedShape };

    ghost view = { λ x. map (λ e. (string_bytes e.0, e.1)) x.table.entries };
}

/// The type of a predeclared exchange.
fn predeclared_kind(name: &str) -> Option<ExchangeKind>
    ensures { result ≡ kind_predeclared name.now }
{
    if name == "amq.direct" {
        Some(ExchangeKind::Direct)
    } else if name == "amq.fanout" {
        Some(ExchangeKind::Fanout)
    } else if name == "amq.headers" {
        Some(ExchangeKind::Headers)
    } else if name == "amq.match" {
        Some(ExchangeKind::Headers)
    } else if name == "amq.topic" {
        Some(ExchangeKind::Topic)
    } else {
        None
    }
}

/// What a predeclared exchange is declared as.
fn predeclared_shape(name: &str) -> Option<ExchangeShape>
    ensures { result ≡ shape_predeclared name.now }
{
    let kind = predeclared_kind(name)?;
    Some(ExchangeShape {
        kind,
        durable: true,
        internal: false,
    })
}

impl Exchanges {
    /// None but the predeclared ones.
    pub fn new(alloc: Global) -> Self
        ensures { result ≡ [] }
    {
        Exchanges {
            table: IndexMap::new(alloc),
        }
    }

    /// The exchange of that name that was declared.
    fn declared(&self, name: &str) -> Option<&ExchangeShape>
        ensures { option_copied result ≡ declared_shape name.now self.now }
    {
        self.table.get(name)
    }

    /// The exchange of that name, other than the default one; None exactly where there is none.
    pub fn find(&self, name: &str) -> Option<ExchangeShape>
        ensures { result ≡ shape_of name.now self.now }
    {
        match self.declared(name) {
            Some(shape) => Some(*shape),
            None => predeclared_shape(name),
        }
    }

    /// Adds an exchange as the last.
    ///
    /// # Errors
    ///
    /// For want of memory; the exchanges are then as they were.
    pub fn add(&mut self, name: String, shape: ExchangeShape) -> Result<(), AllocError>
        requires { declared_shape (string_bytes name) self.old ≡ None }
        ensures ok { OnOk result (self.new ≡ self.old ++ (string_bytes name, shape) ∷ []) }
        ensures err { OnErr result (self.new ≡ self.old) }
    {
        self.table.insert(name, shape)?;
        Ok(())
    }
}
