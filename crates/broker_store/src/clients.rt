//! The clients of a virtual host.

ghost use Rattle.std.specs.Prelude.{◌≡◌, ◌≤◌, ◌<◌, [], ◌∷◌, ◌++◌, IfOk, IfSome, OnOk, OnErr, length, position};
ghost use Rattle.std.specs.List.{list_any};
ghost use Rattle.broker_store.specs.Consumers.{is_client, client_number, registered};

use client_rules::Client;
use std::alloc::{AllocError, Global};
use std::marker::Model;

/// The clients that consumed or got, in the order in which they first did. Each has its place as its number, which has
/// 32 bits.
#[derive(Drop)]
pub struct Clients {
    list: Vec<Client>,
}

impl Model for Clients {
    ghost use Rattle.std.specs.Prelude.{List, ◌≤◌, length};
    ghost use Rattle.client_rules.specs.declared.client.Client.{Client};

    ghost Value = { List Client };

    ghost view = { λ c. c.list.items };

    ghost invariant = { λ c. length c.list.items ≤ 4294967296 };
}

impl Clients {
    /// No clients.
    pub fn new(alloc: Global) -> Self
        ensures { result ≡ [] }
    {
        Clients {
            list: Vec::new(alloc),
        }
    }

    /// The clients by rising number.
    pub fn as_slice(&self) -> &[Client]
        ensures clients { result.now ≡ self.now }
        ensures few { length result.now ≤ 4294967296 }
    {
        self.list.as_slice()
    }

    /// The number of the client, if it has one.
    pub fn find(&self, who: Client) -> Option<u32>
        ensures { result ≡ position (is_client who) self.now }
    {
        let place = place_of(&self.list, who)?;
        Some(place as u32)
    }

    /// The number of the client, or the number that it would get.
    ///
    /// # Errors
    ///
    /// Where there is no number left.
    pub fn number(&self, who: Client) -> Result<u32, AllocError>
        ensures { IfOk result (λ number. number ≡ client_number who self.now) }
    {
        let place = match place_of(&self.list, who) {
            Some(place) => place,
            None => self.list.len(),
        };
        match u32::try_from(place) {
            Ok(number) => Ok(number),
            Err(_) => Err(AllocError),
        }
    }

    /// Numbers the client, unless it has a number.
    ///
    /// # Errors
    ///
    /// For want of memory, or where there is no number left; the clients are then as they were.
    pub fn register(&mut self, who: Client) -> Result<(), AllocError>
        ensures ok { OnOk result (self.new ≡ registered who self.old) }
        ensures err { OnErr result (self.new ≡ self.old) }
    {
        if has_client(&self.list, who) {
            return Ok(());
        }
        if self.list.len() > u32::MAX as usize {
            return Err(AllocError);
        }
        self.list.push(who)?;
        Ok(())
    }
}

/// The place of the client in the list.
fn place_of(clients: &[Client], who: Client) -> Option<usize>
    ensures place { result ≡ position (is_client who) clients.now }
    ensures within { IfSome result (λ place. place < length clients.now) }
{
    clients.iter().position(|client| *client == who)
}

/// Whether the client is in the list.
fn has_client(clients: &[Client], who: Client) -> bool
    ensures { result ≡ list_any (is_client who) clients.now }
{
    clients.iter().any(|client| *client == who)
}
