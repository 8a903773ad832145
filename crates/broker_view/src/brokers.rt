//! The brokers of a run, which follow its journal.

ghost use Rattle.std.specs.Prelude.{◌≡◌, ◌++◌, [], All, IfOk, OnOk, map};
ghost use Rattle.std.specs.List.{list_any};
ghost use Rattle.fed_journal.specs.Names.{same_text};
ghost use Rattle.fed_journal.specs.Copies.{IsFitting};
ghost use Rattle.broker_view.specs.Suits.{EachSuits};
ghost use Rattle.broker_view.specs.Hosts.{recorded_at, with_host as hosts_with, AreViews, IsRecordable, IsTellable, IsNext, LeadsOn};

use crate::host::{Host, record};
use crate::run::Run;
use amqp_props::Text;
use broker_store::Confirms;
use fed_journal::entry::Entry;
use mini_broker::Vhost;
use std::alloc::{AllocError, Global};

/// The virtual hosts of the brokers.
#[derive(Drop)]
pub struct Brokers {
    pub hosts: Vec<Host>,
}

/// Whether there is a host of the broker.
fn has_host(hosts: &[Host], broker: &Text) -> bool
    ensures { result ≡ list_any (λ host. same_text host.broker broker.now) hosts.now }
{
    hosts.iter().any(|host| host.broker == *broker)
}

/// Adds a bare host of the broker, unless there is one.
///
/// # Errors
///
/// For want of memory.
fn add_host(alloc: Global, hosts: &mut Vec<Host>, broker: &Text) -> Result<(), AllocError>
    ensures { OnOk result (hosts.new.items ≡ hosts_with broker.now hosts.old.items) }
{
    if has_host(hosts, broker) {
        return Ok(());
    }
    hosts.push(Host {
        broker: broker.clone()?,
        vhost: Vhost::new(alloc)?,
        confirms: Confirms::new(alloc),
    })?;
    Ok(())
}

/// Does to each host what the entry records of its place.
///
/// # Errors
///
/// For want of memory.
fn record_each(alloc: Global, hosts: &mut Vec<Host>, entry: &Entry) -> Result<(), AllocError>
    requires recordable { All (λ host. IsRecordable host entry.now) hosts.old.items }
    requires tellable { All (λ host. IsTellable host entry.now) hosts.old.items }
    requires fits { IsFitting entry.now }
    ensures { OnOk result (hosts.new.items ≡ map (recorded_at entry.now) hosts.old.items) }
{
    for host in hosts.iter_mut() {
        record(alloc, host, entry)?;
    }
    Ok(())
}

/// Does to the hosts what the entry records.
///
/// # Errors
///
/// For want of memory.
fn record_entry(alloc: Global, hosts: &mut Vec<Host>, entry: &Entry) -> Result<(), AllocError>
    requires next { IsNext hosts.old.items entry.now }
    requires fits { IsFitting entry.now }
    ensures { OnOk result (LeadsOn hosts.old.items entry.now hosts.new.items) }
{
    match entry {
        Entry::Begun { broker, .. } => add_host(alloc, hosts, broker)?,
        _ => record_each(alloc, hosts, entry)?,
    }
    Ok(())
}

impl Brokers {
    /// No brokers.
    pub fn new(alloc: Global) -> Brokers
        ensures { AreViews [] result.hosts.items }
    {
        Brokers {
            hosts: Vec::new(alloc),
        }
    }

    /// Does what these entries record, which follow the others of the journal.
    ///
    /// # Errors
    ///
    /// For want of memory; the brokers follow no journal any more.
    pub fn record(
        &mut self,
        alloc: Global,
        before: &[Entry],
        entries: &[Entry],
    ) -> Result<(), AllocError>
        requires views { AreViews before.now self.old.hosts.items }
        requires suits { EachSuits before.now entries.now }
        requires fits { All IsFitting entries.now }
        ensures { OnOk result (AreViews (before.now ++ entries.now) self.new.hosts.items) }
    {
        for entry in entries {
            record_entry(alloc, &mut self.hosts, entry)?;
        }
        Ok(())
    }

    /// The run that the entries and the brokers are.
    pub fn run<'a>(&'a self, entries: &'a [Entry]) -> Run<'a>
        requires { AreViews entries.now self.now.hosts.items }
        ensures { result ≡ entries.now }
    {
        Run::new(entries, self.hosts.as_slice())
    }
}
