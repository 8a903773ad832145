//! The confirms that a virtual host owes to sessions of links for what they published there.

ghost use Rattle.std.specs.Prelude.{◌≡◌, ◌==◌, [], ◌∷◌, ◌++◌, OnOk, OnErr, true, false, length, not, map, filter, find};
ghost use Rattle.std.specs.Option.{option_copied};
ghost use Rattle.std.specs.List.{list_any};
ghost use Rattle.confirm_core.specs.Waits.{all_stored, released, without, ready_numbers, least};
ghost use Rattle.broker_store.specs.Confirms.{is_of, ledger_of, all_ledgers, its_ledger, opened, all_left, AreBelow};
ghost use Rattle.queue_core.specs.Rows.{is_ready};

use crate::account::Account;
use amqp_props::Text;
use confirm_core::Ledger;
use queue_core::{CopyNo, Hold, Queue};
use std::alloc::{AllocError, Global};
use std::marker::Model;

/// An account for each session that published here, in the order in which they first did.
#[derive(Drop)]
pub struct Confirms {
    alloc: Global,
    accounts: Vec<Account>,
}

impl Model for Confirms {
    ghost use Rattle.std.specs.Prelude.{List};
    ghost use Rattle.std.specs.Coded.{codes};
    ghost use Rattle.broker_store.specs.declared.account.Account.{Account};
    ghost use Rattle.broker_store.specs.contracts.account.Account as account;

    ghost Value = { List Account };

    ghost coded = { Prim.hlevel (codes, account.the_row.coded) };

    ghost view = { λ c. c.accounts.items };
}

impl Confirms {
    /// No accounts.
    pub fn new(alloc: Global) -> Confirms
        ensures { result ≡ [] }
    {
        Confirms {
            alloc,
            accounts: Vec::new(alloc),
        }
    }

    /// The session published under this number, and waits for these copies.
    ///
    /// # Errors
    ///
    /// For want of memory; the accounts are then as they were.
    pub fn open(
        &mut self,
        link: &Text,
        session: u32,
        number: u64,
        waits: &[CopyNo],
    ) -> Result<(), AllocError>
        requires { AreBelow number self.old }
        ensures ok { OnOk result (self.new ≡ opened link.now session number waits.now self.old) }
        ensures err { OnErr result (self.new ≡ self.old) }
    {
        if has_account(&self.accounts, link, session) {
            open_or_not(&mut self.accounts, link, session, number, waits)
        } else {
            add_account(self.alloc, &mut self.accounts, link, session, number, waits)
        }
    }

    /// All copies were stored, so no publication waits for anything.
    pub fn flushed(&mut self)
        ensures { self.new ≡ all_ledgers all_stored self.old }
    {
        store_all(&mut self.accounts);
    }

    /// The copy left its queue, so no publication waits for it any more.
    pub fn left(&mut self, copy: CopyNo)
        ensures { self.new ≡ all_ledgers (released copy) self.old }
    {
        leave(&mut self.accounts, copy);
    }

    /// The copies of a queue left it.
    pub fn rows_left(&mut self, queue: &Queue)
        ensures { self.new ≡ all_left (map (λ row. row.copy) queue.now) self.old }
    {
        leave_all(&mut self.accounts, queue);
    }

    /// The ready copies of a queue left it.
    pub fn ready_left(&mut self, queue: &Queue)
        ensures { self.new ≡ all_left (map (λ row. row.copy) (filter is_ready queue.now)) self.old }
    {
        leave_ready(&mut self.accounts, queue);
    }

    /// Whether the session awaits any confirm.
    pub fn is_awaited(&self, link: &Text, session: u32) -> bool
        ensures { result ≡ not (length (ledger_of link.now session self.now) == 0) }
    {
        match find_account(&self.accounts, link, session) {
            Some(account) => !account.ledger.is_empty(),
            None => false,
        }
    }

    /// The least publication of the session that waits for nothing; None exactly where there is none.
    pub fn next_ready(&self, link: &Text, session: u32) -> Option<u64>
        ensures { result ≡ least (ready_numbers (ledger_of link.now session self.now)) }
    {
        find_account(&self.accounts, link, session)?
            .ledger
            .next_ready()
    }

    /// The publication was confirmed to the session.
    pub fn answered(&mut self, link: &Text, session: u32, number: u64)
        ensures { self.new ≡ its_ledger link.now session (without number) self.old }
    {
        answer(&mut self.accounts, link, session, number);
    }
}

/// The session's account.
fn find_account<'a>(accounts: &'a [Account], link: &Text, session: u32) -> Option<&'a Account>
    ensures { option_copied result ≡ find (is_of link.now session) accounts.now }
{
    accounts.iter().find(|account| account.is_of(link, session))
}

/// Whether the session has an account.
fn has_account(accounts: &[Account], link: &Text, session: u32) -> bool
    ensures { result ≡ list_any (is_of link.now session) accounts.now }
{
    accounts.iter().any(|account| account.is_of(link, session))
}

/// Adds an account for the session, with this publication.
///
/// # Errors
///
/// For want of memory; the accounts are then as they were.
fn add_account(
    alloc: Global,
    accounts: &mut Vec<Account>,
    link: &Text,
    session: u32,
    number: u64,
    waits: &[CopyNo],
) -> Result<(), AllocError>
    requires { list_any (is_of link.now session) accounts.old.items ≡ false }
    ensures ok { OnOk result (accounts.new.items ≡ opened link.now session number waits.now accounts.old.items) }
    ensures err { OnErr result (accounts.new.items ≡ accounts.old.items) }
{
    let mut ledger = Ledger::new(alloc);
    ledger.open(number, waits)?;
    accounts.push(Account {
        link: link.clone()?,
        session,
        ledger,
    })?;
    Ok(())
}

/// Opens the publication in the session's account; after an error it may be open there, or not.
fn open_in(
    accounts: &mut Vec<Account>,
    link: &Text,
    session: u32,
    number: u64,
    waits: &[CopyNo],
) -> Result<(), AllocError>
    requires { AreBelow number accounts.old.items }
    ensures ok { OnOk result (accounts.new.items ≡ its_ledger link.now session (λ ledger. ledger ++ record { number = number; waits = waits.now } ∷ []) accounts.old.items) }
    ensures err { OnErr result (its_ledger link.now session (without number) accounts.new.items ≡ accounts.old.items) }
{
    for account in accounts.iter_mut() {
        account.open(link, session, number, waits)?;
    }
    Ok(())
}

/// Opens the publication in the session's account.
///
/// # Errors
///
/// For want of memory; the accounts are then as they were.
fn open_or_not(
    accounts: &mut Vec<Account>,
    link: &Text,
    session: u32,
    number: u64,
    waits: &[CopyNo],
) -> Result<(), AllocError>
    requires there { list_any (is_of link.now session) accounts.old.items ≡ true }
    requires below { AreBelow number accounts.old.items }
    ensures ok { OnOk result (accounts.new.items ≡ opened link.now session number waits.now accounts.old.items) }
    ensures err { OnErr result (accounts.new.items ≡ accounts.old.items) }
{
    match open_in(accounts, link, session, number, waits) {
        Ok(()) => Ok(()),
        Err(e) => {
            answer(accounts, link, session, number);
            Err(e)
        }
    }
}

/// No publication waits for anything any more.
fn store_all(accounts: &mut Vec<Account>)
    ensures { accounts.new.items ≡ all_ledgers all_stored accounts.old.items }
{
    for account in accounts.iter_mut() {
        account.flushed();
    }
}

/// No publication waits for the copy any more.
fn leave(accounts: &mut Vec<Account>, copy: CopyNo)
    ensures { accounts.new.items ≡ all_ledgers (released copy) accounts.old.items }
{
    for account in accounts.iter_mut() {
        account.left(copy);
    }
}

/// No publication waits for these copies any more.
fn leave_all(accounts: &mut Vec<Account>, queue: &Queue)
    ensures { accounts.new.items ≡ all_left (map (λ row. row.copy) queue.now) accounts.old.items }
{
    for (copy, _) in queue.iter() {
        leave(accounts, *copy);
    }
}

/// No publication waits for these copies any more, as far as they are ready.
fn leave_ready(accounts: &mut Vec<Account>, queue: &Queue)
    ensures { accounts.new.items ≡ all_left (map (λ row. row.copy) (filter is_ready queue.now)) accounts.old.items }
{
    for (copy, hold) in queue.iter() {
        if *hold == Hold::Ready {
            leave(accounts, *copy);
        }
    }
}

/// Closes the publication in the session's account.
fn answer(accounts: &mut Vec<Account>, link: &Text, session: u32, number: u64)
    ensures { accounts.new.items ≡ its_ledger link.now session (without number) accounts.old.items }
{
    for account in accounts.iter_mut() {
        account.answered(link, session, number);
    }
}
