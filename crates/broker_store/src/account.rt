//! What a session of a link published at a virtual host and isn't answered for.

ghost use Rattle.std.specs.Prelude.{◌≡◌, ◌<◌, [], ◌∷◌, ◌++◌, if◌then◌else◌, All, OnOk, OnErr};
ghost use Rattle.confirm_core.specs.Waits.{all_stored, released, without};
ghost use Rattle.broker_store.specs.Confirms.{is_of as is_account_of, with_ledger};

use amqp_props::Text;
use confirm_core::Ledger;
use queue_core::CopyNo;
use std::alloc::AllocError;

/// The publications of a session of a link that aren't answered yet.
#[derive(Drop)]
pub struct Account {
    /// The link's name.
    pub link: Text,
    /// The number of its session.
    pub session: u32,
    /// The publications, with the copies that they wait for.
    pub ledger: Ledger,
}

impl Account {
    /// Whether it is the session's.
    pub fn is_of(&self, link: &Text, session: u32) -> bool
        ensures { result ≡ is_account_of link.now session self.now }
    {
        self.link == *link && self.session == session
    }

    /// Opens the publication, if the account is the session's.
    ///
    /// # Errors
    ///
    /// For want of memory; the account is then as it was.
    pub(crate) fn open(
        &mut self,
        link: &Text,
        session: u32,
        number: u64,
        waits: &[CopyNo],
    ) -> Result<(), AllocError>
        requires { All (λ publication. publication.number < number) self.old.ledger }
        ensures ok { OnOk result (self.new ≡ (if is_account_of link.now session self.old then with_ledger (λ ledger. ledger ++ record { number = number; waits = waits.now } ∷ []) self.old else self.old)) }
        ensures err { OnErr result (self.new ≡ self.old) }
    {
        if !self.is_of(link, session) {
            return Ok(());
        }
        self.ledger.open(number, waits)
    }

    /// All copies were stored.
    pub(crate) fn flushed(&mut self)
        ensures { self.new ≡ with_ledger all_stored self.old }
    {
        self.ledger.flushed();
    }

    /// The copy left its queue.
    pub(crate) fn left(&mut self, copy: CopyNo)
        ensures { self.new ≡ with_ledger (released copy) self.old }
    {
        self.ledger.left(copy);
    }

    /// Closes the publication, if the account is the session's.
    pub(crate) fn answered(&mut self, link: &Text, session: u32, number: u64)
        ensures { self.new ≡ (if is_account_of link.now session self.old then with_ledger (without number) self.old else self.old) }
    {
        if self.is_of(link, session) {
            self.ledger.answered(number);
        }
    }
}
