//! The sessions of a link.
ghost use Rattle.std.specs.Prelude.{◌≡◌};
ghost use Rattle.fed_journal.specs.Phases.{session, phase, is_open};

use amqp_props::Text;
use fed_journal::entry::Entry;
use fed_journal::link::Phase;

/// The number of the link's last session, 0 before the first.
#[tactic(auto, unfolding(fed_journal::specs::Phases::session))]
pub fn session(journal: &[Entry], link: &Text) -> u32
    ensures { result ≡ session journal.now link.now }
{
    let mut last = 0;
    for entry in journal {
        if let Entry::Opened {
            link: opened,
            session,
            ..
        } = entry
            && opened == link
        {
            last = *session;
        }
    }
    last
}

/// What is left of the link's last session.
#[tactic(auto, unfolding(fed_journal::specs::Phases::phase))]
pub fn phase(journal: &[Entry], link: &Text) -> Phase
    ensures { result ≡ phase journal.now link.now }
{
    let mut last = Phase::Gone;
    for entry in journal {
        if let Entry::Opened { link: opened, .. } = entry
            && opened == link
        {
            last = Phase::Open;
        }
    }
    last
}

/// Whether both ends of the link's last session live.
pub fn is_open(journal: &[Entry], link: &Text) -> bool
    ensures { result ≡ is_open (phase journal.now link.now) }
{
    match phase(journal, link) {
        Phase::Open => true,
        Phase::Gone => false,
    }
}
