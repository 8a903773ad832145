//! What has become of a copy, and who has it.
ghost use Rattle.std.specs.Prelude.{◌≡◌, ◌-◌, fold};
ghost use Rattle.std.specs.List.{slice_get};
ghost use Rattle.std.specs.Option.{option_copied};
ghost use Rattle.fed_journal.specs.Holders.{is_connection};
ghost use Rattle.fed_journal.specs.Copies.{Ready, is_home, handed, closed, moved, standing_step, standing, is_left, is_waiting};
ghost use Rattle.journal_scan.specs.View.{holder_of, standing_of};

use crate::copies::{is_copy_of, queue_of};
use amqp_props::Text;
use fed_journal::entry::{Entry, Publication};
use fed_journal::place::{Client, Place};

/// To whom a copy was handed.
#[derive(Clone, Copy)]
pub enum Holder<'a> {
    /// A session of a link.
    Session {
        link: &'a Text,
        session: u32,
    },
    /// A client's channel, under the tag of its consumer; the tag is empty where the client asked for the copy.
    Channel {
        place: &'a Place,
        client: Client,
        tag: &'a Text,
    },
}

/// What has become of a copy.
#[derive(Clone, Copy)]
pub enum CopyState<'a> {
    /// No publication has it.
    Unknown,
    /// It waits in its queue.
    Ready,
    /// It is handed out and unacknowledged.
    Held(Holder<'a>),
    /// It has left its queue.
    Left,
}

impl<'a> Holder<'a> {
    /// Whether it is a channel of this connection to this place.
    fn is_connection(self, place: &Place, connection: u32) -> bool
        ensures { result ≡ is_connection place.now connection (holder_of self.entry) }
    {
        match self {
            Holder::Session { .. } => false,
            Holder::Channel {
                place: at,
                client: by,
                ..
            } => at == place && by.connection == connection,
        }
    }
}

/// Whether the publication brought the copy into this queue.
fn is_home(publication: &Publication, copy: u64, place: &Place, queue: &Text) -> bool
    ensures { result ≡ is_home publication.now copy place.now queue.now }
{
    if &publication.place != place {
        return false;
    }
    match queue_of(publication, copy) {
        Some(name) => name == queue,
        None => false,
    }
}

/// Where the copy stands after a connection ended.
fn closed<'a>(standing: CopyState<'a>, place: &Place, connection: u32) -> CopyState<'a>
    ensures { standing_of result ≡ closed place.now connection (standing_of standing.entry) }
{
    match standing {
        CopyState::Held(holder) => if holder.is_connection(place, connection) {
            CopyState::Ready
        } else {
            standing
        },
        _ => standing,
    }
}

/// Where the copy stands after it was handed out, for good or to be acknowledged.
fn handed<'a>(no_ack: bool, holder: Holder<'a>) -> CopyState<'a>
    ensures { standing_of result ≡ handed no_ack (holder_of holder.entry) }
{
    if no_ack {
        CopyState::Left
    } else {
        CopyState::Held(holder)
    }
}

/// Whether the copy waits in its queue.
pub(crate) fn is_waiting(standing: CopyState<'_>) -> bool
    ensures { result ≡ is_waiting (standing_of standing.entry) }
{
    matches!(standing, CopyState::Ready)
}

/// Whether the copy has left its queue.
pub(crate) fn is_left(standing: CopyState<'_>) -> bool
    ensures { result ≡ is_left (standing_of standing.entry) }
{
    matches!(standing, CopyState::Left)
}

/// Where the copy of the publication, which hasn't left its queue, stands after one entry more.
fn moved<'a>(
    publication: &Publication,
    copy: u64,
    standing: CopyState<'a>,
    entry: &'a Entry,
) -> CopyState<'a>
    ensures { standing_of result ≡ moved copy publication.now (standing_of standing.entry) entry.now }
{
    match entry {
        Entry::Took {
            link,
            session,
            copy: taken,
        } if *taken == copy => CopyState::Held(Holder::Session {
            link,
            session: *session,
        }),
        Entry::Delivered {
            place,
            client,
            tag,
            copy: delivered,
            no_ack,
            ..
        } if *delivered == copy => handed(
            *no_ack,
            Holder::Channel {
                place,
                client: *client,
                tag,
            },
        ),
        Entry::Acked { copy: acked, .. } if *acked == copy => CopyState::Left,
        Entry::Rejected { copy: rejected, .. } if *rejected == copy => CopyState::Left,
        Entry::Requeued { copy: requeued, .. } if *requeued == copy => CopyState::Ready,
        Entry::Settled { copy: settled, .. } if *settled == copy => CopyState::Left,
        Entry::Purged { place, queue }
            if is_waiting(standing) && is_home(publication, copy, place, queue) => {
            CopyState::Left
        }
        Entry::GoneQueue { place, queue } if is_home(publication, copy, place, queue) => {
            CopyState::Left
        }
        Entry::Closed { place, connection } => closed(standing, place, *connection),
        _ => standing,
    }
}

/// Where the copy of the publication stands after one entry more.
fn stepped<'a>(
    publication: &Publication,
    copy: u64,
    standing: CopyState<'a>,
    entry: &'a Entry,
) -> CopyState<'a>
    ensures { standing_of result ≡ standing_step copy publication.now (standing_of standing.entry) entry.now }
{
    if is_left(standing) {
        CopyState::Left
    } else {
        moved(publication, copy, standing, entry)
    }
}

/// Where the copy of the publication stands after the entries that follow it.
fn standing_since<'a>(publication: &Publication, copy: u64, entries: &'a [Entry]) -> CopyState<'a>
    ensures { standing_of result ≡ fold (standing_step copy publication.now) Ready entries.now }
{
    let mut standing = CopyState::Ready;
    for entry in entries {
        standing = stepped(publication, copy, standing, entry);
    }
    standing
}

/// What has become of the copy.
#[tactic(auto, unfolding(fed_journal::specs::Copies::standing))]
pub(crate) fn standing(journal: &[Entry], copy: u64) -> CopyState<'_>
    ensures { standing_of result ≡ standing copy journal.now }
{
    for (at, entry) in journal.iter().enumerate() {
        if let Entry::Published(publication) = entry
            && is_copy_of(publication, copy)
        {
            return standing_since(publication, copy, &journal[at + 1..]);
        }
    }
    CopyState::Unknown
}
