ghost use Rattle.std.specs.Prelude.{◌≡◌};
ghost use Rattle.queue_core.specs.Rows.{holder_in, freed, freed_of};

/// The number of a copy: copies are numbered from 1 over all queues, in the order in which they enter.
pub type CopyNo = u64;

/// Who holds a copy: a consumer of a client, or a session of a link.
#[derive(Clone, Copy, Debug, PartialEq, Eq)]
pub struct Holder {
    /// Whether a link holds it; else a client does.
    pub link: bool,
    /// The number of the link, or of the client.
    pub number: u32,
    /// The number of the link's session, or of the client's consumer.
    pub part: u32,
}

/// Whether a copy waits for a hand-out, or was handed out and is not settled yet.
#[derive(Clone, Copy, PartialEq, Eq)]
pub enum Hold {
    /// Ready for a hand-out.
    Ready,
    /// Handed out, and unacknowledged by this holder.
    Held(Holder),
}

impl Hold {
    /// Who holds the copy; None where it is ready.
    pub fn holder(self) -> Option<Holder>
        ensures { result ≡ holder_in self }
    {
        match self {
            Hold::Ready => None,
            Hold::Held(holder) => Some(holder),
        }
    }

    /// The hold once the holder holds nothing any more.
    pub fn freed(self, holder: Holder) -> Hold
        ensures { result ≡ freed holder self }
    {
        if self == Hold::Held(holder) {
            Hold::Ready
        } else {
            self
        }
    }

    /// The hold once the client's consumers hold nothing any more.
    pub fn freed_of(self, client: u32) -> Hold
        ensures { result ≡ freed_of client self }
    {
        match self {
            Hold::Held(holder) if !holder.link && holder.number == client => Hold::Ready,
            Hold::Ready | Hold::Held(_) => self,
        }
    }
}

/// One copy of a queue, as contracts see it.
#[derive(Clone, Copy)]
pub struct Row {
    /// The copy's number.
    pub copy: CopyNo,
    /// Whether it is ready, or who holds it.
    pub hold: Hold,
    /// Whether a flush came after it entered.
    pub stored: bool,
}
