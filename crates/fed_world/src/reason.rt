//! What a step answers.
use fed_journal::reason::Reason;
use thiserror::Error;

/// What became of an event.
#[derive(Clone, Copy)]
pub enum Outcome {
    /// It happened, and appended so many entries.
    Done(usize),
    /// It didn't, and nothing changed.
    NotNow(Reason),
}

/// Why a step could not be judged. Nothing changed.
#[derive(Debug, Drop, Error)]
pub enum StepFault {
    /// The configuration would ask for over 4,096 links.
    #[error("over 4,096 links")]
    Links,
    /// The journal would have over 2,000,000 entries.
    #[error("over 2,000,000 entries")]
    Entries,
    /// Its messages would have over 268,435,456 octets.
    #[error("over 268,435,456 octets of messages")]
    Bytes,
    /// Memory is wanting.
    #[error("memory")]
    Memory,
}
