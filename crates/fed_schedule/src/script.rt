//! What a schedule says, and why a line says nothing.
use amqp_props::Text;
use fed_journal::event::Event;
use thiserror::Error;

/// The most octets of a schedule.
pub const MAX_SCHEDULE: usize = 67_108_864;

/// The most events of a schedule.
pub const MAX_EVENTS: usize = 100_000;

/// The brokers of a run, by their run names, and its events in order, each with the number of its
/// line, from 1.
#[derive(Drop)]
pub struct Script {
    pub brokers: Vec<Text>,
    pub events: Vec<(u32, Event)>,
}

/// Why a line is refused: the first of these that applies.
#[derive(Clone, Copy, Debug, Error)]
pub enum LineReason {
    /// A word other than a message's body isn't UTF-8 after decoding.
    #[error("text")]
    Text,
    /// The first word, or a form that the line's words name, isn't known.
    #[error("word")]
    Word,
    /// A broker's line stands after another line.
    #[error("order")]
    Order,
    /// Words are missing, too many, or empty.
    #[error("count")]
    Count,
    /// A `%` without two hexadecimal digits.
    #[error("escape")]
    Escape,
    /// A number isn't decimal, or out of its range.
    #[error("number")]
    Number,
    /// A name has over 255 octets, or is no run name where it has to be one.
    #[error("name")]
    Name,
    /// The broker's name is taken.
    #[error("twice")]
    Twice,
    /// A fixed word is none of its choices, or words are left over after the options.
    #[error("option")]
    Option,
    /// A value isn't one that its place takes.
    #[error("value")]
    Value,
    /// The line that is to be repeated can't be.
    #[error("times")]
    Times,
    /// The line holds or repeats the event after the first `MAX_EVENTS`. It is well formed: the schedule is too long.
    #[error("events")]
    Events,
}

/// Why there is no script.
#[derive(Debug, Drop, Error)]
pub enum ScheduleFault {
    /// The first line that is refused, from 1, and why.
    #[error("line {line}: {reason}")]
    Line { line: u32, reason: LineReason },
    #[error("memory")]
    Memory,
}
