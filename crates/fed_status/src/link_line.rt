//! The lines of links.
ghost use Rattle.std.specs.Prelude.{◌≡◌, ◌++◌, IfOk, OnOk};
ghost use Rattle.fed_status.specs.Links.{counts_in, flight_counts, phase_word, number_word, counts_words, session_words, state_words, link_line};

use amqp_props::Text;
use fed_journal::entry::Entry;
use fed_journal::link::{LinkSpec, Phase, StartState};
use fed_journal::page::Page;
use journal_scan::flight::{
    flight_confirmed, flight_noted, flight_published, flight_sent, flight_took,
};
use journal_scan::phases::{phase, session};
use std::alloc::{AllocError, Global};

/// How much a link's session has in each stage.
#[derive(Clone, Copy)]
pub struct FlightCounts {
    /// Taken and not sent on.
    pub taken: u64,
    /// Sent on and not published.
    pub sent: u64,
    /// Published and not confirmed.
    pub waiting: u64,
    /// Confirmed and not acknowledged by the link.
    pub confirmed: u64,
    /// Acknowledged and not removed at the source.
    pub noted: u64,
    /// Binding commands told and not handled.
    pub told: u64,
}

/// The stages of an open session.
fn open_counts(
    alloc: Global,
    journal: &[Entry],
    link: &Text,
    session: u32,
) -> Result<FlightCounts, AllocError>
    ensures { IfOk result (λ counts. counts ≡ counts_in journal.now link.now session Phase.Open) }
{
    let taken = flight_took(alloc, journal, link, session)?.len() as u64;
    let sent = flight_sent(alloc, journal, link, session)?.len() as u64;
    let waiting = flight_published(alloc, journal, link, session)?.len() as u64;
    let confirmed = flight_confirmed(alloc, journal, link, session)?.len() as u64;
    let noted = flight_noted(alloc, journal, link, session)?.len() as u64;
    Ok(FlightCounts {
        taken,
        sent,
        waiting,
        confirmed,
        noted,
        told: 0,
    })
}

/// How much the link's last session has in each stage.
#[tactic(auto, unfolding(crate::specs::Links::flight_counts))]
pub fn flight_counts(
    alloc: Global,
    journal: &[Entry],
    link: &Text,
) -> Result<FlightCounts, AllocError>
    ensures { IfOk result (λ counts. counts ≡ flight_counts journal.now link.now) }
{
    match phase(journal, link) {
        Phase::Open => open_counts(alloc, journal, link, session(journal, link)),
        Phase::Gone => Ok(FlightCounts {
            taken: 0,
            sent: 0,
            waiting: 0,
            confirmed: 0,
            noted: 0,
            told: 0,
        }),
    }
}

/// The word for what is left of a session.
fn phase_word(phase: Phase) -> &'static str
    ensures { result.now ≡ phase_word phase }
{
    match phase {
        Phase::Gone => "gone",
        Phase::Open => "open",
    }
}

/// Appends a number behind a space.
fn push_number_word(number: u64, page: &mut Page) -> Result<(), AllocError>
    ensures { OnOk result (page.new ≡ page.old ++ number_word number) }
{
    page.push(" ")?;
    page.push_number(number)
}

/// Appends the stages.
#[tactic(auto, unfolding(crate::specs::Links::counts_words))]
fn push_counts(counts: FlightCounts, page: &mut Page) -> Result<(), AllocError>
    ensures { OnOk result (page.new ≡ page.old ++ counts_words counts) }
{
    push_number_word(counts.taken, page)?;
    push_number_word(counts.sent, page)?;
    push_number_word(counts.waiting, page)?;
    push_number_word(counts.confirmed, page)?;
    push_number_word(counts.noted, page)?;
    push_number_word(counts.told, page)
}

/// Appends what a link that can start is doing.
#[tactic(auto, unfolding(crate::specs::Links::session_words))]
fn push_session(
    alloc: Global,
    journal: &[Entry],
    link: &Text,
    page: &mut Page,
) -> Result<(), AllocError>
    ensures { OnOk result (page.new ≡ page.old ++ session_words journal.now link.now) }
{
    let counts = flight_counts(alloc, journal, link)?;
    page.push(phase_word(phase(journal, link)))?;
    push_number_word(session(journal, link) as u64, page)?;
    push_counts(counts, page)
}

/// Appends the link's state.
fn push_state(
    alloc: Global,
    journal: &[Entry],
    spec: &LinkSpec,
    page: &mut Page,
) -> Result<(), AllocError>
    ensures { OnOk result (page.new ≡ page.old ++ state_words journal.now spec.now.name spec.now.start) }
{
    match spec.start {
        StartState::Start => push_session(alloc, journal, &spec.name, page),
        StartState::NoBroker => page.push("no-broker"),
        StartState::NameTooLong => page.push("name-too-long"),
    }
}

/// Appends the line of a link.
#[tactic(auto, unfolding(crate::specs::Links::link_line))]
pub fn push_link_line(
    alloc: Global,
    journal: &[Entry],
    spec: &LinkSpec,
    page: &mut Page,
) -> Result<(), AllocError>
    ensures { OnOk result (page.new ≡ page.old ++ link_line journal.now spec.now) }
{
    page.push("link ")?;
    page.push(spec.name.as_str())?;
    page.push(" ")?;
    push_state(alloc, journal, spec, page)?;
    page.push("\n")
}
