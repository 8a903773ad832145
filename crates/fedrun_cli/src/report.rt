//! The report of a run.
ghost use Rattle.std.specs.Prelude.{◌≡◌, ◌≢◌, ◌<◌, ◌≤◌, ◌++◌, ℕ, List, [], Option, Some, None, Err, All, IfOk, IfErr, OnOk, length, sum_by};
ghost use Rattle.fed_journal.specs.declared.entry.Entry.{Entry};
ghost use Rattle.fed_world.specs.declared.reason.StepFault.{StepFault as SpecFault};
ghost use Rattle.fed_journal.specs.Events.{IsWritable};
ghost use Rattle.fed_world.specs.Limits.{limit_passed};
ghost use Rattle.fed_world.specs.Step.{next, after, outcome_of};
ghost use Rattle.fed_world.specs.Run.{begin, run, moment};
ghost use Rattle.fedrun_cli.specs.Report.{IsPiece, reason_word, not_now_line, show_lines, shown, moment_text, done_by, done_at, last_journal, joined, told_run, limit_or, first_limit, Stops, summary_line, end_text, ended, JoinEnds, report, ReportEnds};

use crate::ending::{Ending, RunLimit};
use amqp_props::Text;
use fed_journal::event::Event;
use fed_journal::page::Page;
use fed_journal::reason::Reason;
use fed_status::fault::TextFault;
use fed_status::listing::push_listing;
use fed_world::reason::{Outcome, StepFault};
use fed_world::world::World;
use std::alloc::{AllocError, Global};

/// The most octets of a report.
pub const MAX_REPORT: usize = 67_108_864;

/// Appends a reason as its word.
#[tactic(auto, unfolding(crate::specs::Report::reason_word))]
fn push_reason(page: &mut Page, reason: Reason) -> Result<(), AllocError>
    ensures { OnOk result (page.new ≡ page.old ++ reason_word reason) }
{
    match reason {
        Reason::NoPlace => page.push("no-place"),
        Reason::NoLink => page.push("no-link"),
        Reason::NoBroker => page.push("no-broker"),
        Reason::NameTooLong => page.push("name-too-long"),
        Reason::NoSource => page.push("no-source"),
        Reason::Full => page.push("full"),
        Reason::Live => page.push("live"),
        Reason::NotOpen => page.push("not-open"),
        Reason::Empty => page.push("empty"),
        Reason::Unsecured => page.push("unsecured"),
        Reason::NoConsumer => page.push("no-consumer"),
        Reason::Busy => page.push("busy"),
        Reason::NotHeld => page.push("not-held"),
        Reason::Refused(code) => {
            page.push("refused-")?;
            page.push_number(code as u64)
        }
    }
}

/// Appends the line of an event that didn't happen.
#[tactic(auto, unfolding(crate::specs::Report::not_now_line))]
fn push_not_now(page: &mut Page, line: u32, reason: Reason) -> Result<(), AllocError>
    ensures { OnOk result (page.new ≡ page.old ++ not_now_line line reason) }
{
    page.push_number(line as u64)?;
    page.push(" not-now ")?;
    push_reason(page, reason)?;
    page.push("\n")
}

/// Appends the listing in the midst of a run.
#[tactic(auto, unfolding(crate::specs::Report::show_lines))]
fn push_show(alloc: Global, page: &mut Page, line: u32, world: &World) -> Result<(), TextFault>
    ensures lines { OnOk result (page.new ≡ page.old ++ show_lines line world.now) }
    ensures long { result ≡ Err TextFault.Long → 67108864 < length (page.old ++ show_lines line world.now) }
{
    page.push("show ")?;
    page.push_number(line as u64)?;
    page.push("\n")?;
    push_listing(alloc, world.journal().entries(), page)
}

/// The output with a piece more, unless it gets too long.
fn joined(output: Option<Page>, piece: &Option<Page>) -> Result<Option<Page>, AllocError>
    ensures { IfOk result (λ more. (text : List ℕ) → IsPiece piece.now text → more ≡ joined output text) }
{
    let Some(mut page) = output else {
        return Ok(None);
    };
    let Some(piece) = piece else {
        return Ok(None);
    };
    let length = page.as_str().len();
    let more = piece.as_str();
    if length > MAX_REPORT || more.len() > MAX_REPORT - length {
        return Ok(None);
    }
    page.push(more)?;
    Ok(Some(page))
}

/// What an event that happened prints.
fn shown(alloc: Global, line: u32, event: &Event, world: &World) -> Result<Option<Page>, AllocError>
    ensures { IfOk result (λ page. IsPiece page (shown line world.now event.now)) }
{
    let mut page = Page::new(alloc);
    match event {
        Event::Show => match push_show(alloc, &mut page, line, world) {
            Ok(()) => Ok(Some(page)),
            Err(TextFault::Long) => Ok(None),
            Err(TextFault::Memory) => Err(AllocError),
        },
        _ => Ok(Some(page)),
    }
}

/// The line of an event that didn't happen.
fn not_now(alloc: Global, line: u32, reason: Reason) -> Result<Page, AllocError>
    ensures { IfOk result (λ page. page ≡ not_now_line line reason) }
{
    let mut page = Page::new(alloc);
    push_not_now(&mut page, line, reason)?;
    Ok(page)
}

/// What an event prints, and 1 if it happened, else 0.
#[derive(Drop)]
struct Told {
    page: Option<Page>,
    done: usize,
}

/// How a run ends whose event on the line is answered with this fault.
fn halted(line: u32, fault: StepFault) -> Ending
    ensures { (passed : Option SpecFault) → (fault ≢ StepFault.Memory → passed ≡ Some fault) → Stops (limit_or line passed None) result }
{
    match fault {
        StepFault::Links => Ending::Limit {
            line,
            limit: RunLimit::Links,
        },
        StepFault::Entries => Ending::Limit {
            line,
            limit: RunLimit::Entries,
        },
        StepFault::Bytes => Ending::Limit {
            line,
            limit: RunLimit::Bytes,
        },
        StepFault::Memory => Ending::Memory,
    }
}

/// What an event prints that happened, or didn't.
#[tactic(auto, unfolding(crate::specs::Report::moment_text))]
fn telling(
    alloc: Global,
    world: &World,
    line: u32,
    event: &Event,
    outcome: Outcome,
) -> Result<Told, AllocError>
    ensures page { IfOk result (λ told. (before : List Entry) → outcome ≡ outcome_of (next before event.now) → world.now ≡ after before (next before event.now)
        → IsPiece told.page (moment_text (moment before line event.now))) }
    ensures done { IfOk result (λ told. (before : List Entry) → outcome ≡ outcome_of (next before event.now) → told.done ≡ done_by (next before event.now)) }
    ensures few { IfOk result (λ told. told.done ≤ 1) }
{
    match outcome {
        Outcome::Done(_) => {
            let page = shown(alloc, line, event, world)?;
            Ok(Told { page, done: 1 })
        }
        Outcome::NotNow(reason) => {
            let page = not_now(alloc, line, reason)?;
            Ok(Told {
                page: Some(page),
                done: 0,
            })
        }
    }
}

/// Does an event. `Limit` where it would pass a limit.
fn moment(alloc: Global, world: &mut World, line: u32, event: &Event) -> Result<Told, Ending>
    requires { IsWritable event.now }
    ensures page { IfOk result (λ told. IsPiece told.page (moment_text (moment world.old line event.now))) }
    ensures done { IfOk result (λ told. told.done ≡ done_by (next world.old event.now)) }
    ensures few { IfOk result (λ told. told.done ≤ 1) }
    ensures world { OnOk result (world.new ≡ after world.old (next world.old event.now)) }
    ensures within { OnOk result (limit_passed world.old (next world.old event.now) ≡ None) }
    ensures limit { IfErr result (Stops (limit_or line (limit_passed world.old (next world.old event.now)) None)) }
{
    let outcome = match world.step(event) {
        Ok(outcome) => outcome,
        Err(fault) => return Err(halted(line, fault)),
    };
    match telling(alloc, world, line, event, outcome) {
        Ok(told) => Ok(told),
        Err(_) => Err(Ending::Memory),
    }
}

/// What the events print, unless it gets too long, and how many happened.
#[derive(Drop)]
struct Replay {
    output: Option<Page>,
    done: usize,
}

/// Does the events in order. `Limit` where an event would pass a limit, the first that does.
fn run_events(alloc: Global, world: &mut World, events: &[(u32, Event)]) -> Result<Replay, Ending>
    requires { All (λ e. IsWritable e.1) events.now }
    ensures output { IfOk result (λ replay. replay.output ≡ told_run (Some []) (run world.old events.now)) }
    ensures done { IfOk result (λ replay. replay.done ≡ sum_by done_at (run world.old events.now)) }
    ensures few { IfOk result (λ replay. replay.done ≤ length events.now) }
    ensures world { OnOk result (world.new ≡ last_journal world.old (run world.old events.now)) }
    ensures within { OnOk result (first_limit (run world.old events.now) world.old ≡ None) }
    ensures limit { IfErr result (Stops (first_limit (run world.old events.now) world.old)) }
{
    let mut output = Some(Page::new(alloc));
    let mut done = 0;
    for (line, event) in events {
        let told = moment(alloc, world, *line, event)?;
        output = join(output, &told.page)?;
        done += told.done;
    }
    Ok(Replay { output, done })
}

/// `joined`, where want of memory ends the run.
fn join(output: Option<Page>, piece: &Option<Page>) -> Result<Option<Page>, Ending>
    ensures joined { IfOk result (λ more. (text : List ℕ) → IsPiece piece.now text → more ≡ joined output text) }
    ensures memory { IfErr result (λ ending. ending ≡ Ending.Memory) }
{
    match joined(output, piece) {
        Ok(more) => Ok(more),
        Err(_) => Err(Ending::Memory),
    }
}

/// Appends the summary.
#[tactic(auto, unfolding(crate::specs::Report::summary_line))]
fn push_summary(
    page: &mut Page,
    events: usize,
    done: usize,
    entries: usize,
) -> Result<(), AllocError>
    requires { done ≤ events }
    ensures { OnOk result (page.new ≡ page.old ++ summary_line events done entries) }
{
    page.push("events ")?;
    page.push_number(events as u64)?;
    page.push(" done ")?;
    page.push_number(done as u64)?;
    page.push(" not-now ")?;
    page.push_number((events - done) as u64)?;
    page.push(" entries ")?;
    page.push_number(entries as u64)?;
    page.push("\n")
}

/// Appends the end of the output: the listing and the summary.
#[tactic(auto, unfolding(crate::specs::Report::end_text))]
fn push_end(
    alloc: Global,
    page: &mut Page,
    world: &World,
    events: usize,
    done: usize,
) -> Result<(), TextFault>
    requires { done ≤ events }
    ensures text { OnOk result (page.new ≡ page.old ++ end_text world.now events done) }
    ensures long { result ≡ Err TextFault.Long → 67108864 < length (page.old ++ end_text world.now events done) }
{
    page.push("end\n")?;
    let entries = world.journal().entries();
    push_listing(alloc, entries, page)?;
    push_summary(page, events, done, entries.len())?;
    Ok(())
}

/// The end of the output.
fn end_page(
    alloc: Global,
    world: &World,
    events: usize,
    done: usize,
) -> Result<Option<Page>, AllocError>
    requires { done ≤ events }
    ensures { IfOk result (λ page. IsPiece page (end_text world.now events done)) }
{
    let mut page = Page::new(alloc);
    match push_end(alloc, &mut page, world, events, done) {
        Ok(()) => Ok(Some(page)),
        Err(TextFault::Long) => Ok(None),
        Err(TextFault::Memory) => Err(AllocError),
    }
}

/// The output of a run of these bare brokers and its end, joined piece by piece.
#[tactic(auto, unfolding(crate::specs::Report::ended))]
fn ended(alloc: Global, brokers: &[Text], events: &[(u32, Event)]) -> Result<Page, Ending>
    requires few { length brokers.now ≤ 64 }
    requires writable { All (λ e. IsWritable e.1) events.now }
    ensures page { IfOk result (λ page. ended (begin brokers.now) events.now ≡ Some page) }
    ensures within { OnOk result (first_limit (run (begin brokers.now) events.now) (begin brokers.now) ≡ None) }
    ensures ending { IfErr result (JoinEnds (begin brokers.now) events.now) }
{
    let Ok(mut world) = World::begin(alloc, brokers) else {
        return Err(Ending::Memory);
    };
    let Replay { output, done } = run_events(alloc, &mut world, events)?;
    let Ok(end) = end_page(alloc, &world, events.len(), done) else {
        return Err(Ending::Memory);
    };
    match join(output, &end)? {
        Some(page) => Ok(page),
        None => Err(Ending::Report),
    }
}

/// The whole output of a run of these bare brokers, if no event passes a limit and it isn't too long.
pub(crate) fn report(
    alloc: Global,
    brokers: &[Text],
    events: &[(u32, Event)],
) -> Result<Page, Ending>
    requires few { length brokers.now ≤ 64 }
    requires writable { All (λ e. IsWritable e.1) events.now }
    ensures report { IfOk result (λ page. page ≡ report (begin brokers.now) events.now) }
    ensures short { OnOk result (length (report (begin brokers.now) events.now) ≤ 67108864) }
    ensures within { OnOk result (first_limit (run (begin brokers.now) events.now) (begin brokers.now) ≡ None) }
    ensures ending { IfErr result (ReportEnds (begin brokers.now) events.now) }
{
    match ended(alloc, brokers, events) {
        Ok(page) => Ok(page),
        Err(ending) => Err(ending),
    }
}
