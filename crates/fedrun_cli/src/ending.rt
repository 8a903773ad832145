//! How a command ends.
ghost use Rattle.std.specs.Prelude.{◌≡◌, ◌++◌, OnOk, IfOk, List, ℕ, false};
ghost use Rattle.fedrun_cli.specs.Endings.{status_of, line_reason_word, word_line, fault_line, events_line, limit_word, limit_line, error_line, needs_memory, is_done, Stands, SinkView, PutOnce, Says};

use fed_journal::page::Page;
use fed_outside::Sink;
use fed_schedule::script::LineReason;
use std::alloc::{AllocError, Global};

/// A limit that an event of a run would pass.
#[derive(Clone, Copy)]
pub enum RunLimit {
    /// 4,096 links.
    Links,
    /// 2,000,000 entries.
    Entries,
    /// 268,435,456 octets of messages.
    Bytes,
}

/// How a command ended.
#[derive(Clone, Copy)]
pub enum Ending {
    Done,
    Memory,
    /// The words are none of a command.
    Usage,
    /// A line of the schedule is refused.
    Line { line: u32, reason: LineReason },
    /// That line holds or repeats the event past 100,000.
    Events { line: u32 },
    /// The file could not be read.
    ReadFault,
    /// The output could not be written whole.
    WriteFault,
    /// The file is too long.
    FileTooLong,
    /// The run has over 64 places.
    Places,
    /// The event of that line would pass the limit.
    Limit { line: u32, limit: RunLimit },
    /// The output would have over 67,108,864 octets.
    Report,
    /// There is no such file.
    Absent,
}

/// The exit status.
pub(crate) fn status_of(ending: Ending) -> u8
    ensures { result ≡ status_of ending }
{
    match ending {
        Ending::Done => 0,
        Ending::Memory => 1,
        Ending::Usage => 2,
        Ending::Line { .. } => 4,
        Ending::ReadFault => 5,
        Ending::WriteFault => 6,
        Ending::Events { .. }
        | Ending::FileTooLong
        | Ending::Places
        | Ending::Limit { .. }
        | Ending::Report => 7,
        Ending::Absent => 8,
    }
}

/// The word of a line's reason.
#[tactic(auto, unfolding(crate::specs::Endings::line_reason_word))]
fn push_line_reason(page: &mut Page, reason: LineReason) -> Result<(), AllocError>
    ensures { OnOk result (page.new ≡ page.old ++ line_reason_word reason) }
{
    match reason {
        LineReason::Text => page.push("text"),
        LineReason::Word => page.push("word"),
        LineReason::Order => page.push("order"),
        LineReason::Count => page.push("count"),
        LineReason::Escape => page.push("escape"),
        LineReason::Number => page.push("number"),
        LineReason::Name => page.push("name"),
        LineReason::Twice => page.push("twice"),
        LineReason::Option => page.push("option"),
        LineReason::Value => page.push("value"),
        LineReason::Times => page.push("times"),
        LineReason::Events => page.push("events"),
    }
}

/// Appends a line that ends with a word.
fn push_word_line(page: &mut Page, start: &str, word: &str) -> Result<(), AllocError>
    ensures { OnOk result (page.new ≡ page.old ++ word_line start.now word.now) }
{
    page.push(start)?;
    page.push_word(word)?;
    page.push("\n")
}

/// Appends the line of a schedule's fault.
fn push_fault_line(
    page: &mut Page,
    start: &str,
    line: u32,
    reason: LineReason,
) -> Result<(), AllocError>
    ensures { OnOk result (page.new ≡ page.old ++ fault_line start.now line reason) }
{
    page.push(start)?;
    page.push_number(line as u64)?;
    page.push(" ")?;
    push_line_reason(page, reason)?;
    page.push("\n")
}

/// Appends the line of too many events.
fn push_events_line(page: &mut Page, start: &str, line: u32) -> Result<(), AllocError>
    ensures { OnOk result (page.new ≡ page.old ++ events_line start.now line) }
{
    page.push(start)?;
    page.push_number(line as u64)?;
    page.push("\n")
}

/// The word of a limit.
#[tactic(auto, unfolding(crate::specs::Endings::limit_word))]
fn push_limit(page: &mut Page, limit: RunLimit) -> Result<(), AllocError>
    ensures { OnOk result (page.new ≡ page.old ++ limit_word limit) }
{
    match limit {
        RunLimit::Links => page.push("links"),
        RunLimit::Entries => page.push("entries"),
        RunLimit::Bytes => page.push("bytes"),
    }
}

/// Appends the line of a limit that an event would pass.
fn push_limit_line(
    page: &mut Page,
    start: &str,
    limit: RunLimit,
    middle: &str,
    line: u32,
) -> Result<(), AllocError>
    ensures { OnOk result (page.new ≡ page.old ++ limit_line start.now limit middle.now line) }
{
    page.push(start)?;
    push_limit(page, limit)?;
    page.push(middle)?;
    page.push_number(line as u64)?;
    page.push("\n")
}

/// Appends what an ending says on the error sink; nothing where it is `Done`.
#[tactic(auto, unfolding(crate::specs::Endings::error_line))]
fn push_error_line(page: &mut Page, ending: Ending, file: &str) -> Result<(), AllocError>
    ensures { OnOk result (page.new ≡ page.old ++ error_line ending file.now) }
{
    match ending {
        Ending::Done => Ok(()),
        Ending::Memory => page.push("fedrun: memory\n"),
        Ending::Usage => page.push("fedrun: usage\n"),
        Ending::Line { line, reason } => push_fault_line(
            page,
            "fedrun: schedule line ",
            line,
            reason,
        ),
        Ending::Events { line } => push_events_line(page, "fedrun: limit events line ", line),
        Ending::ReadFault => push_word_line(page, "fedrun: read fault ", file),
        Ending::WriteFault => page.push("fedrun: write fault\n"),
        Ending::FileTooLong => push_word_line(page, "fedrun: limit file ", file),
        Ending::Places => page.push("fedrun: limit places\n"),
        Ending::Limit { line, limit } => {
            push_limit_line(page, "fedrun: limit ", limit, " line ", line)
        }
        Ending::Report => page.push("fedrun: limit report\n"),
        Ending::Absent => push_word_line(page, "fedrun: absent ", file),
    }
}

/// The line of an ending, in memory.
fn line_page(alloc: Global, ending: Ending, file: &str) -> Result<Page, AllocError>
    ensures { IfOk result (λ page. page ≡ error_line ending file.now) }
{
    let mut page = Page::new(alloc);
    push_error_line(&mut page, ending, file)?;
    Ok(page)
}

/// Whether an ending's line needs memory.
fn needs_memory(ending: Ending) -> bool
    ensures { result ≡ needs_memory ending }
{
    match ending {
        Ending::Done | Ending::Memory | Ending::Usage | Ending::WriteFault => false,
        _ => true,
    }
}

/// The line of an ending that needs no memory.
#[tactic(auto, unfolding(crate::specs::Endings::error_line))]
fn fixed_line(ending: Ending) -> &'static [u8]
    ensures { (file : List ℕ) → needs_memory ending ≡ false → result.now ≡ error_line ending file }
{
    match ending {
        Ending::Memory => b"fedrun: memory\n",
        Ending::Usage => b"fedrun: usage\n",
        Ending::WriteFault => b"fedrun: write fault\n",
        _ => b"",
    }
}

/// Whether the command is done, so that nothing is said.
fn is_done(ending: Ending) -> bool
    ensures { result ≡ is_done ending }
{
    match ending {
        Ending::Done => true,
        _ => false,
    }
}

/// Puts the line of an ending, if it has one. Where memory is wanting for it, the ending becomes want of memory,
/// whose line takes none.
pub(crate) fn say<E: Sink>(alloc: Global, ending: Ending, file: &str, err: &mut E) -> Ending
    ensures stands { Stands ending result }
    ensures says { Says result file.now
        (record { told = E.told err.old; puts = E.puts err.old; faults = E.faults err.old })
        (record { told = E.told err.new; puts = E.puts err.new; faults = E.faults err.new }) }
{
    if is_done(ending) {
        return ending;
    }
    if needs_memory(ending) {
        return match line_page(alloc, ending, file) {
            Ok(page) => put(ending, page.as_str().as_bytes(), err),
            Err(_) => put(Ending::Memory, fixed_line(Ending::Memory), err),
        };
    }
    put(ending, fixed_line(ending), err)
}

/// Puts the line of an ending, which stays.
fn put<E: Sink>(ending: Ending, line: &[u8], err: &mut E) -> Ending
    ensures same { result ≡ ending }
    ensures told { PutOnce
        (record { told = E.told err.old; puts = E.puts err.old; faults = E.faults err.old })
        (record { told = E.told err.new; puts = E.puts err.new; faults = E.faults err.new })
        line.now }
{
    let _is_out = err.put(line);
    ending
}
