//! The reader of schedules.
ghost use Rattle.std.specs.Prelude.{◌≡◌, ◌≢◌, ◌+◌, ◌≤◌, ◌<◌, Ok, Err, IfOk, IfErr, OnOk, List, length};
ghost use Rattle.std.specs.List.{list_all};
ghost use Rattle.fed_journal.specs.Events.{IsWritable};
ghost use Rattle.schedule_words.specs.Words.{is_well_escaped, spaced_length};
ghost use Rattle.fed_schedule.specs.Schedule.{reading_of, state_of, script_read, lines_read, with_lines, AreWritable, IsWritableStatement, with_broker, lines_of, without_return, is_passed_over, are_escaped, single_reason, reason_of, of_line, judge, with_events, with_line, reading};

use crate::copies::push_copies;
use crate::forms::{are_texts, has_empty_word, is_miscounted, is_unbuilt, keyword_of};
use crate::keyword::Keyword;
use crate::reading::read_form;
use crate::reasons::is_late;
use crate::script::{LineReason, MAX_EVENTS, MAX_SCHEDULE, ScheduleFault, Script};
use crate::shovels::{ShovelKey, add_shovel};
use crate::statement::Statement;
use crate::times::{count_of, head_of, is_bad_head, is_single, line_of};
use amqp_props::{Octets, Text};
use fed_journal::event::Event;
use indexmap::IndexSet;
use schedule_words::words::{is_well_escaped, split, word_at, words_of};
use std::alloc::{AllocError, Global};

/// The lines of a file.
#[tactic(auto, unfolding(crate::specs::Schedule::lines_of))]
fn lines_of(alloc: Global, bytes: &[u8]) -> Result<Vec<Octets>, AllocError>
    ensures lines { IfOk result (λ lines. lines.items ≡ lines_of bytes.now) }
    ensures within { IfOk result (λ lines. length lines.items ≤ length bytes.now + 1) }
    ensures spaced { IfOk result (λ lines. spaced_length lines.items ≡ length bytes.now + 1) }
{
    split(alloc, bytes, b'\n')
}

/// The line without a carriage return at its end.
#[tactic(auto, unfolding(crate::specs::Schedule::without_return))]
fn without_return(line: &[u8]) -> &[u8]
    ensures line { result.now ≡ without_return line.now }
    ensures within { length result.now ≤ length line.now }
{
    if !line.is_empty() && line[line.len() - 1] == b'\r' {
        return &line[..line.len() - 1];
    }
    line
}

/// Whether the line is empty or a comment.
#[tactic(auto, unfolding(crate::specs::Schedule::is_passed_over))]
fn is_passed_over(line: &[u8]) -> bool
    ensures { result ≡ is_passed_over line.now }
{
    line.is_empty() || line[0] == b'#'
}

fn are_well_escaped(words: &[Octets]) -> bool
    ensures { result ≡ list_all is_well_escaped words.now }
{
    words.iter().all(|word| is_well_escaped(word.as_slice()))
}

fn are_escaped(head: &[Octets], words: &[Octets]) -> bool
    ensures { result ≡ are_escaped head.now words.now }
{
    are_well_escaped(head) && are_well_escaped(words)
}

/// Why a line that can't be repeated is refused.
#[tactic(auto, unfolding(crate::specs::Schedule::single_reason))]
fn single_reason(head: &[Octets], words: &[Octets]) -> LineReason
    ensures { result ≡ single_reason head.now words.now }
{
    if has_empty_word(head) || has_empty_word(words) {
        return LineReason::Count;
    }
    if !are_escaped(head, words) {
        return LineReason::Escape;
    }
    if is_bad_head(head) {
        return LineReason::Number;
    }
    LineReason::Times
}

/// Why the words of a form are refused after a part of a schedule, before what they stand for is read.
#[tactic(auto, unfolding(crate::specs::Schedule::reason_of))]
fn reason_of(
    alloc: Global,
    script: &Script,
    shovels: &IndexSet<ShovelKey>,
    keyword: Keyword,
    head: &[Octets],
    words: &[Octets],
) -> Result<Option<LineReason>, AllocError>
    requires { spaced_length words.now ≤ MAX_SCHEDULE + 1 }
    ensures { IfOk result (λ reason. reason ≡ reason_of (state_of script.now shovels.now.keys) keyword head.now words.now) }
{
    if is_unbuilt(alloc, shovels, keyword, head, words)? {
        return Ok(Some(LineReason::Word));
    }
    if is_late(!script.events.is_empty(), keyword) {
        return Ok(Some(LineReason::Order));
    }
    if has_empty_word(head) || is_miscounted(keyword, words) {
        return Ok(Some(LineReason::Count));
    }
    if !are_escaped(head, words) {
        return Ok(Some(LineReason::Escape));
    }
    if is_bad_head(head) {
        return Ok(Some(LineReason::Number));
    }
    Ok(None)
}

/// What a line states after a part of a schedule, or why it is refused with what stands before it.
#[tactic(auto, unfolding(crate::specs::Schedule::of_line))]
fn of_line(
    alloc: Global,
    script: &Script,
    shovels: &IndexSet<ShovelKey>,
    head: &[Octets],
    words: &[Octets],
) -> Result<Result<Statement, LineReason>, AllocError>
    requires { spaced_length words.now ≤ MAX_SCHEDULE + 1 }
    ensures { IfOk result (λ judged. judged ≡ of_line (state_of script.now shovels.now.keys) head.now words.now) }
{
    if words.is_empty() {
        return Ok(Err(LineReason::Count));
    }
    if !head.is_empty() && is_single(word_at(words, 0)) {
        return Ok(Err(single_reason(head, words)));
    }
    let Some(keyword) = keyword_of(word_at(words, 0)) else {
        return Ok(Err(LineReason::Word));
    };
    match reason_of(alloc, script, shovels, keyword, head, words)? {
        Some(reason) => Ok(Err(reason)),
        None => read_form(alloc, keyword, words),
    }
}

/// What the words state after a part of a schedule, or why they are refused.
#[tactic(auto, unfolding(crate::specs::Schedule::judge), using(crate::proofs::Lengths::spaced_line))]
fn judge(
    alloc: Global,
    script: &Script,
    shovels: &IndexSet<ShovelKey>,
    words: &[Octets],
) -> Result<Result<Statement, LineReason>, AllocError>
    requires { spaced_length words.now ≤ MAX_SCHEDULE + 1 }
    ensures { IfOk result (λ judged. judged ≡ judge (state_of script.now shovels.now.keys) words.now) }
{
    if !are_texts(alloc, words)? {
        return Ok(Err(LineReason::Text));
    }
    of_line(alloc, script, shovels, head_of(words), line_of(words))
}

/// The same, where want of memory is a fault of the schedule's reader.
fn statement_at(
    alloc: Global,
    script: &Script,
    shovels: &IndexSet<ShovelKey>,
    words: &[Octets],
) -> Result<Result<Statement, LineReason>, ScheduleFault>
    requires { spaced_length words.now ≤ MAX_SCHEDULE + 1 }
    ensures judged { IfOk result (λ judged. judged ≡ judge (state_of script.now shovels.now.keys) words.now) }
    ensures writable { IfOk result (λ judged. IfOk judged IsWritableStatement) }
    ensures err { IfErr result (λ fault. fault ≡ ScheduleFault.Memory) }
{
    match judge(alloc, script, shovels, words) {
        Ok(judged) => Ok(judged),
        Err(_) => Err(ScheduleFault::Memory),
    }
}

/// Adds an event of a line, so many times.
#[tactic(auto, unfolding(crate::specs::Schedule::with_events), using(crate::proofs::Writable::copies_writable))]
fn push_events(
    script: &mut Script,
    shovels: &mut IndexSet<ShovelKey>,
    number: u32,
    count: u16,
    event: &Event,
) -> Result<(), ScheduleFault>
    requires writable { IsWritable event.now }
    requires written { AreWritable script.old.events.items }
    ensures ok { OnOk result (with_events number (state_of script.old shovels.old.keys) count event.now ≡ Ok (state_of script.new shovels.new.keys)) }
    ensures err { IfErr result (λ fault. fault ≢ ScheduleFault.Memory → with_events number (state_of script.old shovels.old.keys) count event.now ≡ Err fault) }
    ensures brokers { script.new.brokers.items ≡ script.old.brokers.items }
    ensures writable { OnOk result (AreWritable script.new.events.items) }
{
    if script.events.len() + usize::from(count) > MAX_EVENTS {
        return Err(ScheduleFault::Line {
            line: number,
            reason: LineReason::Events,
        });
    }
    if add_shovel(shovels, event).is_err() {
        return Err(ScheduleFault::Memory);
    }
    if push_copies(&mut script.events, number, count, event).is_err() {
        return Err(ScheduleFault::Memory);
    }
    Ok(())
}

/// Adds a broker, whose name is looked up among those before it.
#[tactic(auto, unfolding(crate::specs::Schedule::with_broker))]
fn push_broker(
    script: &mut Script,
    names: &mut IndexSet<Text>,
    number: u32,
    name: Text,
) -> Result<(), ScheduleFault>
    requires { names.old.keys ≡ script.old.brokers.items }
    ensures ok { (ks : List ShovelKey) → OnOk result (with_broker number (state_of script.old ks) name ≡ Ok (state_of script.new ks)) }
    ensures err { (ks : List ShovelKey) → IfErr result (λ fault. fault ≢ ScheduleFault.Memory → with_broker number (state_of script.old ks) name ≡ Err fault) }
    ensures names { OnOk result (names.new.keys ≡ script.new.brokers.items) }
    ensures events { OnOk result (script.new.events.items ≡ script.old.events.items) }
{
    if names.contains(&name) {
        return Err(ScheduleFault::Line {
            line: number,
            reason: LineReason::Twice,
        });
    }
    let Ok(copy) = name.clone() else {
        return Err(ScheduleFault::Memory);
    };
    if names.insert(copy).is_err() {
        return Err(ScheduleFault::Memory);
    }
    if script.brokers.push(name).is_err() {
        return Err(ScheduleFault::Memory);
    }
    Ok(())
}

/// Adds a line to a part of a schedule.
#[tactic(auto, unfolding(crate::specs::Schedule::with_line))]
fn read_line(
    alloc: Global,
    script: &mut Script,
    names: &mut IndexSet<Text>,
    shovels: &mut IndexSet<ShovelKey>,
    number: u32,
    line: &[u8],
) -> Result<(), ScheduleFault>
    requires named { names.old.keys ≡ script.old.brokers.items }
    requires written { AreWritable script.old.events.items }
    requires within { length line.now ≤ MAX_SCHEDULE }
    ensures ok { OnOk result (with_line number (state_of script.old shovels.old.keys) line.now ≡ Ok (state_of script.new shovels.new.keys)) }
    ensures names { OnOk result (names.new.keys ≡ script.new.brokers.items) }
    ensures writable { OnOk result (AreWritable script.new.events.items) }
    ensures err { IfErr result (λ fault. fault ≢ ScheduleFault.Memory → with_line number (state_of script.old shovels.old.keys) line.now ≡ Err fault) }
{
    let line = without_return(line);
    if is_passed_over(line) {
        return Ok(());
    }
    let words = words_of(alloc, line).map_err(|_| ScheduleFault::Memory)?;
    let count = count_of(head_of(words.as_slice()));
    match statement_at(alloc, script, shovels, words.as_slice())? {
        Ok(Statement::Broker(name)) => push_broker(script, names, number, name),
        Ok(Statement::Event(event)) => {
            let pushed = push_events(script, shovels, number, count, &event);
            drop(event);
            pushed
        }
        Err(reason) => Err(ScheduleFault::Line {
            line: number,
            reason,
        }),
    }
}

/// Adds lines, of which the first has number 1.
#[tactic(auto, unfolding(crate::specs::Schedule::with_lines))]
fn add_lines(
    alloc: Global,
    script: &mut Script,
    names: &mut IndexSet<Text>,
    shovels: &mut IndexSet<ShovelKey>,
    lines: &[Octets],
) -> Result<(), ScheduleFault>
    requires named { names.old.keys ≡ script.old.brokers.items }
    requires written { AreWritable script.old.events.items }
    requires within { length lines.now ≤ MAX_SCHEDULE + 1 }
    requires spaced { spaced_length lines.now ≤ MAX_SCHEDULE + 1 }
    ensures ok { OnOk result (with_lines 1 (Ok (state_of script.old shovels.old.keys)) lines.now ≡ Ok (state_of script.new shovels.new.keys)) }
    ensures writable { OnOk result (AreWritable script.new.events.items) }
    ensures err { IfErr result (λ fault. fault ≢ ScheduleFault.Memory → with_lines 1 (Ok (state_of script.old shovels.old.keys)) lines.now ≡ Err fault) }
{
    for (index, line) in lines.iter().enumerate() {
        read_line(
            alloc,
            script,
            names,
            shovels,
            index as u32 + 1,
            line.as_slice(),
        )?;
    }
    Ok(())
}

/// Reads the lines of a schedule.
#[tactic(auto, unfolding(crate::specs::Schedule::lines_read))]
fn read_lines(alloc: Global, lines: &[Octets]) -> Result<Script, ScheduleFault>
    requires within { length lines.now ≤ MAX_SCHEDULE + 1 }
    requires spaced { spaced_length lines.now ≤ MAX_SCHEDULE + 1 }
    ensures ok { IfOk result (λ script. script_read (lines_read lines.now) ≡ Ok (reading_of script)) }
    ensures writable { IfOk result (λ script. AreWritable script.events.items) }
    ensures err { IfErr result (λ fault. fault ≢ ScheduleFault.Memory → lines_read lines.now ≡ Err fault) }
{
    let mut script = Script {
        brokers: Vec::new(alloc),
        events: Vec::new(alloc),
    };
    let mut names = IndexSet::new(alloc);
    let mut shovels = IndexSet::new(alloc);
    match add_lines(alloc, &mut script, &mut names, &mut shovels, lines) {
        Ok(()) => Ok(script),
        Err(fault) => Err(fault),
    }
}

/// Reads a schedule.
///
/// The script is the one that the octets spell by the definition `reading`. `Line` comes exactly where
/// they spell none, with the first line that is refused and the first reason that applies to it.
/// `Memory` comes only where memory runs out.
#[tactic(auto, unfolding(crate::specs::Schedule::reading))]
pub fn read(alloc: Global, bytes: &[u8]) -> Result<Script, ScheduleFault>
    requires { length bytes.now ≤ MAX_SCHEDULE }
    ensures ok { IfOk result (λ script. reading bytes.now ≡ Ok (reading_of script)) }
    ensures writable { IfOk result (λ script. AreWritable script.events.items) }
    ensures err { IfErr result (λ fault. fault ≢ ScheduleFault.Memory → reading bytes.now ≡ Err fault) }
{
    let lines = lines_of(alloc, bytes).map_err(|_| ScheduleFault::Memory)?;
    read_lines(alloc, lines.as_slice())
}
