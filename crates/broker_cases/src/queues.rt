//! Cases of the queue.

ghost use Rattle.std.specs.Prelude.{◌≡◌};

use crate::line::{Line, answer, done, is_call, maybe};
use anyhow::{Result, bail};
use queue_core::{Holder, Queue};
use std::alloc::{AllocError, Global};

/// The session of a link, or the consumer of a client.
fn holder_of(link: bool, line: &Line<'_>, number: usize, part: usize) -> Result<Holder> {
    Ok(Holder {
        link,
        number: line.small(number)?,
        part: line.small(part)?,
    })
}

/// A queue of three copies.
fn filled(alloc: Global, first: u64, second: u64, third: u64) -> Result<Queue> {
    if first >= second || second >= third {
        bail!("copies don't rise");
    }
    let mut queue = Queue::new(alloc);
    queue.enter(first)?;
    queue.enter(second)?;
    queue.enter(third)?;
    Ok(queue)
}

/// Who holds the copy, as text.
fn held(rt: &impl Print, text: &str, holder: Option<Holder>) -> Result<()> {
    match holder {
        Some(holder) if holder.link => {
            println!(rt; "{text}: session {} of link {}", holder.part, holder.number)?
        }
        Some(holder) => println!(rt;
            "{text}: consumer {} of client {}",
            holder.part, holder.number
        )?,
        None => println!(rt; "{text}: nobody")?,
    }
    Ok(())
}

/// Makes a call that changes the queue; false where it is another.
fn change(rt: &impl Print, text: &str, line: &Line<'_>, queue: &mut Queue) -> Result<bool> {
    let call = line.call;
    if call == "link" {
        maybe(rt, text, queue.hand(holder_of(true, line, 0, 1)?))?;
    } else if call == "client" {
        maybe(rt, text, queue.hand(holder_of(false, line, 0, 1)?))?;
    } else if call == "give" {
        queue.hand_copy(line.number(0)?, holder_of(true, line, 1, 2)?);
        done(rt, text)?;
    } else if call == "leave" {
        answer(rt, text, queue.leave(line.number(0)?))?;
    } else if call == "release" {
        answer(rt, text, queue.release(line.number(0)?))?;
    } else if call == "lost" {
        queue.release_all(holder_of(true, line, 0, 1)?);
        done(rt, text)?;
    } else if call == "close" {
        queue.release_client(line.small(0)?);
        done(rt, text)?;
    } else if call == "purge" {
        answer(rt, text, queue.purge())?;
    } else if call == "flush" {
        queue.mark_stored();
        done(rt, text)?;
    } else {
        return Ok(false);
    }
    Ok(true)
}

/// Asks the queue.
fn ask(rt: &impl Print, text: &str, line: &Line<'_>, queue: &Queue) -> Result<()> {
    let call = line.call;
    if call == "first" {
        maybe(rt, text, queue.first_ready())
    } else if call == "ready" {
        answer(rt, text, queue.ready())
    } else if call == "count" {
        answer(rt, text, queue.count())
    } else if call == "held" {
        answer(
            rt,
            text,
            queue.held_by(holder_of(line.has("link"), line, 0, 1)?),
        )
    } else if call == "at" {
        maybe(rt, text, queue.at(line.number(0)? as usize))
    } else if call == "holder" {
        held(rt, text, queue.holder(line.number(0)?))
    } else if call == "stored" {
        answer(rt, text, queue.is_stored(line.number(0)?))
    } else {
        bail!("no such call of a queue")
    }
}

/// Does the cases; a line `queue` begins one, with the numbers of three copies.
pub fn run(rt: &(impl Print + AllocGlobal), cases: &str) -> Result<()> {
    let alloc = rt.alloc();
    let mut queue = Queue::new(alloc);
    for text in cases.split('\n') {
        if !is_call(text) {
            continue;
        }
        let line = Line::read(alloc, text)?;
        if line.call == "queue" {
            queue = filled(alloc, line.number(0)?, line.number(1)?, line.number(2)?)?;
            done(rt, text)?;
        } else if !change(rt, text, &line, &mut queue)? {
            ask(rt, text, &line, &queue)?;
        }
    }
    Ok(())
}
