//! Cases of the confirms that a virtual host owes to sessions of links.

ghost use Rattle.std.specs.Prelude.{◌≡◌};

use crate::line::{Line, answer, done, is_call, maybe};
use amqp_props::Text;
use anyhow::{Result, bail};
use broker_store::Confirms;
use queue_core::{Holder, Queue};
use std::alloc::{AllocError, Global};

const SESSION: Holder = Holder {
    link: true,
    number: 0,
    part: 1,
};

/// The session 1 of the link published a message and awaits its confirm.
fn opened(alloc: Global, feed: &Text, number: u64, waits: &[u64]) -> Result<Confirms, AllocError> {
    let mut confirms = Confirms::new(alloc);
    confirms.open(feed, 1, number, waits)?;
    Ok(confirms)
}

/// The session 1 and the session 2 of the link published a message each.
fn opened_both(alloc: Global, feed: &Text, line: &Line<'_>) -> Result<Confirms> {
    let first = line.number(0)?;
    let second = line.number(2)?;
    if first >= second {
        bail!("publications don't rise");
    }
    let waits = line.numbers(alloc, 1)?;
    let mut confirms = Confirms::new(alloc);
    confirms.open(feed, 1, first, &waits)?;
    let waits = line.numbers(alloc, 3)?;
    confirms.open(feed, 2, second, &waits)?;
    Ok(confirms)
}

/// A queue with a copy that is ready, and one that is held.
fn queue(alloc: Global, line: &Line<'_>) -> Result<Queue> {
    let ready = line.number(0)?;
    let held = line.number(1)?;
    if ready >= held {
        bail!("copies don't rise");
    }
    let mut queue = Queue::new(alloc);
    queue.enter(ready)?;
    queue.enter(held)?;
    queue.hand_copy(held, SESSION);
    Ok(queue)
}

/// Makes a call.
fn call(
    rt: &(impl Print + AllocGlobal),
    text: &str,
    line: &Line<'_>,
    feed: &Text,
    confirms: &mut Confirms,
) -> Result<()> {
    let call = line.call;
    if call == "left" {
        confirms.left(line.number(0)?);
        done(rt, text)
    } else if call == "flushed" {
        confirms.flushed();
        done(rt, text)
    } else if call == "deleted" {
        confirms.rows_left(&queue(rt.alloc(), line)?);
        done(rt, text)
    } else if call == "purged" {
        confirms.ready_left(&queue(rt.alloc(), line)?);
        done(rt, text)
    } else if call == "next" {
        maybe(rt, text, confirms.next_ready(feed, line.small(0)?))
    } else if call == "awaited" {
        answer(rt, text, confirms.is_awaited(feed, line.small(0)?))
    } else if call == "answered" {
        confirms.answered(feed, line.small(0)?, line.number(1)?);
        done(rt, text)
    } else {
        bail!("no such call of the confirms")
    }
}

/// Does the cases; a line `confirms` begins one, with the publications of the sessions 1 and 2, and the copies that each
/// waits for.
pub fn run(rt: &(impl Print + AllocGlobal), cases: &str) -> Result<()> {
    let alloc = rt.alloc();
    let feed = Text::from_str(alloc, "feed")?;
    let mut confirms = opened(alloc, &feed, 1, &[])?;
    for text in cases.split('\n') {
        if !is_call(text) {
            continue;
        }
        let line = Line::read(alloc, text)?;
        if line.call == "confirms" {
            confirms = opened_both(alloc, &feed, &line)?;
            done(rt, text)?;
        } else {
            call(rt, text, &line, &feed, &mut confirms)?;
        }
    }
    Ok(())
}
