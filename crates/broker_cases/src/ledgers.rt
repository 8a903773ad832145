//! Cases of what publisher confirms wait for.

ghost use Rattle.std.specs.Prelude.{◌≡◌};

use crate::line::{Line, answer, done, is_call, maybe};
use anyhow::{Result, bail};
use confirm_core::Ledger;
use std::alloc::Global;

/// A ledger with two open publications.
fn opened(alloc: Global, line: &Line<'_>) -> Result<Ledger> {
    let first = line.number(0)?;
    let second = line.number(2)?;
    if first == second {
        bail!("one number for two publications");
    }
    let mut ledger = Ledger::new(alloc);
    ledger.open(first, &line.numbers(alloc, 1)?)?;
    ledger.open(second, &line.numbers(alloc, 3)?)?;
    Ok(ledger)
}

/// Makes a call.
fn call(rt: &impl Print, text: &str, line: &Line<'_>, ledger: &mut Ledger) -> Result<()> {
    let call = line.call;
    if call == "left" {
        ledger.left(line.number(0)?);
        done(rt, text)
    } else if call == "flushed" {
        ledger.flushed();
        done(rt, text)
    } else if call == "next" {
        maybe(rt, text, ledger.next_ready())
    } else if call == "answered" {
        answer(rt, text, ledger.answered(line.number(0)?))
    } else if call == "empty" {
        answer(rt, text, ledger.is_empty())
    } else {
        bail!("no such call of a ledger")
    }
}

/// Does the cases; a line `ledger` begins one, with two publications and the copies that each waits for.
pub fn run(rt: &(impl Print + AllocGlobal), cases: &str) -> Result<()> {
    let alloc = rt.alloc();
    let mut ledger = Ledger::new(alloc);
    for text in cases.split('\n') {
        if !is_call(text) {
            continue;
        }
        let line = Line::read(alloc, text)?;
        if line.call == "ledger" {
            ledger = opened(alloc, &line)?;
            done(rt, text)?;
        } else {
            call(rt, text, &line, &mut ledger)?;
        }
    }
    Ok(())
}
