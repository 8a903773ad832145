//! Cases of the router.

ghost use Rattle.std.specs.Prelude.{◌≡◌, IfOk};

use crate::line::{Line, answer, done, is_call};
use amqp_props::{ExchangeKind, FieldTable, Text};
use anyhow::{Result, bail};
use field_tables::{FieldValue, Table};
use route_core::{Binding, Node, Router, Sort};
use std::alloc::{AllocError, Global};

/// A router with the queues `a` and `b`, in this order, and the fanout exchange `x`.
fn opened(alloc: Global) -> Result<Router, AllocError> {
    let mut router = Router::new(alloc)?;
    router.reserve(1, 0)?;
    router.put(
        Text::from_str(alloc, "x")?,
        Node::Exchange(ExchangeKind::Fanout),
    );
    router.declare("a", Node::Queue(0))?;
    router.declare("b", Node::Queue(1))?;
    Ok(router)
}

/// No headers or arguments, or the one of the name `format` that is the boolean.
pub fn table(alloc: Global, line: &Line<'_>) -> Result<Table> {
    let mut pairs = Vec::new(alloc);
    if line.has("format") {
        pairs.push((String::from_str(alloc, "format")?, FieldValue::Bool(true)))?;
    }
    if line.has("any") {
        let any = FieldValue::Text(Vec::from_slice(alloc, b"any")?);
        pairs.push((String::from_str(alloc, "x-match")?, any))?;
    }
    Ok(Table { pairs })
}

/// What a word says that a name is of.
pub fn sort_of(line: &Line<'_>) -> Sort {
    if line.has("exchange") {
        Sort::Exchange
    } else {
        Sort::Queue
    }
}

/// Prints names.
pub fn names(rt: &impl Print, text: &str, names: &[Text]) -> Result<()> {
    print!(rt; "{text}:")?;
    for name in names {
        print!(rt; " {}", name.as_str())?;
    }
    println!(rt; "")?;
    Ok(())
}

/// Binds, where both ends stand.
fn bind(
    rt: &(impl Print + AllocGlobal),
    text: &str,
    line: &Line<'_>,
    router: &mut Router,
) -> Result<()> {
    let source = line.text(0)?;
    let dest = line.text(1)?;
    let sort = sort_of(line);
    if !router.has(Sort::Exchange, source) || !router.has(sort, dest) {
        bail!("an end is missing");
    }
    let args = table(rt.alloc(), line)?;
    answer(
        rt,
        text,
        router.bind(source, sort, dest, line.text(2)?, &args)?,
    )
}

/// Binds with memory that was taken ahead, where both ends stand.
fn tie(
    rt: &(impl Print + AllocGlobal),
    text: &str,
    line: &Line<'_>,
    router: &mut Router,
) -> Result<()> {
    let alloc = rt.alloc();
    let source = Text::from_str(alloc, line.text(0)?)?;
    let dest = Text::from_str(alloc, line.text(1)?)?;
    let key = Text::from_str(alloc, line.text(2)?)?;
    let args = FieldTable::new(alloc, table(alloc, line)?)?;
    let sort = sort_of(line);
    router.reserve(0, 1)?;
    if !router.has(Sort::Exchange, source.as_str()) || !router.has(sort, dest.as_str()) {
        bail!("an end is missing");
    }
    answer(rt, text, router.tie(source, sort, dest, key, args))
}

/// Prints the numbers of the queues that a message reaches, and the limit of its gates.
fn route(
    rt: &(impl Print + AllocGlobal),
    text: &str,
    line: &Line<'_>,
    router: &Router,
) -> Result<()> {
    let headers = table(rt.alloc(), line)?;
    match router.route(line.text(0)?, line.text(1)?, &headers) {
        Ok((numbers, limit)) => {
            print!(rt; "{text}:")?;
            for number in numbers.iter() {
                print!(rt; " {number}")?;
            }
            println!(rt; " limit {limit}")?;
        }
        Err(fault) => println!(rt; "{text}: {fault}")?,
    }
    Ok(())
}

/// Whether the binding of the line stands, and a clone of it.
fn stands(
    rt: &(impl Print + AllocGlobal),
    text: &str,
    line: &Line<'_>,
    router: &Router,
) -> Result<()> {
    let alloc = rt.alloc();
    let binding = Binding {
        source: Text::from_str(alloc, line.text(0)?)?,
        sort: sort_of(line),
        dest: Text::from_str(alloc, line.text(1)?)?,
        key: Text::from_str(alloc, line.text(2)?)?,
        args: FieldTable::new(alloc, table(alloc, line)?)?,
    };
    let copy = binding.clone()?;
    answer(rt, text, copy == binding && router.has_binding(&copy))
}

/// Asks the router.
fn ask(
    rt: &(impl Print + AllocGlobal),
    text: &str,
    line: &Line<'_>,
    router: &Router,
) -> Result<()> {
    let call = line.call;
    if call == "has" {
        answer(rt, text, router.has(sort_of(line), line.text(0)?))
    } else if call == "route" {
        route(rt, text, line, router)
    } else if call == "names" {
        let headers = table(rt.alloc(), line)?;
        names(
            rt,
            text,
            &router.names(line.text(0)?, line.text(1)?, &headers)?,
        )
    } else if call == "stands" {
        stands(rt, text, line, router)
    } else if call == "bindings" {
        answer(rt, text, router.bindings().len())
    } else if call == "key" {
        match router.key_at(line.text(0)?, line.number(1)? as usize) {
            Some((key, args)) => println!(rt; "{text}: {key} {}", args.pairs.len())?,
            None => println!(rt; "{text}: none")?,
        }
        Ok(())
    } else {
        bail!("no such call of a router")
    }
}

/// Does the cases; a line `router` begins one.
pub fn run(rt: &(impl Print + AllocGlobal), cases: &str) -> Result<()> {
    let alloc = rt.alloc();
    let mut router = opened(alloc)?;
    for text in cases.split('\n') {
        if !is_call(text) {
            continue;
        }
        let line = Line::read(alloc, text)?;
        let call = line.call;
        if call == "router" {
            router = opened(alloc)?;
            done(rt, text)?;
        } else if call == "bind" {
            bind(rt, text, &line, &mut router)?;
        } else if call == "tie" {
            tie(rt, text, &line, &mut router)?;
        } else if call == "unbind" {
            let args = table(alloc, &line)?;
            let was = router.unbind(
                line.text(0)?,
                sort_of(&line),
                line.text(1)?,
                line.text(2)?,
                &args,
            );
            answer(rt, text, was)?;
        } else if call == "delete" {
            answer(rt, text, router.delete(sort_of(&line), line.text(0)?))?;
        } else {
            ask(rt, text, &line, &router)?;
        }
    }
    Ok(())
}
