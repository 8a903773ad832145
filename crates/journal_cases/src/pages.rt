//! Cases of the texts and messages of a journal.
use crate::line::Line;
use amqp_props::{Message, Octets, Text};
use anyhow::{Result, bail};
use fed_journal::message::{is_persistent, message_bytes, properties};
use fed_journal::page::{Page, shovel_link_name};
use fed_journal::place::Place;
use std::alloc::{AllocError, Global};

/// A message with this body, persistent or not.
fn message(alloc: Global, persistent: bool, body: &str) -> Result<Message, AllocError> {
    let mut octets = Vec::new(alloc);
    octets.extend_from_slice(body.as_bytes())?;
    Ok(Message {
        exchange: Text::from_str(alloc, "")?,
        key: Text::from_str(alloc, "")?,
        props: properties(persistent, None),
        body: Octets::new(alloc, octets)?,
    })
}

/// A place of any virtual host.
fn place(alloc: Global, line: &Line<'_>) -> Result<Place> {
    Ok(Place {
        broker: line.text(alloc, 0)?,
        vhost: line.text(alloc, 1)?,
    })
}

/// The page that a line writes, behind an `=`.
fn page(alloc: Global, line: &Line<'_>) -> Result<Page> {
    let mut page = Page::new(alloc);
    page.push("=")?;
    if line.call == "word" {
        page.push_word(line.word(0)?)?;
    } else if line.call == "hex" {
        page.push_hex(line.word(0)?.as_bytes())?;
    } else if line.call == "number" {
        page.push_number(line.number(0)?)?;
    } else if line.call == "place" {
        page.push_place(&place(alloc, line)?)?;
    } else {
        bail!("no such call of a page")
    }
    Ok(page)
}

/// Prints what the call of a line answers.
fn print_call(rt: &(impl Print + AllocGlobal), text: &str) -> Result<()> {
    let alloc = rt.alloc();
    let line = Line::read(alloc, text)?;
    if line.call == "message" {
        let message = message(alloc, line.word(0)? == "persistent", line.word(1)?)?;
        let persistent = is_persistent(&message);
        println!(rt; "{text}: persistent {persistent}")?;
    } else if line.call == "link" {
        let name = shovel_link_name(alloc, &place(alloc, &line)?, &line.text(alloc, 2)?)?;
        println!(rt; "{text}: {}", name.as_str())?;
    } else {
        let page = page(alloc, &line)?;
        print!(rt; "{text}: {}", page.as_str())?;
        println!(rt; " {}", page.into_text()?.as_str())?;
    }
    Ok(())
}

/// Prints what each line answers.
pub fn print(rt: &(impl Print + AllocGlobal), cases: &str) -> Result<()> {
    for text in cases.split('\n') {
        if !text.is_empty() && !text.starts_with('#') {
            print_call(rt, text)?;
        }
    }
    Ok(())
}
