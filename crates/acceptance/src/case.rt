//! The lines of the file of cases.
use anyhow::{Context, Result};
use fed_outside::FailingCall;
use std::alloc::{AllocError, Global};

/// A worked case, as its line says it: six fields, with ` | ` between them. A field has items with `,` between them, or is
/// `-` for none.
#[derive(Clone, Copy)]
pub struct Case<'a> {
    pub name: &'a str,
    /// The words of the command line.
    pub words: &'a str,
    /// What the shelf holds: for each file `NAME=FILE`, where FILE.schedule of the folder is its content, or
    /// `NAME=FILE*COUNT` for that content so many times.
    pub files: &'a str,
    /// The loads that fail, as `failing_calls` reads them.
    pub loads: &'a str,
    /// The puts of `out` that fail.
    pub out: &'a str,
    /// The puts of `err` that fail.
    pub err: &'a str,
}

impl<'a> Case<'a> {
    /// The case of a line. An error where fields are missing.
    pub fn read(line: &'a str) -> Result<Case<'a>> {
        let mut fields = line.split(" | ");
        Ok(Case {
            name: fields.next().context("a case without a name")?,
            words: fields.next().context("a case without words")?,
            files: fields.next().context("a case without files")?,
            loads: fields.next().context("a case without loads")?,
            out: fields.next().context("a case without puts of out")?,
            err: fields.next().context("a case without puts of err")?,
        })
    }
}

/// The items of a field.
pub fn items<'a>(alloc: Global, field: &'a str) -> Result<Vec<&'a str>, AllocError> {
    let mut items = Vec::new(alloc);
    if field != "-" {
        for item in field.split(',') {
            items.push(item)?;
        }
    }
    Ok(items)
}

/// The calls that fail: each item is the call's number from 1, and after a `:` how many octets go out first.
pub fn failing_calls(alloc: Global, field: &str) -> Result<Vec<FailingCall>> {
    let mut calls = Vec::new(alloc);
    for item in items(alloc, field)? {
        let (call, octets) = item.split_once(':').context("a failing call without `:`")?;
        calls.push(FailingCall {
            call: call.parse::<u64>()?,
            octets: octets.parse::<usize>()?,
        })?;
    }
    Ok(calls)
}
