//! Cases of `binding_match`.
use crate::case::Case;
use anyhow::{Context, Result};
use binding_match::{headers_match, topic_matches};
use std::alloc::Global;

/// A text so many times.
fn repeated(alloc: Global, text: &str, count: usize) -> Result<String> {
    let mut all = String::new(alloc);
    for _ in 0..count {
        all.push_str(text)?;
    }
    Ok(all)
}

/// A key or a pattern: a text, or `FIRST!COUNT!MORE` for the first text and so many times the other.
fn pattern_of(alloc: Global, word: &str) -> Result<String> {
    let Some((first, rest)) = word.split_once('!') else {
        return Ok(String::from_str(alloc, word)?);
    };
    let (count, more) = rest.split_once('!').context("a count without a text")?;
    let mut all = String::from_str(alloc, first)?;
    all.push_str(&repeated(alloc, more, count.parse::<usize>()?)?)?;
    Ok(all)
}

/// Does the case.
pub fn run(rt: &(impl Print + AllocGlobal), case: &Case<'_>) -> Result<()> {
    let alloc = rt.alloc();
    let matches = match case.asked {
        "topic" => {
            let pattern = pattern_of(alloc, case.word(0)?)?;
            let key = pattern_of(alloc, case.word(1)?)?;
            topic_matches(&pattern, &key)
        }
        _ => headers_match(&case.table(alloc, 0)?, &case.table(alloc, 1)?),
    };
    println!(rt; "{}: {matches}", case.name)?;
    Ok(())
}
