//! The lines of the files of cases.
use anyhow::{Context, Result};
use std::alloc::Global;

/// A worked case: a name, and what follows it after a space.
#[derive(Clone, Copy)]
pub struct Case<'a> {
    pub name: &'a str,
    pub rest: &'a str,
}

/// The lines of a text that are cases: neither empty nor begun by `#`.
pub fn lines_of<'a>(alloc: Global, text: &'a str) -> Result<Vec<&'a str>> {
    let mut lines = Vec::new(alloc);
    for line in text.split('\n') {
        if !line.is_empty() && !line.starts_with('#') {
            lines.push(line)?;
        }
    }
    Ok(lines)
}

impl<'a> Case<'a> {
    /// The case of a line. An error where nothing follows the name.
    pub fn read(line: &'a str) -> Result<Case<'a>> {
        let (name, rest) = line.split_once(' ').context("a case of one word")?;
        Ok(Case { name, rest })
    }

    /// What follows, cut at its first space.
    pub fn cut(&self) -> Result<(&'a str, &'a str)> {
        self.rest.split_once(' ').context("a case of two words")
    }
}
