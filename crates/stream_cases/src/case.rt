//! The lines of the files of cases.
use anyhow::{Context, Result};
use std::alloc::Global;

/// A worked case: a name, what is asked, and the words that it is asked of, with one space between them.
#[derive(Drop)]
pub struct Case<'a> {
    pub name: &'a str,
    pub asked: &'a str,
    words: Vec<&'a str>,
}

/// The lines of a text that are cases: neither empty nor begun by `#`.
pub fn lines_of<'a>(alloc: Global, text: &'a str) -> Result<Vec<&'a str>> {
    let mut lines = Vec::new(alloc);
    for line in text.split('\n') {
        if !line.is_empty() && !line.starts_with('#') {
            lines.push(line)?;
        }
    }
    Ok(lines)
}

impl<'a> Case<'a> {
    /// The case of a line. An error where the name or what is asked is missing.
    pub fn read(alloc: Global, line: &'a str) -> Result<Case<'a>> {
        let mut words = line.split(' ');
        let name = words.next().context("a case without a name")?;
        let asked = words.next().context("a case that asks nothing")?;
        let mut rest = Vec::new(alloc);
        for word in words {
            rest.push(word)?;
        }
        Ok(Case {
            name,
            asked,
            words: rest,
        })
    }

    /// The word at this place; `-` is the empty text.
    pub fn word(&self, place: usize) -> Result<&'a str> {
        let word = *self.words.get(place).context("a case with too few words")?;
        Ok(if word == "-" { "" } else { word })
    }

    /// All words.
    pub fn words(&self) -> &[&'a str] {
        self.words.as_slice()
    }

    /// The octets that the word at this place spells in hexadecimal digits.
    pub fn octets(&self, alloc: Global, place: usize) -> Result<Vec<u8>> {
        Ok(hex::decode(alloc, self.word(place)?)?)
    }
}
