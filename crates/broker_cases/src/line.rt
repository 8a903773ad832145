//! The lines of the files of cases.

use anyhow::{Context, Result};
use std::alloc::{AllocError, Global};

/// A line: the call, and the words behind it.
#[derive(Drop)]
pub struct Line<'a> {
    pub call: &'a str,
    words: Vec<&'a str>,
}

impl<'a> Line<'a> {
    /// The words of a line.
    pub fn read(alloc: Global, text: &'a str) -> Result<Line<'a>, AllocError> {
        let (call, rest) = match text.split_once(' ') {
            Some((call, rest)) => (call, rest),
            None => (text, ""),
        };
        let mut words = Vec::new(alloc);
        for word in rest.split(' ') {
            words.push(word)?;
        }
        Ok(Line { call, words })
    }

    /// The word at a place behind the call; `-` is the empty text.
    pub fn text(&self, place: usize) -> Result<&'a str> {
        let word = *self.words.get(place).context("a word is missing")?;
        Ok(if word == "-" { "" } else { word })
    }

    /// The number at a place behind the call.
    pub fn number(&self, place: usize) -> Result<u64> {
        Ok(self.text(place)?.parse::<u64>()?)
    }

    /// The number of 32 bits at a place behind the call.
    pub fn small(&self, place: usize) -> Result<u32> {
        Ok(self.text(place)?.parse::<u32>()?)
    }

    /// The number of 16 bits at a place behind the call.
    pub fn short(&self, place: usize) -> Result<u16> {
        Ok(self.text(place)?.parse::<u16>()?)
    }

    /// Whether the word at a place behind the call is there.
    pub fn has(&self, word: &str) -> bool {
        self.words.iter().any(|other| *other == word)
    }

    /// The numbers at a place behind the call, with a comma between them.
    pub fn numbers(&self, alloc: Global, place: usize) -> Result<Vec<u64>> {
        let mut numbers = Vec::new(alloc);
        for word in self.text(place)?.split(',') {
            if !word.is_empty() {
                numbers.push(word.parse::<u64>()?)?;
            }
        }
        Ok(numbers)
    }
}

/// Whether a line of a file is one to be done.
pub fn is_call(text: &str) -> bool {
    !text.is_empty() && !text.starts_with('#')
}

/// Prints the line, and what was answered.
pub fn answer(rt: &impl Print, text: &str, answered: impl std::fmt::Display + Drop) -> Result<()> {
    println!(rt; "{text}: {answered}")?;
    Ok(())
}

/// Prints the line, and a number that was answered.
pub fn maybe(rt: &impl Print, text: &str, answered: Option<u64>) -> Result<()> {
    match answered {
        Some(number) => println!(rt; "{text}: {number}")?,
        None => println!(rt; "{text}: none")?,
    }
    Ok(())
}

/// Prints the line, and that it was done.
pub fn done(rt: &impl Print, text: &str) -> Result<()> {
    println!(rt; "{text}")?;
    Ok(())
}
