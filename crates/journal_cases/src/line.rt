//! The lines of the files of cases.
use amqp_props::Text;
use anyhow::{Context, Result};
use fed_journal::place::Place;
use std::alloc::{AllocError, Global};

/// A line: the call, and the words behind it.
#[derive(Drop)]
pub struct Line<'a> {
    pub call: &'a str,
    words: Vec<&'a str>,
}

impl<'a> Line<'a> {
    /// The words of a line, with a bar between them.
    pub fn read(alloc: Global, text: &'a str) -> Result<Line<'a>, AllocError> {
        let (call, rest) = match text.split_once('|') {
            Some((call, rest)) => (call, rest),
            None => (text, ""),
        };
        let mut words = Vec::new(alloc);
        for word in rest.split('|') {
            words.push(word)?;
        }
        Ok(Line { call, words })
    }

    /// The word at a place behind the call.
    pub fn word(&self, place: usize) -> Result<&'a str> {
        Ok(*self.words.get(place).context("a word is missing")?)
    }

    /// The word at a place behind the call, as a text.
    pub fn text(&self, alloc: Global, place: usize) -> Result<Text> {
        Ok(Text::from_str(alloc, self.word(place)?)?)
    }

    /// The number at a place behind the call.
    pub fn number(&self, place: usize) -> Result<u64> {
        Ok(self.word(place)?.parse::<u64>()?)
    }

    /// The number of a connection or a session, at a place behind the call.
    pub fn small(&self, place: usize) -> Result<u32> {
        Ok(self.word(place)?.parse::<u32>()?)
    }

    /// The virtual host `/` of the broker that is named first behind the call.
    pub fn place(&self, alloc: Global) -> Result<Place> {
        Ok(Place {
            broker: self.text(alloc, 0)?,
            vhost: Text::from_str(alloc, "/")?,
        })
    }
}

/// Prints a name with numbers.
pub fn print_numbers(rt: &impl Print, name: &str, numbers: &[u64]) -> Result<()> {
    print!(rt; " {name} [")?;
    for number in numbers {
        print!(rt; " {number}")?;
    }
    print!(rt; " ]")?;
    Ok(())
}

/// Prints a name with names.
pub fn print_names(rt: &impl Print, name: &str, names: &[Text]) -> Result<()> {
    print!(rt; " {name} [")?;
    for text in names {
        print!(rt; " {}", text.as_str())?;
    }
    print!(rt; " ]")?;
    Ok(())
}

/// Prints a name with a number, if there is one.
pub fn print_maybe(rt: &impl Print, name: &str, number: Option<u64>) -> Result<()> {
    match number {
        Some(number) => print!(rt; " {name} {number}")?,
        None => print!(rt; " {name} none")?,
    }
    Ok(())
}
