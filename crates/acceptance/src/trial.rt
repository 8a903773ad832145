//! What a case does.
use crate::case::{Case, failing_calls, items};
use anyhow::{Context, Result};
use fed_outside::{MemDoor, MemFile, MemShelf, MemSink};
use fedrun_cli::words::fedrun;
use std::alloc::Global;
use std::fs;
use std::rt::Files;

/// The most octets that a case puts.
const ROOM: usize = 65_536;

fn words_of(alloc: Global, case: &Case<'_>) -> Result<Vec<String>> {
    let mut words = Vec::new(alloc);
    for word in items(alloc, case.words)? {
        words.push(String::from_str(alloc, word)?)?;
    }
    Ok(words)
}

/// The content of a file of the folder: `FILE`, or `FILE*COUNT` for its content so many times.
fn content_of(rt: &(impl Files + AllocGlobal), source: &str) -> Result<Vec<u8>> {
    let alloc = rt.alloc();
    let (source, count) = match source.split_once('*') {
        Some((source, count)) => (source, count.parse::<usize>()?),
        None => (source, 1),
    };
    let path = format!(in alloc; "{source}.schedule")?;
    let piece = fs::read(rt, path.as_str()).context(format_args!("reading {path}"))?;
    let mut content = Vec::new(alloc);
    for _ in 0..count {
        content.extend_from_slice(piece.as_slice())?;
    }
    Ok(content)
}

fn shelf_of(rt: &(impl Files + AllocGlobal), case: &Case<'_>) -> Result<MemShelf> {
    let alloc = rt.alloc();
    let mut files = Vec::new(alloc);
    for item in items(alloc, case.files)? {
        let (name, source) = item.split_once('=').context("a file without `=`")?;
        let content = content_of(rt, source)?;
        files.push(MemFile::new(String::from_str(alloc, name)?, content))?;
    }
    Ok(MemShelf::new(files, failing_calls(alloc, case.loads)?))
}

/// Prints how many octets were put, and these. A line that is not ended is ended.
fn print_put(rt: &(impl Print + AllocGlobal), name: &str, sink: &MemSink) -> Result<()> {
    let octets = sink.octets();
    println!(rt; "{name} {}", octets.len())?;
    if octets.is_empty() {
        return Ok(());
    }
    let text = String::from_utf8_lossy(rt.alloc(), octets)?;
    if octets.ends_with(b"\n") {
        print!(rt; "{text}")?;
    } else {
        println!(rt; "{text}")?;
    }
    Ok(())
}

/// Does the case, and prints its name and words, the exit status, and what was put into `out` and `err`.
pub fn run(rt: &(impl Files + Print + AllocGlobal), case: &Case<'_>) -> Result<()> {
    let alloc = rt.alloc();
    let words = words_of(alloc, case)?;
    let mut shelf = shelf_of(rt, case)?;
    let mut out = MemSink::new(alloc, ROOM, failing_calls(alloc, case.out)?)?;
    let mut err = MemSink::new(alloc, ROOM, failing_calls(alloc, case.err)?)?;
    let mut door = MemDoor::new(alloc, Vec::new(alloc), Vec::new(alloc))?;
    let status = fedrun(
        alloc,
        words.as_slice(),
        &mut shelf,
        &mut out,
        &mut err,
        &mut door,
    );
    println!(rt; "case {}: {}", case.name, case.words)?;
    println!(rt; "status {status}")?;
    print_put(rt, "out", &out)?;
    print_put(rt, "err", &err)
}
