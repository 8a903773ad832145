//! The program `fedrun`: the real files, outputs and arguments, handed to the top call.
#![tactic(auto)]

use fed_outside::{FileShelf, MemDoor, Sink, StdSink};
use fedrun_cli::words::fedrun;
use std::process::ExitCode;
use std::rt::Env;
use std::{env, io};

/// The words after the program's name.
fn words_of(rt: &(impl Env + AllocGlobal)) -> io::Result<Vec<String>> {
    let mut words = Vec::new(rt.alloc());
    for word in env::args(rt)?.skip(1) {
        words.push(word)?;
    }
    Ok(words)
}

fn main(rt: HostRuntime) -> ExitCode {
    let alloc = rt.alloc();
    let mut shelf = FileShelf::new(&rt);
    let mut out = StdSink::new(rt.stdout());
    let mut err = StdSink::new(rt.stderr());
    let door = MemDoor::new(alloc, Vec::new(alloc), Vec::new(alloc));
    let (Ok(words), Ok(mut door)) = (words_of(&rt), door) else {
        err.put(b"fedrun: memory\n");
        return ExitCode::from(1);
    };
    ExitCode::from(fedrun(
        alloc,
        words.as_slice(),
        &mut shelf,
        &mut out,
        &mut err,
        &mut door,
    ))
}
