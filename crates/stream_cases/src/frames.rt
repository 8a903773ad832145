//! Cases of `amqp_frames`.
use crate::case::Case;
use amqp_frames::{Frame, MAX_PAYLOAD, PROTOCOL_HEADER, Splitter, write_frame};
use anyhow::{Context, Result};
use std::alloc::Global;

/// Prints a frame: type, channel and payload.
pub fn print_frame(rt: &(impl Print + AllocGlobal), frame: &Frame) -> Result<()> {
    let payload = hex::encode(rt.alloc(), frame.payload.as_slice())?;
    println!(rt; "  {} {} {payload}", frame.kind, frame.channel)?;
    Ok(())
}

/// Appends the octets of a frame. An error where it has none.
pub fn put_frame(frame: &Frame, out: &mut Vec<u8>) -> Result<()> {
    let is_kind = matches!(frame.kind, 1 | 2 | 3 | 8);
    let fits = frame.payload.len() <= MAX_PAYLOAD;
    if is_kind && fits {
        write_frame(frame, out)?;
    }
    Ok(())
}

/// The octets of each word, one feed for each; after all, the frames that came and what they are written as.
///
/// `header` asks for the protocol header, `frames` for none.
pub fn run(rt: &(impl Print + AllocGlobal), case: &Case<'_>) -> Result<()> {
    let alloc = rt.alloc();
    match case.asked {
        "each-cut" => each_cut(rt, case),
        "large" => large(rt, case),
        asked => {
            let mut splitter = Splitter::new(alloc, asked == "header");
            let mut frames = Vec::new(alloc);
            for place in 0..case.words().len() {
                let piece = case.octets(alloc, place)?;
                match splitter.feed(&piece, &mut frames) {
                    Ok(()) => println!(rt; "{}: {} frames", case.name, frames.len())?,
                    Err(fault) => {
                        println!(rt; "{}: {} frames, {fault:?}", case.name, frames.len())?
                    }
                }
            }
            for frame in &frames {
                print_frame(rt, frame)?;
            }
            Ok(())
        }
    }
}

/// A stream behind a protocol header, cut in two at each place: how many of the cuttings gave the frames that are written
/// as the stream.
fn each_cut(rt: &(impl Print + AllocGlobal), case: &Case<'_>) -> Result<()> {
    let alloc = rt.alloc();
    let stream = case.octets(alloc, 0)?;
    let mut whole = 0u32;
    for cut in 0..stream.len() {
        let mut splitter = Splitter::new(alloc, true);
        let mut frames = Vec::new(alloc);
        splitter.feed(&stream[..cut], &mut frames)?;
        splitter.feed(&stream[cut..], &mut frames)?;
        let mut out = Vec::from_slice(alloc, PROTOCOL_HEADER.as_slice())?;
        for frame in &frames {
            put_frame(frame, &mut out)?;
        }
        if out.as_slice() == stream.as_slice() {
            whole = whole.saturating_add(1);
        }
    }
    println!(rt; "{}: {whole} of {} cuttings", case.name, stream.len())?;
    Ok(())
}

/// The head of a frame, so many zeros, and the end: how long the payloads are that came.
fn large(rt: &(impl Print + AllocGlobal), case: &Case<'_>) -> Result<()> {
    let alloc = rt.alloc();
    let mut octets = case.octets(alloc, 0)?;
    let count = case.word(1)?.parse::<u32>()?;
    for _ in 0..count {
        octets.push(0)?;
    }
    octets.extend_from_slice(&case.octets(alloc, 2)?)?;
    let mut splitter = Splitter::new(alloc, false);
    let mut frames = Vec::new(alloc);
    let fault = splitter.feed(&octets, &mut frames).err();
    println!(rt; "{}: {fault:?}", case.name)?;
    for frame in &frames {
        println!(rt; "  {} octets", frame.payload.len())?;
    }
    Ok(())
}
