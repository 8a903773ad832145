//! A session's octets through frames, commands, methods and content headers, and back.
use crate::case::Case;
use crate::commands::print_command;
use crate::frames::put_frame;
use amqp_content::{Assembler, Command};
use amqp_frames::{Frame, PROTOCOL_HEADER, Splitter};
use amqp_methods::{read_method, write_method};
use amqp_props::{read_header, write_header};
use anyhow::Result;
use bytes::Bytes;
use std::alloc::Global;

/// What a payload is written as: a method's or a content header's own spelling; a body's comes with its command.
fn payload_of(alloc: Global, frame: &Frame) -> Result<Vec<u8>> {
    let payload = frame.payload.as_slice();
    let mut out = Vec::new(alloc);
    match frame.kind {
        1 => write_method(&read_method(alloc, payload)?, &mut out)?,
        2 => {
            let (size, props) = read_header(alloc, payload)?;
            write_header(size, &props, &mut out)?;
        }
        _ => {}
    }
    Ok(out)
}

/// Appends a frame.
fn put(alloc: Global, kind: u8, channel: u16, payload: &[u8], out: &mut Vec<u8>) -> Result<()> {
    let payload = Bytes::copy_from_slice(alloc, payload)?;
    let frame = Frame {
        kind,
        channel,
        payload,
    };
    put_frame(&frame, out)
}

/// Appends the body of a command, in one frame.
fn put_body(alloc: Global, command: &Command, out: &mut Vec<u8>) -> Result<()> {
    match &command.content {
        Some((_, body)) if !body.is_empty() => {
            put(alloc, 3, command.channel, body.as_slice(), out)
        }
        _ => Ok(()),
    }
}

/// Appends what a frame is written as, and hands it to the assembler; prints the command that is whole with it.
fn take_frame(
    rt: &(impl Print + AllocGlobal),
    frame: Frame,
    assembler: &mut Assembler,
    out: &mut Vec<u8>,
) -> Result<()> {
    let alloc = rt.alloc();
    if frame.kind != 3 {
        let payload = payload_of(alloc, &frame)?;
        put(alloc, frame.kind, frame.channel, &payload, out)?;
    }
    if let Some(command) = assembler.feed(frame)? {
        print_command(rt, &command)?;
        put_body(alloc, &command, out)?;
    }
    Ok(())
}

/// Takes a piece of the stream.
fn take_piece(
    rt: &(impl Print + AllocGlobal),
    piece: &[u8],
    splitter: &mut Splitter,
    assembler: &mut Assembler,
    out: &mut Vec<u8>,
) -> Result<()> {
    let mut frames = Vec::new(rt.alloc());
    splitter.feed(piece, &mut frames)?;
    for frame in frames {
        take_frame(rt, frame, assembler, out)?;
    }
    Ok(())
}

/// The octets of the words, one feed for each, and whether the same octets are written again. A `client` begins with the
/// protocol header.
pub fn run(rt: &(impl Print + AllocGlobal), case: &Case<'_>) -> Result<()> {
    let alloc = rt.alloc();
    let is_client = case.asked == "client";
    let mut splitter = Splitter::new(alloc, is_client);
    let mut assembler = Assembler::new(alloc);
    let mut came = Vec::new(alloc);
    let mut out = Vec::new(alloc);
    if is_client {
        out.extend_from_slice(PROTOCOL_HEADER.as_slice())?;
    }
    for place in 0..case.words().len() {
        let piece = case.octets(alloc, place)?;
        println!(rt; "{} {place}: {} octets", case.name, piece.len())?;
        came.extend_from_slice(&piece)?;
        take_piece(rt, &piece, &mut splitter, &mut assembler, &mut out)?;
    }
    let same = out.as_slice() == came.as_slice();
    println!(rt;
        "{}: {} of {} octets, the same {same}",
        case.name,
        out.len(),
        came.len()
    )?;
    Ok(())
}
