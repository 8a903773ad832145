ghost use Rattle.std.specs.Prelude.{◌≡◌, ◌+◌, ◌<◌, ◌++◌, List, [], IsTrue, Ok, Err, MatchOption, IfSome, IfNone, take, drop};
ghost use Rattle.amqp_frames.specs.declared.frame.Frame.{Frame};
ghost use Rattle.amqp_frames.specs.declared.stage.Stage.TheVariants as stage;
ghost use Rattle.amqp_frames.specs.Frames.{IsUnfinished};
ghost use Rattle.amqp_frames.specs.Streams.{protocol_header, header_count, HasRead, Fed};

use crate::cut::{Reached, append_frames};
use crate::fault::FrameFault;
use crate::frame::Frame;
use crate::next::{Next, next_frame};
use crate::stage::Stage;
use std::alloc::{AllocError, Global};
use std::marker::Model;

/// The octets with which a client begins: "AMQP", 0, 0, 9, 1 (AMQP 0-9-1, section 4.2.2).
pub const PROTOCOL_HEADER: [u8; 8] = [65, 77, 81, 80, 0, 0, 9, 1];

/// Cuts a stream that comes in any pieces into frames. Between calls it holds less than one frame.
#[derive(Drop)]
pub struct Splitter {
    alloc: Global,
    stage: Stage,
    at: u64,
    held: Vec<u8>,
}

impl Model for Splitter {
    ghost use Rattle.std.specs.Prelude.{IsTrue};
    ghost use Rattle.amqp_frames.specs.Streams.{Progress, fits_header};

    ghost Value = { Progress };

    ghost view = { λ s. record { stage = s.stage; at = s.at; held = s.held.items } };

    ghost invariant = { λ s. IsTrue (fits_header s.stage) };
}

/// Whether the octets are less than a frame.
fn is_part(octets: &[u8], at: u64) -> bool
    ensures { IsTrue result → IsUnfinished octets.now }
{
    match next_frame(octets, at) {
        Next::Part => true,
        Next::Whole(_) => false,
        Next::Fault(_) => false,
    }
}

/// How many octets of the piece belong to the protocol header, of which so many came before; `None` where they differ
/// from it.
fn header_octets(piece: &[u8], came: usize) -> Option<usize>
    requires { came < 8 }
    ensures count { IfSome result (λ count. count ≡ header_count came piece.now) }
    ensures some { IfSome result (λ count. take count piece.now ≡ take count (drop came protocol_header)) }
    ensures none { IfNone result (take (header_count came piece.now) piece.now
        ≡ take (header_count came piece.now) (drop came protocol_header) → ⊥) }
{
    let wanted = &PROTOCOL_HEADER[came..];
    let count = piece.len().min(wanted.len());
    if &piece[..count] == &wanted[..count] {
        Some(count)
    } else {
        None
    }
}

impl Splitter {
    /// A splitter at the start of a stream, which begins with the protocol header if that is asked for.
    pub fn new(alloc: Global, header: bool) -> Splitter
        ensures { HasRead header [] [] result }
    {
        let stage = if header {
            Stage::Header { came: 0 }
        } else {
            Stage::Frames
        };
        Splitter {
            alloc,
            stage,
            at: 0,
            held: Vec::new(alloc),
        }
    }

    /// Takes the next piece of the stream, and appends the frames that are whole now. A fault stands at the first octet
    /// that no frame (or header) has there, where a size is judged at its fourth octet; the frames before it are
    /// appended. From then on each call answers `Failed`. Want of memory changes nothing.
    pub fn feed(&mut self, piece: &[u8], frames: &mut Vec<Frame>) -> Result<(), FrameFault>
        ensures { (found : List Frame) × (frames.new.items ≡ frames.old.items ++ found)
            × Fed self.old self.new piece.now found result }
    {
        match self.stage {
            Stage::Header { came } => self.feed_header(came, piece, frames),
            Stage::Frames => self.feed_frames(piece, frames),
            Stage::Failed => Err(FrameFault::Failed { at: self.at }),
        }
    }

    /// `feed` in the protocol header, of which so many octets came.
    fn feed_header(
        &mut self,
        came: usize,
        piece: &[u8],
        frames: &mut Vec<Frame>,
    ) -> Result<(), FrameFault>
        requires stage { self.old.stage ≡ stage.Header came }
        requires came { came < 8 }
        ensures { (found : List Frame) × (frames.new.items ≡ frames.old.items ++ found)
            × Fed self.old self.new piece.now found result }
    {
        let count = match header_octets(piece, came) {
            Some(count) => count,
            None => {
                self.fail(0);
                return Err(FrameFault::BadHeader { at: 0 });
            }
        };
        if came + count < PROTOCOL_HEADER.len() {
            self.stage = Stage::Header { came: came + count };
            return Ok(());
        }
        match append_frames(self.alloc, &piece[count..], 8, frames) {
            Ok(reached) => self.settle(reached),
            Err(AllocError) => Err(FrameFault::Memory),
        }
    }

    /// `feed` behind the header.
    fn feed_frames(&mut self, piece: &[u8], frames: &mut Vec<Frame>) -> Result<(), FrameFault>
        requires { self.old.stage ≡ stage.Frames }
        ensures { (found : List Frame) × (frames.new.items ≡ frames.old.items ++ found)
            × Fed self.old self.new piece.now found result }
    {
        let before = self.held.len();
        self.held.extend_from_slice(piece)?;
        if is_part(&self.held, self.at) {
            return Ok(());
        }
        match append_frames(self.alloc, &self.held, self.at, frames) {
            Ok(reached) => self.settle(reached),
            Err(AllocError) => {
                self.held.truncate(before);
                Err(FrameFault::Memory)
            }
        }
    }

    /// Goes to where some frames end, and tells what is wrong there.
    fn settle(&mut self, reached: Reached) -> Result<(), FrameFault>
        ensures { MatchOption reached.fault
            ((result ≡ Ok tt) × (self.new ≡ record { stage = stage.Frames; at = reached.at; held = reached.rest.items }))
            (λ fault. (result ≡ Err fault) × (self.new ≡ record { stage = stage.Failed; at = reached.at; held = [] })) }
    {
        match reached.fault {
            Some(fault) => {
                self.fail(reached.at);
                Err(fault)
            }
            None => {
                self.stage = Stage::Frames;
                self.at = reached.at;
                self.held = reached.rest;
                Ok(())
            }
        }
    }

    /// Stops at a fault, in a frame at this offset.
    fn fail(&mut self, at: u64)
        ensures { self.new ≡ record { stage = stage.Failed; at = at; held = [] } }
    {
        self.stage = Stage::Failed;
        self.at = at;
        self.held = Vec::new(self.alloc);
    }
}
