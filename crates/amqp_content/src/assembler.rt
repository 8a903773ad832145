//! Commands of a stream of frames.
ghost use Rattle.std.specs.Prelude.{◌≡◌, ◌≢◌, ℕ, ◌<◌, false, List, [], ◌∷◌, ◌++◌, None, slice_index, IsSome, IfSome, IfOk};
ghost use Rattle.amqp_frames.specs.declared.frame.Frame.{Frame};
ghost use Rattle.amqp_content.specs.Commands.{AreOpen, IsCommand};
ghost use Rattle.amqp_content.specs.Steps.{Whole, is_heartbeat};
ghost use Rattle.amqp_content.specs.View.{part_of, Fed, Spells, IsAnswer, IsWritable, Added};

use crate::command::Command;
use crate::fault::ContentFault;
use crate::part::Part;
use amqp_frames::Frame;
use std::alloc::Global;
use std::collections::HashMap;

/// The type of a heartbeat (AMQP 0-9-1, section 4.2.1).
const HEARTBEAT_FRAME: u8 = 8;

/// Puts the frames of a stream together to commands, channel by channel.
#[derive(Drop)]
pub struct Assembler {
    alloc: Global,
    /// The command of each channel of which frames are missing.
    parts: HashMap<u16, Part>,
}

impl Assembler {
    /// An assembler of a stream of which no frame came; it keeps the allocator for what comes.
    pub fn new(alloc: Global) -> Assembler
        ensures { (channel : ℕ) → part_of channel result ≡ None }
    {
        Assembler {
            alloc,
            parts: HashMap::new(alloc),
        }
    }

    /// Takes the next frame of the stream. The answer is the command that is whole with it, or `None` where frames of it
    /// are missing. Heartbeats on channel 0 are read over.
    ///
    /// # Errors
    ///
    /// What is wrong with the frame; nothing of its channel's command is kept then. Want of memory changes nothing.
    #[tactic(auto, unfolding(crate::specs::Steps::feed_frame))]
    pub fn feed(&mut self, frame: Frame) -> Result<Option<Command>, ContentFault>
        // What the frame makes of its channel's part, or which fault it is.
        ensures exact { Fed (part_of frame.channel self.old) (part_of frame.channel self.new) frame result }
        ensures others { (channel : ℕ) → channel ≢ frame.channel → part_of channel self.new ≡ part_of channel self.old }

        // What is answered is spelled by the channel's frames: a command, or a part of one; a fault where no command
        // begins so.
        ensures spells { (frames : List Frame) → AreOpen frame.channel frames (part_of frame.channel self.old)
            → Spells frames (part_of frame.channel self.new) frame result }

        // A command that the channel's frames spell is answered, unless memory runs out.
        ensures only { (frames : List Frame) (command : Whole) → AreOpen frame.channel frames (part_of frame.channel self.old)
            → IsCommand (frames ++ frame ∷ []) command → IsAnswer command result }

        // What is answered can be written again, by `write_method` and `write_header`.
        ensures writable { IfOk result (λ answer. IfSome answer IsWritable) }
    {
        octets_fit(frame.payload.as_slice());
        if is_heartbeat(&frame) {
            return Ok(None);
        }
        if self.parts.contains_key(&frame.channel) {
            self.go_on(&frame)
        } else {
            self.begin(&frame)
        }
    }

    /// `feed` on a channel of which no command is open.
    #[tactic(auto, unfolding(crate::specs::Steps::feed_frame))]
    fn begin(&mut self, frame: &Frame) -> Result<Option<Command>, ContentFault>
        requires part { part_of frame.now.channel self.old ≡ None }
        requires counts { is_heartbeat frame.now ≡ false }
        ensures exact { Fed (part_of frame.now.channel self.old) (part_of frame.now.channel self.new) frame.now result }
        ensures others { (channel : ℕ) → channel ≢ frame.now.channel → part_of channel self.new ≡ part_of channel self.old }
        ensures writable { IfOk result (λ answer. IfSome answer IsWritable) }
    {
        let part = Part::begin(self.alloc, frame)?;
        if part.is_whole() {
            return Ok(Some(part.into_command(frame.channel)));
        }
        self.parts.insert(frame.channel, part)?;
        Ok(None)
    }

    /// `feed` on a channel of which a command is open.
    #[tactic(auto, unfolding(crate::specs::Steps::feed_frame))]
    fn go_on(&mut self, frame: &Frame) -> Result<Option<Command>, ContentFault>
        requires part { IsSome (part_of frame.now.channel self.old) }
        requires counts { is_heartbeat frame.now ≡ false }
        ensures exact { Fed (part_of frame.now.channel self.old) (part_of frame.now.channel self.new) frame.now result }
        ensures others { (channel : ℕ) → channel ≢ frame.now.channel → part_of channel self.new ≡ part_of channel self.old }
        ensures writable { IfOk result (λ answer. IfSome answer IsWritable) }
    {
        match self.add(frame) {
            Ok(false) => Ok(None),
            Ok(true) => match self.parts.remove(&frame.channel) {
                Some(part) => Ok(Some(part.into_command(frame.channel))),
                None => unreachable!(),
            },
            Err(ContentFault::Memory) => Err(ContentFault::Memory),
            Err(fault) => {
                self.parts.remove(&frame.channel);
                Err(fault)
            }
        }
    }

    /// Adds a frame to the open command of its channel; whether it is whole now.
    fn add(&mut self, frame: &Frame) -> Result<bool, ContentFault>
        requires { IsSome (part_of frame.now.channel self.old) }
        ensures added { Added (part_of frame.now.channel self.old) (part_of frame.now.channel self.new) frame.now result }
        ensures others { (channel : ℕ) → channel ≢ frame.now.channel → part_of channel self.new ≡ part_of channel self.old }
    {
        let alloc = self.alloc;
        match self.parts.get_mut(&frame.channel) {
            Some(part) => {
                part.add(alloc, frame)?;
                Ok(part.is_whole())
            }
            None => unreachable!(),
        }
    }
}

/// An octet is below 256: what the proof of `feed` needs to know of a payload.
fn octets_fit(octets: &[u8])
    ensures { (i : ℕ) → slice_index octets.now i < 256 }
{}

/// Whether the frame only keeps the connection alive.
fn is_heartbeat(frame: &Frame) -> bool
    ensures { result ≡ is_heartbeat frame.now }
{
    frame.kind == HEARTBEAT_FRAME && frame.channel == 0
}
