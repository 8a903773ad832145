ghost use Rattle.std.specs.Prelude.{◌≡◌, ◌+◌, ◌<◌, ◌≤◌, ◌^◌, ◌++◌, List, length, drop, IfOk, OnErr};
ghost use Rattle.amqp_frames.specs.declared.frame.Frame.{Frame};
ghost use Rattle.amqp_frames.specs.Cuts.{frame_of, IsCut, Advances};

use crate::fault::FrameFault;
use crate::frame::Frame;
use crate::next::{Head, Next, next_frame};
use bytes::Bytes;
use std::alloc::{AllocError, Global};

/// Frames that octets begin with.
#[derive(Drop)]
pub(crate) struct Cut {
    pub frames: Vec<Frame>,
    /// How many octets they take.
    pub used: usize,
    /// What is wrong behind them, unless that is less than a frame.
    pub fault: Option<FrameFault>,
}

/// The frame with this head that stands behind so many octets of the block, whose memory its payload shares.
fn frame_at(block: &Bytes, used: usize, head: Head) -> Result<Frame, AllocError>
    requires within { used + (head.size + 8) ≤ length block.now }
    requires fits { used + (head.size + 8) < 2 ^ 64 }
    ensures { IfOk result (λ frame. frame ≡ frame_of head (drop used block.now)) }
{
    let start = used + 7;
    let payload = block.slice(start..start + head.size)?;
    Ok(Frame {
        kind: head.kind,
        channel: head.channel,
        payload,
    })
}

/// Cuts the whole frames off the front of the octets, which stand at this offset. The frames share one copy of them.
fn cut_frames(alloc: Global, octets: &[u8], at: u64) -> Result<Cut, AllocError>
    ensures { IfOk result (λ cut. IsCut at octets.now cut.frames.items cut.used cut.fault) }
{
    let block = Bytes::copy_from_slice(alloc, octets)?;
    let mut frames = Vec::new(alloc);
    let mut used = 0;
    loop {
        match next_frame(&octets[used..], at.saturating_add(used as u64)) {
            Next::Whole(head) => {
                frames.push(frame_at(&block, used, head)?)?;
                used += head.size + 8;
            }
            Next::Part => {
                return Ok(Cut {
                    frames,
                    used,
                    fault: None,
                });
            }
            Next::Fault(fault) => {
                return Ok(Cut {
                    frames,
                    used,
                    fault: Some(fault),
                });
            }
        }
    }
}

/// Where a splitter stands behind some frames.
#[derive(Drop)]
pub(crate) struct Reached {
    /// The octets behind the frames.
    pub rest: Vec<u8>,
    /// Their offset.
    pub at: u64,
    /// What is wrong there, unless they are less than a frame.
    pub fault: Option<FrameFault>,
}

/// Appends the frames that begin the octets, which stand at this offset. Want of memory changes nothing.
pub(crate) fn append_frames(
    alloc: Global,
    octets: &[u8],
    at: u64,
    frames: &mut Vec<Frame>,
) -> Result<Reached, AllocError>
    ensures ok { IfOk result (λ reached. (found : List Frame) × (frames.new.items ≡ frames.old.items ++ found)
        × Advances at octets.now found reached.rest.items reached.at reached.fault) }
    ensures err { OnErr result (frames.new.items ≡ frames.old.items) }
{
    let mut cut = cut_frames(alloc, octets, at)?;
    let rest = Vec::from_slice(alloc, &octets[cut.used..])?;
    frames.append(&mut cut.frames)?;
    Ok(Reached {
        rest,
        at: at.saturating_add(cut.used as u64),
        fault: cut.fault,
    })
}
