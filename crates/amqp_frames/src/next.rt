ghost use Rattle.std.specs.Prelude.{◌≡◌, ◌<◌, ◌≤◌, ◌^◌, true, length, slice_index};
ghost use Rattle.amqp_frames.specs.Frames.{is_kind, announced_size};
ghost use Rattle.amqp_frames.specs.Cuts.{IsNext};

use crate::fault::FrameFault;
use crate::frame::{FRAME_END, MAX_PAYLOAD};
use byteorder::{BigEndian, ByteOrder};

/// What stands before a frame's payload.
#[derive(Clone, Copy)]
pub struct Head {
    pub kind: u8,
    pub channel: u16,
    /// How many octets the payload has.
    pub size: usize,
}

/// What begins some octets in a frame's place.
#[derive(Clone, Copy)]
pub enum Next {
    /// Less than a frame.
    Part,
    /// A whole frame.
    Whole(Head),
    /// What begins no frame.
    Fault(FrameFault),
}

/// Whether the octet is a frame's type.
fn is_kind(octet: u8) -> bool
    ensures { result ≡ is_kind octet }
{
    octet == 1 || octet == 2 || octet == 3 || octet == 8
}

/// What begins the octets, which stand at this offset.
pub(crate) fn next_frame(octets: &[u8], at: u64) -> Next
    ensures { IsNext at octets.now result }
{
    if octets.is_empty() {
        return Next::Part;
    }
    let kind = octets[0];
    if !is_kind(kind) {
        return Next::Fault(FrameFault::BadKind { at, octet: kind });
    }
    if octets.len() < 7 {
        return Next::Part;
    }
    let size = BigEndian::read_u32(&octets[3..]);
    if size as usize > MAX_PAYLOAD {
        return Next::Fault(FrameFault::TooLarge { at, size });
    }
    whole_frame(octets, at, size as usize)
}

/// What begins the octets, where they begin with a frame's type and this size.
fn whole_frame(octets: &[u8], at: u64, size: usize) -> Next
    requires long { 7 ≤ length octets.now }
    requires kind { is_kind (slice_index octets.now 0) ≡ true }
    requires announced { size ≡ announced_size octets.now }
    requires size { size ≤ MAX_PAYLOAD }
    ensures { IsNext at octets.now result }
{
    if octets.len() < size + 8 {
        return Next::Part;
    }
    let end = octets[size + 7];
    if end != FRAME_END {
        return Next::Fault(FrameFault::BadEnd { at, octet: end });
    }
    Next::Whole(Head {
        kind: octets[0],
        channel: BigEndian::read_u16(&octets[1..]),
        size,
    })
}
