ghost use Rattle.std.specs.Prelude.{◌≡◌, ◌+◌, ◌≤◌, ◌∷◌, ◌++◌, length, IsTrue, OnOk, OnErr};
ghost use Rattle.byteorder.specs.Endian.{big_bytes};
ghost use Rattle.amqp_frames.specs.Frames.{is_kind, frame_spelling};

use byteorder::{BigEndian, ByteOrder};
use bytes::Bytes;
use std::alloc::AllocError;

/// The most octets of a frame's payload: a frame has at most 131,072 octets.
pub const MAX_PAYLOAD: usize = 131_064;

/// The octet that ends each frame (AMQP 0-9-1, section 4.2.3).
pub const FRAME_END: u8 = 0xce;

/// A frame (AMQP 0-9-1, section 4.2.3).
#[derive(Clone, Debug, PartialEq, Eq, Drop)]
pub struct Frame {
    /// The frame's type: 1 method, 2 content header, 3 content body, 8 heartbeat.
    pub kind: u8,
    /// The channel number; 0 for the connection as a whole.
    pub channel: u16,
    /// The payload, at most 131,064 octets.
    pub payload: Bytes,
}

/// The seven octets before a payload of this size.
fn frame_head(kind: u8, channel: u16, size: u32) -> [u8; 7]
    ensures { result ≡ kind ∷ (big_bytes 2 channel ++ big_bytes 4 size) }
{
    let mut head = [0; 7];
    head[0] = kind;
    BigEndian::write_u16(&mut head[1..], channel);
    BigEndian::write_u32(&mut head[3..], size);
    head
}

/// Appends the frame's one spelling. The type must be 1, 2, 3 or 8 and the payload within `MAX_PAYLOAD`. The error is
/// want of memory, and changes nothing.
#[tactic(auto, using(std::proofs::Common::append_assoc), unfolding(crate::specs::Frames::frame_spelling))]
pub fn write_frame(frame: &Frame, out: &mut Vec<u8>) -> Result<(), AllocError>
    requires kind { IsTrue (is_kind frame.now.kind) }
    requires size { length frame.now.payload ≤ 131064 }
    ensures ok { OnOk result (out.new.items ≡ out.old.items ++ frame_spelling frame.now) }
    ensures err { OnErr result (out.new.items ≡ out.old.items) }
{
    let payload = frame.payload.as_slice();
    let head = frame_head(frame.kind, frame.channel, payload.len() as u32);
    out.reserve(payload.len() + 8)?;
    out.extend_from_slice(&head).unwrap();
    out.extend_from_slice(payload).unwrap();
    out.push(FRAME_END).unwrap();
    Ok(())
}
