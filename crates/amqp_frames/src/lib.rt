//! AMQP 0-9-1 frames: a stream of octets in any pieces, cut into frames, and frames written.
#![tactic(auto)]

mod cut;
mod fault;
mod frame;
mod laws;
mod next;
mod splitter;
mod stage;

pub use fault::FrameFault;
pub use frame::{FRAME_END, Frame, MAX_PAYLOAD, write_frame};
pub use laws::{
    faults_are_one, frames_are_apart, frames_are_one, parts_are_short, parts_have_no_fault,
};
pub use splitter::{PROTOCOL_HEADER, Splitter};
pub use stage::Stage;
