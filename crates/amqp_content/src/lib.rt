//! Whole commands of a stream of AMQP 0-9-1 frames: methods, with the content that belongs to them.
#![tactic(auto)]

mod assembler;
mod command;
mod fault;
mod laws;
mod part;

pub use assembler::Assembler;
pub use command::Command;
pub use fault::ContentFault;
pub use laws::{commands_are_one, parts_are_no_commands, parts_begin_commands};
pub use part::MAX_BODY;
