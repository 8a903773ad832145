//! The methods of AMQP 0-9-1, read and written.
#![tactic(auto)]

mod arguments;
mod codec;
mod fault;
mod laws;
mod method;
mod rows;
mod spelling;

pub use codec::{read_method, write_method};
pub use fault::MethodFault;
pub use laws::{rows_are_methods, rows_are_once};
pub use method::Method;
pub use rows::{METHODS, Row, find};
