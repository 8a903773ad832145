//! AMQP field tables, read and written.
#![tactic(auto)]

mod clone;
mod fault;
mod kind;
mod laws;
mod length;
mod reading;
mod same;
mod text;
mod value;
mod writing;

pub use fault::TableFault;
pub use laws::{tables_are_apart, values_are_apart};
pub use length::{is_within, table_len};
pub use reading::read_table;
pub use text::Text;
pub use value::{FieldValue, Table};
pub use writing::write_table;
