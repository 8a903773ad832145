//! The properties of a message and its content header, messages, and the descriptions of links.
#![tactic(auto)]

mod fault;
mod laws;
mod length;
mod link;
mod message;
mod properties;
mod reading;
mod row;
mod text;
mod writing;

pub use fault::PropsFault;
pub use field_tables::Text;
pub use laws::headers_are_one;
pub use length::header_len;
pub use link::{
    AckMode, DeleteAfter, ExchangeKind, LinkKind, LinkSpec, Place, QueueOptions, SourceAt,
    StartState, TargetAt,
};
pub use message::Message;
pub use properties::Properties;
pub use reading::read_header;
pub use row::{PROPERTIES, PropertyKind, Row, property};
pub use text::{FieldTable, Octets};
pub use writing::write_header;
