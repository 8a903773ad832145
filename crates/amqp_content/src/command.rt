//! Whole commands.

use amqp_methods::Method;
use amqp_props::Properties;

/// A method that came on a channel, with the content that belongs to it (AMQP 0-9-1, section 4.2.1).
#[derive(Drop)]
pub struct Command {
    /// The channel number; 0 for the connection as a whole.
    pub channel: u16,
    /// The method with its arguments.
    pub method: Method,
    /// Properties and body; `None` for a method without content.
    pub content: Option<(Properties, Vec<u8>)>,
}
