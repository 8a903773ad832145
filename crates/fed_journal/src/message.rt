//! What a message's properties say of it.
ghost use Rattle.std.specs.Prelude.{◌≡◌, ◌≤◌, ◌^◌};
ghost use Rattle.fed_journal.specs.Messages.{is_persistent, properties};
ghost use Rattle.fed_journal.specs.Sizes.{IsMessage, message_bytes};

use amqp_props::{FieldTable, Message, Properties, header_len};

/// The most octets of a message's body.
pub const MAX_BODY: usize = 16_777_216;

/// Whether its delivery mode is 2 (AMQP 0-9-1, class basic: delivery-mode).
pub fn is_persistent(message: &Message) -> bool
    ensures { result ≡ is_persistent message.now }
{
    match message.props.delivery_mode {
        Some(mode) => mode == 2,
        None => false,
    }
}

/// The properties of a message that is persistent or not, with these headers and nothing else.
pub fn properties(persistent: bool, headers: Option<FieldTable>) -> Properties
    ensures { result ≡ properties persistent headers }
{
    Properties {
        content_type: None,
        content_encoding: None,
        headers,
        delivery_mode: if persistent { Some(2) } else { None },
        priority: None,
        correlation_id: None,
        reply_to: None,
        expiration: None,
        message_id: None,
        timestamp: None,
        type_name: None,
        user_id: None,
        app_id: None,
        reserved: None,
    }
}

/// How many octets the message has, its body and its content header. Takes no memory.
pub fn message_bytes(message: &Message) -> usize
    requires { IsMessage message.now }
    ensures exact { result ≡ message_bytes message.now }
    ensures most { result ≤ 2 ^ 34 }
{
    message.body.as_slice().len() + header_len(&message.props)
}
