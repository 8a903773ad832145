//! The properties of a message.
ghost use Rattle.std.specs.Prelude.{◌≡◌, ◌↔◌, IsTrue};
ghost use Rattle.std.specs.Cmp.{partial_equiv_from_equiv};
ghost use Rattle.amqp_props.specs.Same.{same_number, same_properties, properties_laws};

use crate::text::{FieldTable, copy_table, copy_text, same_table, same_text};
use field_tables::Text;
use std::alloc::AllocError;

/// The properties of a message, each of which may be absent (AMQP 0-9-1, class basic).
#[derive(Debug, Drop)]
pub struct Properties {
    /// MIME content type.
    pub content_type: Option<Text>,
    /// MIME content encoding.
    pub content_encoding: Option<Text>,
    /// Message headers.
    pub headers: Option<FieldTable>,
    /// 1 non-persistent, 2 persistent.
    pub delivery_mode: Option<u8>,
    /// Message priority.
    pub priority: Option<u8>,
    /// Application correlation identifier.
    pub correlation_id: Option<Text>,
    /// Address to reply to.
    pub reply_to: Option<Text>,
    /// Message expiration.
    pub expiration: Option<Text>,
    /// Application message identifier.
    pub message_id: Option<Text>,
    /// Message timestamp, in seconds since 1970.
    pub timestamp: Option<u64>,
    /// Message type name.
    pub type_name: Option<Text>,
    /// Creating user.
    pub user_id: Option<Text>,
    /// Creating application.
    pub app_id: Option<Text>,
    /// Reserved, must be empty.
    pub reserved: Option<Text>,
}

impl Clone for Properties {
    ghost is_clone = { λ props copy. copy ≡ props };

    fn clone(&self) -> Result<Self, AllocError> {
        Ok(Properties {
            content_type: copy_text(&self.content_type)?,
            content_encoding: copy_text(&self.content_encoding)?,
            headers: copy_table(&self.headers)?,
            delivery_mode: self.delivery_mode,
            priority: self.priority,
            correlation_id: copy_text(&self.correlation_id)?,
            reply_to: copy_text(&self.reply_to)?,
            expiration: copy_text(&self.expiration)?,
            message_id: copy_text(&self.message_id)?,
            timestamp: self.timestamp,
            type_name: copy_text(&self.type_name)?,
            user_id: copy_text(&self.user_id)?,
            app_id: copy_text(&self.app_id)?,
            reserved: copy_text(&self.reserved)?,
        })
    }
}

/// Whether each property is absent in both, or has one value in both.
#[tactic(auto, unfolding(crate::specs::Same::same_properties))]
fn are_same(one: &Properties, other: &Properties) -> bool
    ensures { result ≡ same_properties one.now other.now }
{
    same_text(&one.content_type, &other.content_type)
        && same_text(&one.content_encoding, &other.content_encoding)
        && same_table(&one.headers, &other.headers)
        && one.delivery_mode == other.delivery_mode
        && one.priority == other.priority
        && same_text(&one.correlation_id, &other.correlation_id)
        && same_text(&one.reply_to, &other.reply_to)
        && same_text(&one.expiration, &other.expiration)
        && same_text(&one.message_id, &other.message_id)
        && one.timestamp == other.timestamp
        && same_text(&one.type_name, &other.type_name)
        && same_text(&one.user_id, &other.user_id)
        && same_text(&one.app_id, &other.app_id)
        && same_text(&one.reserved, &other.reserved)
}

impl PartialEq for Properties {
    ghost eq = { same_properties };

    ghost laws = { partial_equiv_from_equiv properties_laws };

    fn eq(&self, other: &Properties) -> bool
        ensures tested { result ≡ same_properties self.now other.now }
        ensures same { IsTrue result ↔ (self.now ≡ other.now) }
    {
        are_same(self, other)
    }
}

impl Eq for Properties {
    ghost laws = { properties_laws };
}
