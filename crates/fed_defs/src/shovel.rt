//! Shovels.
ghost use Rattle.std.specs.Prelude.{◌≡◌, None};
ghost use Rattle.fed_defs.specs.Properties.{no_props};

use crate::uris::Uris;
use amqp_props::{AckMode, DeleteAfter, Properties, SourceAt, TargetAt};

/// A shovel (RabbitMQ, the parameter `shovel`).
#[derive(Debug, Drop)]
pub struct ShovelDef {
    /// `src-uri`: where it takes from.
    pub sources: Uris,
    /// `dest-uri`: where it publishes.
    pub targets: Uris,
    /// `src-queue`, or `src-exchange` and `src-exchange-key`.
    pub source_at: SourceAt,
    /// `dest-queue`, `dest-exchange` and `dest-exchange-key`, or none of them.
    pub target_at: TargetAt,
    /// `ack-mode`.
    pub mode: AckMode,
    /// `src-prefetch-count`; 0 is no limit.
    pub prefetch: u16,
    /// `reconnect-delay`.
    pub delay: u64,
    /// `src-delete-after`.
    pub delete_after: DeleteAfter,
    /// `dest-add-forward-headers`.
    pub stamp: bool,
    /// `dest-publish-properties`.
    pub props: Properties,
}

/// No properties.
pub fn no_props() -> Properties
    ensures { result ≡ no_props }
{
    Properties {
        content_type: None,
        content_encoding: None,
        headers: None,
        delivery_mode: None,
        priority: None,
        correlation_id: None,
        reply_to: None,
        expiration: None,
        message_id: None,
        timestamp: None,
        type_name: None,
        user_id: None,
        app_id: None,
        reserved: None,
    }
}
