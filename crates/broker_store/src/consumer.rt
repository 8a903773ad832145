//! Who consumes, and who holds.

ghost use Rattle.std.specs.Prelude.{◌≡◌, find};
ghost use Rattle.std.specs.Option.{option_copied};
ghost use Rattle.broker_store.specs.Consumers.{is_consumer as is_this_consumer};

use amqp_props::Text;
use client_rules::Client;
use queue_core::Holder;

/// A consumer of a client (AMQP 0-9-1, basic.consume).
#[derive(Drop)]
pub struct Consumer {
    /// The client.
    pub client: Client,
    /// Its tag.
    pub tag: Text,
    /// The queue that it consumes from.
    pub queue: Text,
    /// Whether its copies leave as they are delivered.
    pub no_ack: bool,
    /// How many copies it may hold; 0 is no limit.
    pub prefetch: u16,
    /// As whom it holds copies.
    pub holder: Holder,
}

/// Whether it is the client's consumer of that tag.
pub fn is_consumer(consumer: &Consumer, who: Client, tag: &str) -> bool
    ensures { result ≡ is_this_consumer who tag.now consumer.now }
{
    consumer.client == who && consumer.tag.as_str() == tag
}

/// The client's consumer of that tag.
pub fn find_consumer<'a>(consumers: &'a [Consumer], who: Client, tag: &str) -> Option<&'a Consumer>
    ensures { option_copied result ≡ find (is_this_consumer who tag.now) consumers.now }
{
    consumers
        .iter()
        .find(|consumer| is_consumer(consumer, who, tag))
}
