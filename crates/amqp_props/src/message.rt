//! What a publisher sends.
ghost use Rattle.std.specs.Prelude.{◌≡◌, ◌↔◌, IsTrue};
ghost use Rattle.std.specs.Cmp.{partial_equiv_from_equiv};
ghost use Rattle.amqp_props.specs.Same.{same_message, message_laws};

use crate::properties::Properties;
use crate::text::Octets;
use field_tables::Text;
use std::alloc::AllocError;

/// A message (AMQP 0-9-1, basic.publish and the content that follows it).
#[derive(Debug, Drop)]
pub struct Message {
    /// The exchange that it is published to; empty for the default exchange.
    pub exchange: Text,
    /// The routing key.
    pub key: Text,
    /// Its properties.
    pub props: Properties,
    /// Its body, which clones share.
    pub body: Octets,
}

impl Clone for Message {
    ghost is_clone = { λ message copy. copy ≡ message };

    fn clone(&self) -> Result<Self, AllocError> {
        let exchange = self.exchange.clone()?;
        let key = self.key.clone()?;
        let props = self.props.clone()?;
        let body = self.body.clone()?;
        Ok(Message {
            exchange,
            key,
            props,
            body,
        })
    }
}

impl PartialEq for Message {
    ghost eq = { same_message };

    ghost laws = { partial_equiv_from_equiv message_laws };

    #[tactic(auto, unfolding(crate::specs::Same::same_message))]
    fn eq(&self, other: &Message) -> bool
        ensures tested { result ≡ same_message self.now other.now }
        ensures same { IsTrue result ↔ (self.now ≡ other.now) }
    {
        self.exchange == other.exchange
            && self.key == other.key
            && self.props == other.props
            && self.body == other.body
    }
}

impl Eq for Message {
    ghost laws = { message_laws };
}
