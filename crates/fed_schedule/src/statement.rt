//! What a line states.
ghost use Rattle.std.specs.Prelude.{◌≡◌};
ghost use Rattle.fed_schedule.specs.Statements.{link_event, queue_options_of, settlement_event};

use crate::keyword::{LinkAction, Settlement};
use crate::options::has_option;
use amqp_props::{Octets, QueueOptions, Text};
use fed_journal::event::Event;
use fed_journal::place::Place;

/// What a line states: a broker of the run, or an event.
#[derive(Drop)]
pub enum Statement {
    Broker(Text),
    Event(Event),
}

/// What a link does, as an event.
pub(crate) fn link_event(action: LinkAction, link: Text) -> Event
    ensures { result ≡ link_event action link }
{
    match action {
        LinkAction::Open => Event::Open { link },
        LinkAction::Take => Event::Take { link },
        LinkAction::Send => Event::Send { link },
        LinkAction::Accept => Event::Accept { link },
        LinkAction::Confirm => Event::Confirm { link },
        LinkAction::Note => Event::Note { link },
        LinkAction::Settle => Event::Settle { link },
    }
}

/// The options of a queue that is declared.
#[tactic(auto, unfolding(crate::specs::Statements::queue_options_of))]
pub(crate) fn queue_options_of(options: &[Octets]) -> QueueOptions
    ensures { result ≡ queue_options_of options.now }
{
    QueueOptions {
        durable: has_option("durable", options),
        exclusive: has_option("exclusive", options),
        auto_delete: false,
    }
}

/// What a client does with a copy, as an event.
pub(crate) fn settlement_event(
    settlement: Settlement,
    place: Place,
    client: u16,
    copy: u64,
) -> Event
    ensures { result ≡ settlement_event settlement place client copy }
{
    match settlement {
        Settlement::Ack => Event::Ack {
            place,
            client,
            copy,
        },
        Settlement::Reject => Event::Reject {
            place,
            client,
            copy,
        },
        Settlement::Requeue => Event::Requeue {
            place,
            client,
            copy,
        },
    }
}
