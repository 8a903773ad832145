//! Nothing takes a stored message out of its queue, and a link removes only what its target secured.

ghost use Rattle.std.specs.Prelude.{List, ℕ};
ghost use Rattle.fed_journal.specs.declared.event.Event.{Event};
ghost use Rattle.fed_world.specs.Run.{begin, run};
ghost use Rattle.fed_world.specs.Kept.{IsKept, EachMoment, KeepsStored};

/// In every run each event that isn't a removal leaves every copy that is alive and stored so
/// (RabbitMQ, Queues: durability).
pub fn kept_stored()
    ensures { (brokers : List (List ℕ)) (events : List (ℕ × Event)) → EachMoment KeepsStored (begin brokers) (run (begin brokers) events) }
{}

/// Every run is kept. Stored copies stay, as above. Before a link's source removes a copy, the
/// session took it, sent it on, the target published it, had it secured and confirmed it, and the
/// link acknowledged it, in this order; and the copy is then in its queue and held by that session.
/// What a session took it holds until it is removed, and each stage follows the one before it
/// (RabbitMQ, Shovel: ack-mode on-confirm).
pub fn kept()
    ensures { (brokers : List (List ℕ)) (events : List (ℕ × Event)) → IsKept (begin brokers) (run (begin brokers) events) }
{}
