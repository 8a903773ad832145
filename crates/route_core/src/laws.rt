//! What the definitions alone say.

ghost use Rattle.route_core.specs.Laws.{MatchesDecides, RoundsAreWalks, ReachedDecides, RoutedAreReached};

/// The routes as a function are the walks: the test of a binding is true exactly where it matches; after as many rounds
/// as there are bindings exactly that is reached to which some walk leads; the test of a queue's name is true exactly
/// where the message reaches it; and a message is routed to exactly the queues that stand and that it reaches.
pub fn rounds_are_walks()
    ensures matches { MatchesDecides }
    ensures walks { RoundsAreWalks }
    ensures reached { ReachedDecides }
    ensures routed { RoutedAreReached }
{}
