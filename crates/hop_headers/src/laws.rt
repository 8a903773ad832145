//! What the definitions alone say.

ghost use Rattle.hop_headers.specs.Laws.{GateDecides, StampsExchange, StampsQueue, OwnDecides, StampsKeepHeaders, StampsSpell, PropagatesOn, PropagatesFirst, PropagationKeepsArguments, PropagationSpells};

/// A gate passes exactly where there are fewer entries than its limit, and none of the place.
pub fn gates_decide()
    ensures { GateDecides }
{}

/// A stamp puts exactly one entry in front: that of an exchange link names no queue and keeps the entries that were
/// read, that of a queue link replaces just the entries of its own place and queue. Other headers stay.
pub fn stamps_name_the_place()
    ensures exchange { StampsExchange }
    ensures queue { StampsQueue }
    ensures own { OwnDecides }
    ensures others { StampsKeepHeaders }
{}

/// What `propagate` gives has one entry more, and fewer hops than the first entry had, and none of the entries that it
/// took over is of the upstream place; without an argument, or with a malformed one, it begins anew.
pub fn propagation_goes_on()
    ensures on { PropagatesOn }
    ensures first { PropagatesFirst }
    ensures others { PropagationKeepsArguments }
{}

/// What the stamps and `propagate` give of a table that has a spelling has a spelling.
pub fn results_have_spellings()
    ensures stamps { StampsSpell }
    ensures propagation { PropagationSpells }
{}
