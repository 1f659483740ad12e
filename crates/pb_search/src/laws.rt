//! What a closed yard says of its run. The law is the contract of a function without a body.
ghost use Rattle.pb_search.specs.Laws.{ClosedYardsHaveEnded};

/// A yard that was closed at a quiet end, or at its budget's, leaves a run that began with the
/// yard's first graph and ended so. This holds wherever the run began.
pub fn closed_yards_have_ended()
    ensures { ClosedYardsHaveEnded }
{}
