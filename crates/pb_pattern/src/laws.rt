//! The laws of this crate. Each is the contract of a function without a body.
ghost use Rattle.pb_pattern.specs.Laws.{LeastCostsAreUnique, RoundsGiveLeast, LeastCostsAreSmall, StableCostsAreLeast, ProjectionsAreAdmissible, StripsProject, TilesProject, PatternValuesAreLeast, PatternsAreAdmissible};

/// A state has one least cost.
pub fn least_costs_are_unique()
    ensures { LeastCostsAreUnique }
{}

/// What is computed by rounds is the least cost of a walk to a goal.
pub fn rounds_give_least()
    ensures { RoundsGiveLeast }
{}

/// No least cost is greater than the cost of as many dearest steps as there are states.
pub fn least_costs_are_small()
    ensures { LeastCostsAreSmall }
{}

/// Costs that are those of walks, and that no step makes cheaper, are least.
pub fn stable_costs_are_least()
    ensures { StableCostsAreLeast }
{}

/// The least cost of an image is an admissible estimate of the state, and a consistent one.
pub fn projections_are_admissible()
    ensures { ProjectionsAreAdmissible }
{}

/// Each step of STRIPS has its image at the same cost.
pub fn strips_project()
    ensures { StripsProject }
{}

/// Each slide has its image at the same cost.
pub fn tiles_project()
    ensures { TilesProject }
{}

/// The pattern value is the least cost of a walk of the projected task.
pub fn pattern_values_are_least()
    ensures { PatternValuesAreLeast }
{}

/// The pattern value is an admissible estimate, and a consistent one.
pub fn patterns_are_admissible()
    ensures { PatternsAreAdmissible }
{}
