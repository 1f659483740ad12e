//! Laws on work, incumbents, plans, certificates and first rows. Each is the contract of a
//! function without a body.
ghost use Rattle.pb_model.specs.Laws.{FirstRowsAreUnique, FirstRowsAreBest, StepsAreSuccessors, WorkKeepsSound, CostsNeverRise, WeightsStay, IncumbentsAreBacked, WorkIsLocal, WorkInOnePart, BestKeysAreUnique, RowsAreTraced, TracesAreWalks, WalksAreDetermined, QuietIncumbentsHold, IncumbentsAreShown, IncumbentsNeverRise, WorkGoesOn, CostsGrowByWork, WorkByRows, GoalsArePlans, BoundsHold, QuietIsBest, ValidCertificatesHold, QuietStoresCertify};

/// The list of a state's successors has the steps from it and no others.
pub fn steps_are_successors()
    ensures { StepsAreSuccessors }
{}

/// Whatever work leads from the opening store leaves a sound one with bounded costs.
pub fn work_keeps_sound()
    ensures { WorkKeepsSound }
{}

/// A state that has a row keeps one, and its g never rises.
pub fn costs_never_rise()
    ensures { CostsNeverRise }
{}

/// Work without a reopening leaves the weight as it is.
pub fn weights_stay()
    ensures { WeightsStay }
{}

/// An incumbent is at least the g of a goal's row, or another search reported it, or it was known
/// before.
pub fn incumbents_are_backed()
    ensures { IncumbentsAreBacked }
{}

/// Work within a scope is the same work in every store that has the same rows there.
pub fn work_is_local()
    ensures { WorkIsLocal }
{}

/// In a store of one part, work is known by what it does to the rows of that part.
pub fn work_in_one_part()
    ensures { WorkInOnePart }
{}

/// A part of the store has one best key at most.
pub fn best_keys_are_unique()
    ensures { BestKeysAreUnique }
{}

/// In a sound store each row's state is traced back to the start.
pub fn rows_are_traced()
    ensures { RowsAreTraced }
{}

/// The reverse of a trace back from a row in a sound store is a walk from the start. Its cost is at
/// most the row's g.
pub fn traces_are_walks()
    ensures { TracesAreWalks }
{}

/// The actions of a walk and where it begins determine where it leads, and its cost.
pub fn walks_are_determined()
    ensures { WalksAreDetermined }
{}

/// A goal's row in a sound store shows a plan that costs at most its g.
pub fn goals_are_plans()
    ensures { GoalsArePlans }
{}

/// Each plan costs at least the bound of a cost that no plan undercuts.
pub fn bounds_hold()
    ensures { BoundsHold }
{}

/// In a sound store in which no row is Opened, no plan costs less than the incumbent divided by the
/// weight.
pub fn quiet_is_best()
    ensures { QuietIsBest }
{}

/// A valid certificate shows what it claims.
pub fn valid_certificates_hold()
    ensures { ValidCertificatesHold }
{}

/// A sound store in which no row is Opened makes a valid certificate.
pub fn quiet_stores_certify()
    ensures { QuietStoresCertify }
{}

/// A part of the store has one first row at most.
pub fn first_rows_are_unique()
    ensures { FirstRowsAreUnique }
{}

/// The first row of a part of the store has its best key.
pub fn first_rows_are_best()
    ensures { FirstRowsAreBest }
{}

/// In a quiet, sound store whose incumbent is shown, the incumbent bounds the costs of the cheapest
/// plans.
pub fn quiet_incumbents_hold()
    ensures { QuietIncumbentsHold }
{}

/// The incumbent of a search that was never given a cost is shown by a goal's row.
pub fn incumbents_are_shown()
    ensures { IncumbentsAreShown }
{}

/// Incumbents never rise.
pub fn incumbents_never_rise()
    ensures { IncumbentsNeverRise }
{}

/// Work can go on after other work, and both together are work whose counts add up.
pub fn work_goes_on()
    ensures { WorkGoesOn }
{}

/// From any store, no g grows by more than the greatest cost of an action with each expansion.
pub fn costs_grow_by_work()
    ensures { CostsGrowByWork }
{}

/// Work is known by what it does to each row.
pub fn work_by_rows()
    ensures { WorkByRows }
{}
