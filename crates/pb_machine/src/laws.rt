//! Laws on runs of the machine with its rows. Each is the contract of a function without a body.
ghost use Rattle.pb_machine.specs.Laws.{OpeningIsLawful, MovesKeepLawful, RunsAreLawful, JournalsAreHistories, LawfulStoresAreSound, IncumbentsArePlans, IncumbentsFall, KnownStays, OthersAreLeft, RecordedWhereLeased, CostsGrowByExpansions, CostsStaySmall, CostsFit, ScopesAreApart, NoneOutMayLease, QuietEndsAreBest, ReopeningIsLawful, LeaseWorkGoesOn, LeaseWorkStays, WaitingReportsAreOne, LeaseWorkStands, TurnsCarryOver, OrderedRunsAreRuns, ReturnsLeaveIncumbents, LeasingKeepsWhole, RenewingKeepsWhole, ReleasingKeepsWhole, OthersKeepWhole, AllIsHome, RecordedRowsAreLent, BudgetEndsAreSpent, NoneOutIsShown, NoneOutUntold, ReturnsShowWork, LeaseTurnsGoOn, LeaseCostsStaySmall, LeaseCostsFit, RunsGoOn};

/// The machine is lawful when it opens.
pub fn opening_is_lawful()
    ensures { OpeningIsLawful }
{}

/// Every event, every reported cost and every switch keeps the machine lawful.
pub fn moves_keep_lawful()
    ensures { MovesKeepLawful }
{}

/// The machine is lawful after any moves from a lawful one.
pub fn runs_are_lawful()
    ensures { RunsAreLawful }
{}

/// The events of a run with settings in range are a legal history, which leads to the machine's
/// counts.
pub fn journals_are_histories()
    ensures { JournalsAreHistories }
{}

/// The whole store of a lawful machine is sound.
pub fn lawful_stores_are_sound()
    ensures { LawfulStoresAreSound }
{}

/// The incumbent, if it is known, is at least the cost of some plan.
pub fn incumbents_are_plans()
    ensures { IncumbentsArePlans }
{}

/// The incumbent never rises.
pub fn incumbents_fall()
    ensures { IncumbentsFall }
{}

/// A worker may have read later whatever it may have read before as the incumbent.
pub fn known_stays()
    ensures { KnownStays }
{}

/// Moves of others leave these as before: a worker's lease, the incumbent that it was given, and
/// the cost that it reported.
pub fn others_are_left()
    ensures { OthersAreLeft }
{}

/// No g exceeds the greatest cost of an action times the number of expansions so far.
pub fn costs_grow_by_expansions()
    ensures { CostsGrowByExpansions }
{}

/// No g exceeds what the budget and a broken expansion for each worker allow.
pub fn costs_stay_small()
    ensures { CostsStaySmall }
{}

/// No g needs more than 61 bits if the settings are in range and no action costs more than 2^20.
pub fn costs_fit()
    ensures { CostsFit }
{}

/// No g of a lease that keeps to its quota exceeds what the budget and a broken expansion for each
/// worker allow. The lease itself may have a broken expansion.
pub fn lease_costs_stay_small()
    ensures { LeaseCostsStaySmall }
{}

/// No g of such a lease needs more than 61 bits, if the settings are in range and no action costs
/// more than 2^20.
pub fn lease_costs_fit()
    ensures { LeaseCostsFit }
{}

/// No block is in the scopes of two leases.
pub fn scopes_are_apart()
    ensures { ScopesAreApart }
{}

/// If no lease is out before the end, each block with an Opened row may be leased while something
/// is left of the budget.
pub fn none_out_may_lease()
    ensures { NoneOutMayLease }
{}

/// At a quiet end the incumbent is backed by a plan, and no plan costs less than the incumbent
/// divided by the weight. Without an incumbent there is no plan.
pub fn quiet_ends_are_best()
    ensures { QuietEndsAreBest }
{}

/// A machine at a quiet end is lawful when it is opened again with another weight.
pub fn reopening_is_lawful()
    ensures { ReopeningIsLawful }
{}

/// An out-of-memory report that waits for its end was made by exactly one worker. No other worker
/// has signed off or released its lease with a report.
pub fn waiting_reports_are_one()
    ensures { WaitingReportsAreOne }
{}

/// Work of a lease may go on after other work of the lease, unless an expansion was broken off.
pub fn lease_work_goes_on()
    ensures { LeaseWorkGoesOn }
{}

/// Work of a lease stays such work if more incumbents are known and more expansions may have been
/// broken off.
pub fn lease_work_stays()
    ensures { LeaseWorkStays }
{}

/// Turns of a lease may go on after other turns of the lease.
pub fn lease_turns_go_on()
    ensures { LeaseTurnsGoOn }
{}

/// What a lease has done may be done in the whole store of now.
pub fn lease_work_stands()
    ensures { LeaseWorkStands }
{}

/// What a lease did in turns is on the first Opened row of its block in the whole store as well.
pub fn turns_carry_over()
    ensures { TurnsCarryOver }
{}

/// A run in order is a run.
pub fn ordered_runs_are_runs()
    ensures { OrderedRunsAreRuns }
{}

/// Moves may go on after other moves, in order if both are in order. The events of all together are
/// those of the first and then those of the later ones; a switch has two.
pub fn runs_go_on()
    ensures { RunsGoOn }
{}

/// A lease that brings back no lower incumbent leaves the whole store's incumbent as before.
pub fn returns_leave_incumbents()
    ensures { ReturnsLeaveIncumbents }
{}

/// A lease takes the rows of its scope from home, and none of them stays there; the whole store is
/// the same.
pub fn leasing_keeps_whole()
    ensures { LeasingKeepsWhole }
{}

/// A renewal records the rows that the lease has now, and the whole store takes them.
pub fn renewing_keeps_whole()
    ensures { RenewingKeepsWhole }
{}

/// A release brings the rows that the lease has home, and the whole store takes them.
pub fn releasing_keeps_whole()
    ensures { ReleasingKeepsWhole }
{}

/// A step that changes no lease and no row leaves each row in its place.
pub fn others_keep_whole()
    ensures { OthersKeepWhole }
{}

/// Rows that are recorded for a worker without a lease don't matter.
pub fn recorded_where_leased()
    ensures { RecordedWhereLeased }
{}

/// If no lease is out, the rows at home are those of the whole store.
pub fn all_is_home()
    ensures { AllIsHome }
{}

/// The rows that are recorded for a lease are those that it was given or last renewed with.
pub fn recorded_rows_are_lent()
    ensures { RecordedRowsAreLent }
{}

/// At the budget's end exactly as many expansions as the budget allows were made, and an Opened row
/// is left.
pub fn budget_ends_are_spent()
    ensures { BudgetEndsAreSpent }
{}

/// If no lease is out, the incumbent is shown by a goal's row.
pub fn none_out_is_shown()
    ensures { NoneOutIsShown }
{}

/// If no lease is out, no worker has reported a cost that is still to be shown.
pub fn none_out_untold()
    ensures { NoneOutUntold }
{}

/// A lease that made an expansion never brings back the rows that were there before.
pub fn returns_show_work()
    ensures { ReturnsShowWork }
{}
