//! What the tests by numbers mean for the choice of a block, and that leases stay out. Each law is
//! the contract of a function without a body.
ghost use Rattle.pb_lease.specs.Laws.{OpenedBlocksMayBeLeased, NoneOutCanBeLeased, LeasesStayOut, WorkedLeasesAreOut, TellsKeepMoments, NoneOutIsMoment, EventsLeaveOthers};

/// A block with an Opened row may be leased if and only if it can be, by the numbers.
pub fn opened_blocks_may_be_leased()
    ensures { OpenedBlocksMayBeLeased }
{}

/// With no lease out and no end, every block can be leased while something is left of the budget.
pub fn none_out_can_be_leased()
    ensures { NoneOutCanBeLeased }
{}

/// While events of other workers come, and these tell costs, a lease that is out stays out, and its
/// work stays done in turns.
pub fn leases_stay_out()
    ensures { LeasesStayOut }
{}

/// A lease that was worked on is out at the graph's present moment, if what it was lent with is
/// recorded for its worker.
pub fn worked_leases_are_out()
    ensures { WorkedLeasesAreOut }
{}

/// When a worker tells a cost, the graph is a moment as before.
pub fn tells_keep_moments()
    ensures { TellsKeepMoments }
{}

/// If no lease is out, a graph that has its machine's incumbent has no reported cost that is still
/// to be shown.
pub fn none_out_is_moment()
    ensures { NoneOutIsMoment }
{}

/// Events of one worker, or of nobody, are no moves of another.
pub fn events_leave_others()
    ensures { EventsLeaveOthers }
{}
