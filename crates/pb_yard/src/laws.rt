//! What the rule of a yard means. Each law is the contract of a function without a body.
ghost use Rattle.pb_yard.specs.Laws.{YardsAreLawful, LentLeasesAreOut, ViewsBeginTheHistory, LentLeasesMayComeBack, EndsAreSeen, ActiveStay, SigningOffIsSeen, RunsInTimeAreInOrder, OtherEndsHaveNoReport};

/// The moment is lawful, and the journal is a legal history. No block is in the scopes of two
/// leases that are out, and no two hot blocks interfere.
pub fn yards_are_lawful()
    ensures { YardsAreLawful }
{}

/// At every moment the lease machine has each lease that is out as it was given or last renewed.
pub fn lent_leases_are_out()
    ensures { LentLeasesAreOut }
{}

/// What a pass has seen begins the journal at every moment, and its own events are all that its
/// worker has in it.
pub fn views_begin_the_history()
    ensures { ViewsBeginTheHistory }
{}

/// A lease may come back as it was lent.
pub fn lent_leases_may_come_back()
    ensures { LentLeasesMayComeBack }
{}

/// If a pass was answered that the search is over, it has seen the end.
pub fn ends_are_seen()
    ensures { EndsAreSeen }
{}

/// If a call adds no sign-off, a worker that hasn't signed off before it hasn't after it.
pub fn active_stay()
    ensures { ActiveStay }
{}

/// After its own sign-off a worker has signed off.
pub fn signing_off_is_seen()
    ensures { SigningOffIsSeen }
{}

/// A run in order and in time is one in order, and so a run of the lease machine.
pub fn runs_in_time_are_in_order()
    ensures { RunsInTimeAreInOrder }
{}

/// If a run in order and in time doesn't end by running out of memory, none of its events reports
/// that.
pub fn other_ends_have_no_report()
    ensures { OtherEndsHaveNoReport }
{}
