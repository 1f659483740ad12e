//! Laws on journals: the events of a search, without its rows. Each is the contract of a function
//! without a body.
ghost use Rattle.pb_machine.specs.JournalLaws.{JournalsAreShort, LeasesTakeTheirRoom, RoomGoesOn, HistoriesAreLawful, HistoriesGrow, BeginningsAreHistories, SigningOffIsTold, FinishedWorkersSignOff, RefusalsAreFirst, RefusedJournalsFail, NoneOutNoneHot, InterferenceIsMutual, BusyIsCounted, HotIsCounted, CountersFit, EventsChangeBusy, EventsChangeHot, MarksChangeHot, FirstChoicesAreUnique, RivalsAreUnique, ChosenLeasesAreLegal, ChosenRenewalsAreLegal, FirstViewsAreTrue, HoldingKeepsViews, SplittingKeepsViews, MeetingKeepsViews, LastViewsTellAll, WorkedJournalsAreLegal, WorkedJournalsAreRefused, LeasesAreOfWorkers, ReleasesAreLegal, MarksAreLegal, SignOffsAreLegal, EndsAreLegal, MemoryEndsAreReported, ReportsEndSearches, SignedOffIsFinished, LastViewsSignOff, CountersBeginAtNone, LeasedAreNeverHot, SpentIsUsed, UsedFitsBudget, EndsAreTold, EndsStand, AllOffNoneOut, HistoriesHaveAnyWeight, ChoicesOutliveReleases, ReleasesCoolNear};

/// A legal history leads to counts that are lawful.
pub fn histories_are_lawful()
    ensures { HistoriesAreLawful }
{}

/// A legal history stays one with an event that is not refused.
pub fn histories_grow()
    ensures { HistoriesGrow }
{}

/// A longer legal history begins with a legal one.
pub fn beginnings_are_histories()
    ensures { BeginningsAreHistories }
{}

/// The expansions spent after a legal history are those spent before it, and the used numbers of
/// its events.
pub fn spent_is_used()
    ensures { SpentIsUsed }
{}

/// The used numbers of a legal history and what was spent before together never exceed the budget;
/// at the budget's end they are all of it.
pub fn used_fits_budget()
    ensures { UsedFitsBudget }
{}

/// A worker has signed off if and only if one of its own events says so.
pub fn signing_off_is_told()
    ensures { SigningOffIsTold }
{}

/// In a finished history every worker's own events have its signing off.
pub fn finished_workers_sign_off()
    ensures { FinishedWorkersSignOff }
{}

/// After a legal history the end of the search is the one that its journal has.
pub fn ends_are_told()
    ensures { EndsAreTold }
{}

/// The end that a journal has stays so while the journal grows.
pub fn ends_stand()
    ensures { EndsStand }
{}

/// If every worker has signed off, no lease is out.
pub fn all_off_none_out()
    ensures { AllOffNoneOut }
{}

/// A legal history is one under any weight.
pub fn histories_have_any_weight()
    ensures { HistoriesHaveAnyWeight }
{}

/// A journal is judged event by event: the given reason is that of the first event that may not
/// come.
pub fn refusals_are_first()
    ensures { RefusalsAreFirst }
{}

/// A journal with an event that may not come is no legal history.
pub fn refused_journals_fail()
    ensures { RefusedJournalsFail }
{}

/// If no lease is out, no block is hot.
pub fn none_out_none_hot()
    ensures { NoneOutNoneHot }
{}

/// A leased block is never hot.
pub fn leased_are_never_hot()
    ensures { LeasedAreNeverHot }
{}

/// A block is in the interference of those that are in its own.
pub fn interference_is_mutual()
    ensures { InterferenceIsMutual }
{}

/// A block is busy if and only if the number of leased blocks in its interference is not 0.
pub fn busy_is_counted()
    ensures { BusyIsCounted }
{}

/// A hot block interferes if and only if the number of hot blocks in the interference is not 0.
pub fn hot_is_counted()
    ensures { HotIsCounted }
{}

/// The numbers of leased and of hot blocks in an interference are at most those of the workers and
/// of the blocks.
pub fn counters_fit()
    ensures { CountersFit }
{}

/// If no lease is out, the number of leased blocks in an interference is 0. If no block is hot,
/// that of the hot ones is 0.
pub fn counters_begin_at_none()
    ensures { CountersBeginAtNone }
{}

/// How each event changes the number of leased blocks in an interference.
pub fn events_change_busy()
    ensures { EventsChangeBusy }
{}

/// How each event changes the number of hot blocks in an interference.
pub fn events_change_hot()
    ensures { EventsChangeHot }
{}

/// One mark changes the numbers of hot blocks in the interference of its block by one.
pub fn marks_change_hot()
    ensures { MarksChangeHot }
{}

/// A mark that a release takes away is in the interference of the released block.
pub fn releases_cool_near()
    ensures { ReleasesCoolNear }
{}

/// There is one first choice at most.
pub fn first_choices_are_unique()
    ensures { FirstChoicesAreUnique }
{}

/// There is one rival at most.
pub fn rivals_are_unique()
    ensures { RivalsAreUnique }
{}

/// A block that may be leased may be leased with a lot, or with all that is left.
pub fn chosen_leases_are_legal()
    ensures { ChosenLeasesAreLegal }
{}

/// A lease may be renewed if, with it home, its block may be leased.
pub fn chosen_renewals_are_legal()
    ensures { ChosenRenewalsAreLegal }
{}

/// A block that may be leased with a lease home may be leased after that lease's release.
pub fn choices_outlive_releases()
    ensures { ChoicesOutliveReleases }
{}

/// The view of the first pass is true of a journal without events.
pub fn first_views_are_true()
    ensures { FirstViewsAreTrue }
{}

/// All views stay true when a pass adds events of its own worker to the journal.
pub fn holding_keeps_views()
    ensures { HoldingKeepsViews }
{}

/// All views stay true when a pass is split from the first one.
pub fn splitting_keeps_views()
    ensures { SplittingKeepsViews }
{}

/// All views stay true when a pass takes in another.
pub fn meeting_keeps_views()
    ensures { MeetingKeepsViews }
{}

/// A view has all events of its worker; the last one has seen the whole journal, and has those of
/// every worker.
pub fn last_views_tell_all()
    ensures { LastViewsTellAll }
{}

/// The worked journals of searches over nine cells and along a corridor are finished legal
/// histories, with their ends.
pub fn worked_journals_are_legal()
    ensures { WorkedJournalsAreLegal }
{}

/// Journals that differ from the worked ones in a few places are refused there, for each reason
/// that an event can have.
pub fn worked_journals_are_refused()
    ensures { WorkedJournalsAreRefused }
{}

/// Only a worker that hasn't signed off has a lease.
pub fn leases_are_of_workers()
    ensures { LeasesAreOfWorkers }
{}

/// A worker that has a lease may bring it back, with no more expansions than its quota.
pub fn releases_are_legal()
    ensures { ReleasesAreLegal }
{}

/// Before the end, a worker that has a lease may mark a busy block hot that isn't hot yet, unless
/// blocks are never marked. The worker may also take a mark away.
pub fn marks_are_legal()
    ensures { MarksAreLegal }
{}

/// A worker without a lease may sign off at an end, or with an out-of-memory report.
pub fn sign_offs_are_legal()
    ensures { SignOffsAreLegal }
{}

/// If no lease is out, the search may end quietly, and by its budget if nothing is left of it.
/// After an out-of-memory report it may end by that report.
pub fn ends_are_legal()
    ensures { EndsAreLegal }
{}

/// In a legal history the event directly before an end by running out of memory reports it. A
/// report that waits for its end is the last event.
pub fn memory_ends_are_reported()
    ensures { MemoryEndsAreReported }
{}

/// In a legal history an out-of-memory report before the end is followed by the end that it causes,
/// or is the last event.
pub fn reports_end_searches()
    ensures { ReportsEndSearches }
{}

/// A legal history in which every worker has signed off, and in which no report waits for its end,
/// is finished.
pub fn signed_off_is_finished()
    ensures { SignedOffIsFinished }
{}

/// A legal history that keeps within the room of its leases has at most 65 events a lease, one
/// sign-off a worker, and one end.
pub fn journals_are_short()
    ensures { JournalsAreShort }
{}

/// If a journal keeps within room, a worker renews and marks at most 63 times between two of its
/// leases.
pub fn leases_take_their_room()
    ensures { LeasesTakeTheirRoom }
{}

/// A longer journal keeps within room if and only if its first part does, and the rest has the room
/// that this part leaves.
pub fn room_goes_on()
    ensures { RoomGoesOn }
{}

/// Let one pass be left, and its view count as many passes as there are workers. If all workers
/// that it knows of have signed off, each worker has.
pub fn last_views_sign_off()
    ensures { LastViewsSignOff }
{}
