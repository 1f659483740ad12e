//! The lease machine of a parallel best-first search by blocks: who has leased which block, what is
//! left of the budget, which blocks are hot, and when the search ends. It is that of Parallel
//! Best-NBlock-First search in its safe form, from Burns, Lemons, Ruml and Zhou, "Best-First
//! Heuristic Search for Multicore Machines" (Journal of Artificial Intelligence Research 39, 2010).
//! It rests on structured duplicate detection, from Zhou and Hansen, "Structured Duplicate
//! Detection in External-Memory Graph Search" (2004).
//!
//! The definitions are in `specs`. Each law is the contract of a function without a body, whose
//! name says it.
#![tactic(auto)]

mod event;
mod journal_laws;
mod laws;
mod settings;

pub use event::{End, Event, EventRefusal, Grant};
pub use journal_laws::{
    all_off_none_out, beginnings_are_histories, busy_is_counted, choices_outlive_releases,
    chosen_leases_are_legal, chosen_renewals_are_legal, counters_begin_at_none, counters_fit,
    ends_are_legal, ends_are_told, ends_stand, events_change_busy, events_change_hot,
    finished_workers_sign_off, first_choices_are_unique, first_views_are_true,
    histories_are_lawful, histories_grow, histories_have_any_weight, holding_keeps_views,
    hot_is_counted, interference_is_mutual, journals_are_short, last_views_sign_off,
    last_views_tell_all, leased_are_never_hot, leases_are_of_workers, leases_take_their_room,
    marks_are_legal, marks_change_hot, meeting_keeps_views, memory_ends_are_reported,
    none_out_none_hot, refusals_are_first, refused_journals_fail, releases_are_legal,
    releases_cool_near, reports_end_searches, rivals_are_unique, room_goes_on, sign_offs_are_legal,
    signed_off_is_finished, signing_off_is_told, spent_is_used, splitting_keeps_views,
    used_fits_budget, worked_journals_are_legal, worked_journals_are_refused,
};
pub use laws::{
    all_is_home, budget_ends_are_spent, costs_fit, costs_grow_by_expansions, costs_stay_small,
    incumbents_are_plans, incumbents_fall, journals_are_histories, known_stays,
    lawful_stores_are_sound, lease_costs_fit, lease_costs_stay_small, lease_turns_go_on,
    lease_work_goes_on, lease_work_stands, lease_work_stays, leasing_keeps_whole,
    moves_keep_lawful, none_out_is_shown, none_out_may_lease, none_out_untold, opening_is_lawful,
    ordered_runs_are_runs, others_are_left, others_keep_whole, quiet_ends_are_best,
    recorded_rows_are_lent, recorded_where_leased, releasing_keeps_whole, renewing_keeps_whole,
    reopening_is_lawful, returns_leave_incumbents, returns_show_work, runs_are_lawful, runs_go_on,
    scopes_are_apart, turns_carry_over, waiting_reports_are_one,
};
pub use settings::{STANDARD, Settings};
