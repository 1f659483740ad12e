//! The rule that ties the graph to what the passes know.
use crate::view::View;
use pb_lease::{LeaseGraph, LeaseReply, Renewed, SwitchReply};
use pb_turn::{Leaving, TurnRule};

/// The rule of the yard: the graph is a lawful moment of the lease machine. The views of all passes
/// are true of its journal and of the leases that are out.
pub struct YardRule;

impl TurnRule for YardRule {
    ghost use Rattle.pb_yard.specs.Views.{cost_of, view_read, view_told, opening_view, split_view, next_pass_view, met_pass_view, spent_pass_view};
    ghost use Rattle.pb_yard.specs.Rule.{IsYard};

    type State = LeaseGraph;

    type View = View;

    ghost fact = { λ g number views. IsYard g (cost_of number) views };

    ghost first = { opening_view };

    ghost kept = { split_view };

    ghost given = { next_pass_view };

    ghost met = { met_pass_view };

    ghost spent = { spent_pass_view };

    ghost loaded = { λ held v number. view_read held v (cost_of number) };

    ghost lowered = { view_told };
}

/// Leaving after a lease was asked for.
pub(crate) struct AfterLease;

impl Leaving<YardRule> for AfterLease {
    ghost use Rattle.pb_yard.specs.Views.{view_left};
    ghost use Rattle.pb_yard.specs.Replies.{lent_by, told_by};

    type Said = LeaseReply;

    ghost after = { λ reply x y v. view_left x y (lent_by reply v.lent) (told_by reply v.told) v };
}

/// Leaving after a renewal was asked for.
pub(crate) struct AfterRenewal;

impl Leaving<YardRule> for AfterRenewal {
    ghost use Rattle.std.specs.Prelude.{None};
    ghost use Rattle.pb_yard.specs.Views.{view_left};
    ghost use Rattle.pb_yard.specs.Replies.{kept_by};

    type Said = Renewed;

    ghost after = { λ reply x y v. view_left x y (kept_by reply) None v };
}

/// Leaving after a worker asked to go on with its lease, or with another block.
pub(crate) struct AfterSwitch;

impl Leaving<YardRule> for AfterSwitch {
    ghost use Rattle.std.specs.Prelude.{None};
    ghost use Rattle.pb_yard.specs.Views.{view_left};
    ghost use Rattle.pb_yard.specs.Replies.{switched_by};

    type Said = SwitchReply;

    ghost after = { λ reply x y v. view_left x y (switched_by reply) None v };
}

/// Leaving after a lease came back.
pub(crate) struct AfterRelease;

impl Leaving<YardRule> for AfterRelease {
    ghost use Rattle.std.specs.Prelude.{None};
    ghost use Rattle.pb_yard.specs.Views.{view_left};

    type Said = ();

    ghost after = { λ _ x y v. view_left x y None None v };
}

/// Leaving after the pass's worker left the order.
pub(crate) struct AfterLeavingOrder;

impl Leaving<YardRule> for AfterLeavingOrder {
    ghost use Rattle.pb_yard.specs.Views.{view_leaving_order};

    type Said = ();

    ghost after = { λ _ x y v. view_leaving_order v };
}

/// Leaving after anything else: the pass has the lease that it had.
pub(crate) struct AfterLook;

impl Leaving<YardRule> for AfterLook {
    ghost use Rattle.pb_yard.specs.Views.{view_left};

    type Said = ();

    ghost after = { λ _ x y v. view_left x y v.lent v.told v };
}
