//! An owner's part in a round.
ghost use Rattle.std.specs.Prelude.{◌≡◌};
ghost use Rattle.pb_owner.specs.Working.{broken_at};
ghost use Rattle.pb_owners.specs.Plans.{IsPlan};
ghost use Rattle.pb_owners.specs.Rounds.{one_if, IsPostOf, IsReady, HasBegun, HasLeft, HasTaken};

use crate::seat::Seat;
use pb_mail::{LetterRule, Post};
use pb_outside::Gate;
use pb_owner::{Plan, Round, WorkEnd, take_in, work};
use std::sync::Wait;

// Whether memory ran out.
fn is_memory(end: WorkEnd) -> bool
    ensures { broken_at end ≡ one_if result }
{
    match end {
        WorkEnd::Spent => false,
        WorkEnd::Empty => false,
        WorkEnd::Memory => true,
    }
}

/// The owner works within its quota, and sends letters. With no quota it still cuts rows and takes
/// goals. The gate is called before.
pub fn begin<K: LetterRule, R: Wait, G: Gate>(
    rt: &R,
    plan: &Plan,
    gate: &G,
    post: &Post<K>,
    number: u32,
    seat: &mut Seat,
)
    requires plan { IsPlan plan.now }
    requires post { IsPostOf plan.now K.fits post.now }
    requires ready { IsReady plan.now post.now number seat.old }
    ensures begun { HasBegun plan.now post.now number seat.old seat.new }
{
    gate.leased(number, number);
    let Seat {
        share,
        estimator,
        succs,
        pass,
        quota,
        used,
        failed,
    } = seat;
    match pass {
        Some(pass) => {
            let round = Round { plan, post, number };
            let (count, end) = work(rt, &round, estimator, share, succs, pass, *quota);
            *used = count;
            *failed = is_memory(end);
        }
        None => unreachable!(),
    }
}

/// The owner takes its letters in, until its queue is found empty. The gate is called after.
pub fn end<K: LetterRule, R: Wait, G: Gate>(
    rt: &R,
    plan: &Plan,
    gate: &G,
    post: &Post<K>,
    number: u32,
    seat: &mut Seat,
)
    requires plan { IsPlan plan.now }
    requires post { IsPostOf plan.now K.fits post.now }
    requires ready { HasLeft plan.now post.now number seat.old }
    ensures taken { HasTaken plan.now post.now number seat.old seat.new }
{
    let Seat {
        share,
        estimator,
        succs: _,
        pass,
        quota: _,
        used: _,
        failed,
    } = seat;
    match pass {
        Some(pass) => {
            *failed = take_in(rt, plan, estimator, share, post, pass).is_err();
        }
        None => unreachable!(),
    }
    gate.giving(number, number);
}
