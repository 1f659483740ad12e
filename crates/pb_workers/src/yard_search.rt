//! The search of one worker that shares a yard.
ghost use Rattle.std.specs.Prelude.{◌≡◌, ◌||◌, None, IsTrue, is_some};
ghost use Rattle.std.specs.List.{list_any};
ghost use Rattle.pb_machine.specs.History.{is_off, end_in};
ghost use Rattle.pb_yard.specs.Passes.{view_of, parts_of, IsOf, IsSamePass};
ghost use Rattle.pb_workers.specs.Serving.{Serves, searched_by};
ghost use Rattle.pb_workers.specs.Shared.{IsSameHolder, IsIdle};
ghost use Rattle.pb_workers.specs.Sharing.{HasNone};
ghost use Rattle.pb_workers.specs.Tools.{AreFor};
ghost use Rattle.pb_workers.specs.Turns.{IsBetweenTurns};

use crate::holding::hold;
use crate::team::Team;
use crate::worker::{Tools, Worker};
use crate::yard_lessor::YardLessor;
use crate::yard_watch::YardWatch;
use pb_lease::LeaseReply;
use pb_outside::Gate;
use pb_yard::Pass;
use std::sync::Wait;

// Leases blocks and works on them until the search ends, or memory for a lease runs out. Answers
// whether memory ran out.
fn take_leases<W: Wait, G: Gate>(
    rt: &W,
    gate: &G,
    worker: &mut Worker,
    lessor: &mut YardLessor<W>,
) -> bool
    requires serves { Serves worker.old (searched_by (view_of lessor.old.watch.pass)) }
    requires idle { HasNone lessor.old.watch lessor.old.watch }
    ensures idle { HasNone lessor.old.watch lessor.new.watch }
    ensures cause { IsTrue (result
        || is_some (end_in (view_of lessor.new.watch.pass).journal.seen)) }
{
    for _ in rt.forever() {
        // Noted before the request: if a lease comes back after it, the count has moved.
        let noted = lessor.count.note(rt);
        match lessor.watch.yard.lease(rt, &mut lessor.watch.pass) {
            LeaseReply::Leased(lease) => {
                gate.leased(lessor.watch.pass.worker(), lease.block());
                hold(worker, lessor, gate, lease);
            }
            LeaseReply::NotYet => lessor.count.sleep_past(rt, noted),
            LeaseReply::Over(_) => return false,
            LeaseReply::Memory => return true,
        }
    }
    unreachable!()
}

/// One worker of a yard, until it has signed off.
pub fn run_worker<W: Wait, G: Gate>(rt: &W, team: &Team<G>, tools: Tools, pass: Pass) -> Pass
    requires own { IsOf team.now.yard.now pass }
    requires tools { AreFor team.now.task.now (view_of pass).choice tools }
    requires idle { IsIdle team.now.task.now team.now.abstraction.now (view_of pass) }
    ensures same { IsSamePass pass result × (parts_of result ≡ parts_of pass) }
    ensures holder { IsSameHolder (view_of pass) (view_of result) }
    ensures vacant { (view_of result).lent ≡ None }
    ensures signed_off { IsTrue (list_any is_off (view_of result).journal.own.events) }
    ensures turn { IsBetweenTurns (view_of pass) → IsBetweenTurns (view_of result) }
{
    let mut worker = Worker::new(team.task, team.abstraction, tools);
    let mut lessor = YardLessor {
        rt,
        count: team.count,
        watch: YardWatch {
            yard: team.yard,
            pass,
        },
        turns: rt.forever(),
    };
    let memory = take_leases(rt, team.gate, &mut worker, &mut lessor);
    let YardLessor {
        rt: _,
        count: _,
        watch,
        turns: _,
    } = lessor;
    let YardWatch { yard: _, mut pass } = watch;
    team.yard.sign_off(rt, &mut pass, memory);
    // A sign-off can end the search, which sleepers must see.
    team.count.advance(rt);
    pass
}
