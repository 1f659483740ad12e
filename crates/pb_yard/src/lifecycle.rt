//! Making a yard, one pass for each worker, and taking the graph out at the end.
ghost use Rattle.std.specs.Prelude.{◌≡◌, ◌+◌, ◌<◌, None, IfOk, IfErr};
ghost use Rattle.pb_yard.specs.Views.{opening_view, split_view, next_pass_view, met_pass_view, keeps_order};
ghost use Rattle.pb_yard.specs.Passes.{view_of, worker_of, parts_of, all_parts, IsOf, IsFirstPass, IsSamePass};
ghost use Rattle.pb_lease.specs.Begins.{IsBegin};
ghost use Rattle.pb_yard.specs.Calls.{AllSignedOff, IsClosedFor};

use crate::pass::Pass;
use crate::word::{cost, word_of};
use crate::yard::Yard;
use pb_lease::LeaseGraph;
use pb_turn::TurnLock;
use std::alloc::{AllocError, Global};

impl Yard {
    /// A yard over a graph with which a run begins: it is at a lawful moment, without a lease and
    /// without an event. The pass is that of worker 0. An error is out of memory: the graph comes
    /// back with it.
    pub fn new(alloc: Global, graph: LeaseGraph) -> Result<(Yard, Pass), (AllocError, LeaseGraph)>
        requires { IsBegin graph }
        ensures pass { IfOk result (λ r. IsFirstPass r.0 r.1) }
        ensures view { IfOk result (λ r. view_of r.1 ≡ opening_view graph) }
        ensures err { IfErr result (λ r. r.1 ≡ graph) }
    {
        // The call shows that the graph is lawful.
        let _ = graph.abstraction();
        let incumbent = graph.incumbent();
        let (lock, turn) = TurnLock::new(alloc, graph, word_of(incumbent))?;
        Ok((
            Yard { lock },
            Pass {
                turn,
                worker: 0,
                made: 1,
                seen: 0,
                last: incumbent,
                first: incumbent,
            },
        ))
    }

    /// The next worker's pass. Only worker 0's pass makes the others, and it counts them.
    pub fn split(&self, pass: &mut Pass) -> Pass
        requires own { IsOf self.now pass.old }
        requires first { worker_of pass.old ≡ 0 }
        requires more { (view_of pass.old).journal.made < (view_of pass.old).settings.workers }
        ensures same { IsSamePass pass.old pass.new }
        ensures kept { view_of pass.new ≡ split_view (view_of pass.old) }
        ensures left { parts_of pass.new + 1 ≡ parts_of pass.old }
        ensures given { IsOf self.now result × (parts_of result ≡ 1) }
        ensures worker { worker_of result ≡ (view_of pass.old).journal.made }
        ensures view { view_of result ≡ next_pass_view (view_of pass.old) }
    {
        let turn = self.lock.split(&mut pass.turn);
        let worker = pass.made;
        pass.made += 1;
        Pass {
            turn,
            worker,
            made: 0,
            seen: pass.seen,
            last: pass.first,
            first: pass.first,
        }
    }

    /// Takes in the pass of another worker, which has no lease: the events of both are the taker's
    /// from now on.
    pub fn meet(&self, pass: &mut Pass, other: Pass)
        requires own { IsOf self.now pass.old × IsOf self.now other }
        requires free { (view_of other).lent ≡ None }
        ensures same { IsSamePass pass.old pass.new }
        ensures met { view_of pass.new ≡ met_pass_view (view_of pass.old) (view_of other) }
        ensures parts { parts_of pass.new ≡ parts_of pass.old + parts_of other }
    {
        let Pass {
            turn,
            worker: _,
            made,
            seen,
            last: _,
            first: _,
        } = other;
        self.lock.meet(&mut pass.turn, turn);
        // The count is known only modulo 2^32, so it may wrap.
        pass.made = pass.made.wrapping_add(made);
        pass.seen = pass.seen.max(seen);
    }

    /// Takes the graph out, after every worker signed off and all other passes were met. The run was
    /// in order and in time for all workers but those that left the order.
    pub fn close(self, pass: Pass) -> LeaseGraph
        requires own { IsOf self pass }
        requires met { parts_of pass ≡ all_parts }
        requires off { AllSignedOff (view_of pass) }
        ensures closed { IsClosedFor (keeps_order (view_of pass)) (view_of pass) result }
    {
        let Yard { lock } = self;
        let Pass {
            turn,
            worker: _,
            made: _,
            seen: _,
            last: _,
            first: _,
        } = pass;
        let (mut graph, number) = lock.close_with(turn);
        // A cost may have been reported after the graph was last held.
        if let Some(known) = cost(number) {
            graph.lower_incumbent(known);
        }
        graph
    }
}
