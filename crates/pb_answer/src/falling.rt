//! A search with falling weights: one run after another on the same rows, each at a lower weight.
//! What is claimed after a run is handed out before the next run begins.
ghost use Rattle.std.specs.Prelude.{◌≡◌, ◌↔◌, ◌≤◌, ◌+◌, ◌⊎◌, IfOk, IsTrue, IsFalse, true, Some, None, List, []};
ghost use Rattle.std.specs.Arc.{arc_value};
ghost use Rattle.pb_model.specs.Plan.{IsBound};
ghost use Rattle.pb_machine.specs.declared.event.End.TheVariants.{Quiet, Budget};
ghost use Rattle.pb_machine.specs.Machine.{Machine};
ghost use Rattle.pb_task.specs.Parts.{space_of};
ghost use Rattle.pb_estimate.specs.Estimates.{suits};
ghost use Rattle.pb_lists.specs.Store.{IsQuietEnd};
ghost use Rattle.pb_lease.specs.Choices.{is_out_in};
ghost use Rattle.pb_lease.specs.Begins.{home_store};
ghost use Rattle.pb_check.specs.Spelling.{PlanFitsIfAny};
ghost use Rattle.pb_falling.specs.Falling.{Claim};
ghost use Rattle.pb_command.specs.Meaning.{IsInRange, Falling};
ghost use Rattle.pb_command.specs.Causes.{solve_meant, falling_meant};
ghost use Rattle.pb_answer.specs.Answer.{said_of};
ghost use Rattle.pb_answer.specs.Falling.{asked_of_run};
ghost use Rattle.pb_answer.specs.FallingRuns.{guide_in, weight_now, KeepsPlan, IsFalling, IsAfterRun, IsLast, SaysNow, SaysClaimNow, SaysNoneNow, SaysStopNow, GoesOn};

use crate::answer::Answer;
use crate::ended::{bound_of, certify};
use crate::kept::{claimed_plan, copy_plan, numbered_name, numerator_at};
use crate::status::Status;
use pb_cert::Plan;
use pb_command::{FallingCommand, SolveCommand};
use pb_estimate::Choice;
use pb_falling::claims_hold;
use pb_lease::LeaseGraph;
use pb_machine::End;
use pb_outside::Gate;
use pb_report::Report;
use pb_search::{search, search_on};
use pb_task::Task;
use std::alloc::{AllocError, Global};
use std::marker::Model;
use std::sync::{Arc, Wait};
use std::thread::Threads;

/// A search with falling weights after one of its runs: what the words ask for, the rows that the
/// run left, and the plan that is claimed after it.
#[derive(Drop)]
pub struct FallingSearch<'a> {
    task: Arc<Task>,
    solve: SolveCommand<'a>,
    // in how many steps the weight falls
    steps: u64,
    // the number of the run, from 0
    run: u64,
    graph: LeaseGraph,
    plan: Option<Plan>,
    // of the certificate of this run
    name: Option<String>,
}

impl<'a> Model for FallingSearch<'a> {
    ghost use Rattle.std.specs.Prelude.{option_map, string_bytes};
    ghost use Rattle.std.specs.Arc.{arc_value};
    ghost use Rattle.pb_command.specs.Causes.{solve_meant};
    ghost use Rattle.pb_answer.specs.FallingRuns.{FallingValue};

    ghost Value = { FallingValue };

    ghost view = { λ s. record {
      solve = solve_meant s.solve;
      parts = arc_value s.task;
      steps = s.steps;
      run = s.run;
      graph = s.graph;
      plan = s.plan;
      name = option_map (λ t. string_bytes t) s.name;
    } };
}

impl<'a> FallingSearch<'a> {
    /// Searches a task by leases, for the first time, at the weight that the words ask for and by
    /// this choice of an estimate. An error is out of memory.
    pub fn start<R: Threads + Wait + Sync, G: Gate>(
        rt: &R,
        alloc: Global,
        task: &Arc<Task>,
        choice: Choice,
        falling: FallingCommand<'a>,
        gate: &G,
    ) -> Result<FallingSearch<'a>, AllocError>
        requires range { IsInRange (Falling (falling_meant falling)) }
        requires suits { suits (arc_value task.now) choice ≡ true }
        ensures solve { IfOk result (λ s. s.solve ≡ solve_meant falling.entry.solve) }
        ensures task { IfOk result (λ s. s.parts ≡ arc_value task.now) }
        ensures steps { IfOk result (λ s. s.steps ≡ falling.entry.steps) }
        ensures run { IfOk result (λ s. s.run ≡ 0) }
        ensures choice { IfOk result (λ s. s.graph.choice ≡ choice) }
        ensures falling { IfOk result (λ s. (machine : Machine) × IsFalling [] machine s) }
    {
        let graph = search(rt, alloc, task, choice, falling.solve.settings, gate)?;
        // Called for its clause `lawful`: the proof asks for a lawful graph.
        let _lawful = graph.abstraction();
        let task = Arc::clone(task)?;
        FallingSearch::after_run(alloc, task, falling.solve, falling.steps, 0, graph, None)
    }

    /// Searches on with the same rows, opened again at the next weight. The budget is one for all
    /// runs. An error is out of memory.
    pub fn go_on<R: Threads + Wait + Sync, G: Gate>(
        self,
        rt: &R,
        alloc: Global,
        gate: &G,
    ) -> Result<FallingSearch<'a>, AllocError>
        requires after { IsAfterRun self }
        requires not_last { IsLast self → ⊥ }
        ensures solve { IfOk result (λ s. s.solve ≡ self.entry.solve) }
        ensures task { IfOk result (λ s. s.parts ≡ self.entry.parts) }
        ensures steps { IfOk result (λ s. s.steps ≡ self.entry.steps) }
        ensures run { IfOk result (λ s. s.run ≡ self.entry.run + 1) }
        ensures falling { (before : List Claim) (machine : Machine)
            → IsFalling before machine self.entry → IfOk result (GoesOn before machine self.entry) }
    {
        let FallingSearch {
            task,
            solve,
            steps,
            run,
            graph,
            plan,
            ..
        } = self;
        let num = numerator_at(solve.settings.num, solve.settings.den, steps, run + 1);
        let again = match graph.reopen(num, solve.settings.den) {
            Ok(again) => again,
            // The graph comes back with the error, and is let go.
            Err((error, _)) => return Err(error),
        };
        // The table of a pattern isn't kept between runs.
        let made = again.choice().table(alloc, &task)?;
        let last = search_on(rt, alloc, &task, again, gate, made.as_ref())?;
        // Called for its clause `lawful`, as above.
        let _lawful = last.abstraction();
        FallingSearch::after_run(alloc, task, solve, steps, run + 1, last, plan)
    }

    /// What is handed out after the run: a claim with its certificate, that there is no plan, or
    /// that the budget was used up. The certificate borrows the rows. All memory is taken here. An
    /// error is out of memory.
    pub fn answer<'s>(&'s self, alloc: Global) -> Result<Answer<'s>, AllocError>
        requires { IsAfterRun self.now }
        ensures { (before : List Claim) (machine : Machine) → IsFalling before machine self.now
            → IfOk result (λ a. SaysNow before machine self.now (said_of a)) }
    {
        match &self.plan {
            Some(plan) => self.answer_claim(alloc, plan),
            None => match self.graph.end() {
                Some(End::Quiet) => self.answer_none(alloc),
                Some(End::Budget) => self.answer_stop(alloc),
                // A run has no other end: that memory ran out is an error.
                Some(End::Memory) | None => unreachable!(),
            },
        }
    }

    /// Whether what is handed out after the run is the last thing to be handed out: there is no
    /// plan, the budget was used up, or the bound of the claim is its cost. The last weight is 1, so
    /// the last run is always the last.
    pub fn is_last(&self) -> bool
        requires { IsAfterRun self.now }
        ensures last { IsTrue result ↔ IsLast self.now }
        ensures ends { self.now.run ≡ self.now.steps → IsTrue result }
    {
        match &self.plan {
            Some(plan) => self.bound(plan) == plan.cost(),
            None => true,
        }
    }

    // A search after a run that left this graph. The plan is that of the claim before.
    fn after_run(
        alloc: Global,
        task: Arc<Task>,
        solve: SolveCommand<'a>,
        steps: u64,
        run: u64,
        graph: LeaseGraph,
        before: Option<Plan>,
    ) -> Result<FallingSearch<'a>, AllocError>
        requires task { graph.task ≡ arc_value task }
        requires whole { IsFalse (is_out_in graph) }
        requires ended { (graph.table.end ≡ Some Quiet) ⊎ (graph.table.end ≡ Some Budget) }
        requires quiet { graph.table.end ≡ Some Quiet
            → IsQuietEnd (space_of (arc_value task)) (guide_in graph) (home_store graph) }
        requires fits { PlanFitsIfAny before }
        ensures solve { IfOk result (λ s. s.solve ≡ solve_meant solve.entry) }
        ensures task { IfOk result (λ s. s.parts ≡ arc_value task) }
        ensures steps { IfOk result (λ s. s.steps ≡ steps) }
        ensures run { IfOk result (λ s. s.run ≡ run) }
        ensures graph { IfOk result (λ s. s.graph ≡ graph) }
        ensures plan { IfOk result (λ s. KeepsPlan (arc_value task) graph before s.plan) }
        ensures name { IfOk result (λ s. s.name
            ≡ (asked_of_run (solve_meant solve.entry) steps run).certificate) }
    {
        let plan = claimed_plan(alloc, &task, &graph, before)?;
        let name = numbered_name(alloc, solve.certificate, run)?;
        Ok(FallingSearch {
            task,
            solve,
            steps,
            run,
            graph,
            plan,
            name,
        })
    }

    // What is asked of this run alone.
    fn words<'s>(&'s self) -> SolveCommand<'s>
        requires { IsAfterRun self.now }
        ensures { solve_meant result
            ≡ asked_of_run self.now.solve self.now.steps self.now.run }
    {
        SolveCommand {
            input: self.solve.input,
            options: self.solve.options,
            settings: *self.graph.settings(),
            engine: self.solve.engine,
            effort: self.solve.effort,
            tables: self.solve.tables,
            certificate: self.name.as_deref(),
            journal: None,
        }
    }

    // The least cost that a plan can have, by what this run shows of the plan that is claimed.
    fn bound(&self, plan: &Plan) -> u64
        requires { IsAfterRun self.now }
        ensures { IsBound (weight_now self.now) plan.now.cost result }
    {
        let settings = self.graph.settings();
        bound_of(settings.num, settings.den, plan.cost())
    }

    // The claim, with its certificate.
    fn answer_claim<'s>(&'s self, alloc: Global, plan: &Plan) -> Result<Answer<'s>, AllocError>
        requires after { IsAfterRun self.now }
        requires plan { self.now.plan ≡ Some plan.now }
        ensures { (before : List Claim) (machine : Machine) → IsFalling before machine self.now
            → IfOk result (λ a. SaysClaimNow before machine self.now (said_of a)) }
    {
        // A law that the proof cites.
        claims_hold();
        let words = self.words();
        let bound = self.bound(plan);
        let settings = words.settings;
        let report = Report::of_claim(alloc, settings.num, settings.den, &self.task, plan, bound)?;
        // The certificate owns its plan, and the search keeps one for the next claim.
        let stated = copy_plan(alloc, plan)?;
        let certificate = certify(
            alloc,
            &self.task,
            self.graph.choice(),
            &words,
            Some(stated),
            &self.graph,
        )?;
        Ok(Answer {
            status: Status::Success,
            report,
            certificate,
            journal: None,
            looks: 0,
        })
    }

    // That there is no plan, with the certificate of that.
    fn answer_none<'s>(&'s self, alloc: Global) -> Result<Answer<'s>, AllocError>
        requires after { IsAfterRun self.now }
        requires none { self.now.plan ≡ None }
        requires quiet { self.now.graph.table.end ≡ Some Quiet }
        ensures { (before : List Claim) (machine : Machine) → IsFalling before machine self.now
            → IfOk result (λ a. SaysNoneNow before self.now (said_of a)) }
    {
        let words = self.words();
        let report = Report::of_no_plan(alloc)?;
        let certificate = certify(
            alloc,
            &self.task,
            self.graph.choice(),
            &words,
            None,
            &self.graph,
        )?;
        Ok(Answer {
            status: Status::NoPlan,
            report,
            certificate,
            journal: None,
            looks: 0,
        })
    }

    // That the budget was used up.
    fn answer_stop<'s>(&'s self, alloc: Global) -> Result<Answer<'s>, AllocError>
        requires none { self.now.plan ≡ None }
        requires budget { self.now.graph.table.end ≡ Some Budget }
        ensures { (before : List Claim) (machine : Machine) → IsFalling before machine self.now
            → IfOk result (λ a. SaysStopNow before self.now (said_of a)) }
    {
        // A law that the proof cites.
        claims_hold();
        let report = Report::of_stop(alloc, self.solve.settings.budget)?;
        Ok(Answer::without_files(Status::Stopped, report, 0))
    }
}
