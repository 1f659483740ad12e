//! Whether a list of actions is a plan, what it costs, and its first fault.
ghost use Rattle.std.specs.Prelude.{◌≡◌, ◌≤◌, ◌^◌, ℕ, Ok, IfOk, IfErr, length};
ghost use Rattle.pb_model.specs.Plan.{IsPlan};
ghost use Rattle.pb_task.specs.Parts.{space_of};
ghost use Rattle.pb_task.specs.Faults.{IsFault};

use crate::task::Task;

/// What keeps a list of actions from being a plan.
#[derive(Clone, Copy, Debug, PartialEq, Eq)]
pub enum PlanFault {
    /// The action at place `i`, counted from 0, is not applicable after those before it.
    Step { i: u64 },
    /// All actions are applicable, one after another, and lead to a state that is no goal.
    NotGoal,
}

impl Task {
    /// What a plan costs, or why a list of actions is no plan. It takes no memory.
    pub fn validate(&self, plan: &[u32]) -> Result<u64, PlanFault>
        requires { length plan.now ≤ 2 ^ 40 }
        ensures cost { IfOk result (λ cost. IsPlan (space_of self.now)
            (record { actions = plan.now; cost = cost })) }
        ensures plan { (cost : ℕ) → IsPlan (space_of self.now)
            (record { actions = plan.now; cost = cost }) → result ≡ Ok cost }
        ensures fault { IfErr result (IsFault (space_of self.now) plan.now) }
    {
        let mut state = self.initial();
        let mut cost = 0;
        for i in 0..plan.len() {
            let Some(step) = self.apply(&state, plan[i]) else {
                return Err(PlanFault::Step { i: i as u64 });
            };
            state = step.0;
            // 2^40 actions at a cost of at most 2^20 each fit 64 bits.
            cost += step.1;
        }
        if self.is_goal(&state) {
            Ok(cost)
        } else {
            Err(PlanFault::NotGoal)
        }
    }
}
