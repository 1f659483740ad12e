//! A plan: its actions and their cost.
ghost use Rattle.std.specs.Prelude.{◌≡◌};

use std::marker::Model;

/// A plan: the numbers of its actions, and the sum of their costs. Contracts see it as the model's.
#[derive(Drop)]
pub struct Plan {
    pub(crate) actions: Vec<u32>,
    pub(crate) cost: u64,
}

impl Model for Plan {
    ghost use Rattle.pb_model.specs.Plan.{Plan};

    ghost Value = { Plan };

    ghost view = { λ p. record { actions = p.actions.items; cost = p.cost } };
}

impl Plan {
    /// The plan of these actions, whose costs have this sum.
    pub fn of(actions: Vec<u32>, cost: u64) -> Plan
        ensures { result ≡ record { actions = actions.items; cost = cost } }
    {
        Plan { actions, cost }
    }

    /// The numbers of the actions, the first one first.
    pub fn actions(&self) -> &[u32]
        ensures { result.now ≡ self.now.actions }
    {
        &self.actions
    }

    /// The sum of the costs of the actions.
    pub fn cost(&self) -> u64
        ensures { result ≡ self.now.cost }
    {
        self.cost
    }
}
