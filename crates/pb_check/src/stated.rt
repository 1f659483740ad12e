//! What a certificate states: its weight, its plan, what comes before the rows, and the rows.
ghost use Rattle.std.specs.Prelude.{◌≡◌};

use crate::actions::StatedActions;
use crate::rows::StatedRows;
use pb_estimate::Spelling;
use std::marker::Model;

/// The weight that a certificate states, in range or not.
#[derive(Clone, Copy)]
pub struct StatedWeight {
    pub num: u64,
    pub den: u64,
}

/// What a row says behind its state: its cost, in the unit of the task's action costs, and whether
/// it is closed.
#[derive(Clone, Copy)]
pub struct RowEnd {
    pub g: u64,
    pub is_closed: bool,
}

/// The actions of a plan, and the cost that is stated. Contracts see a plan of the model.
#[derive(Drop)]
pub struct StatedPlan<'a> {
    pub actions: StatedActions<'a>,
    pub cost: u64,
}

impl<'a> Model for StatedPlan<'a> {
    ghost use Rattle.pb_model.specs.Plan.{Plan};

    ghost Value = { Plan };

    ghost view = { λ r. record { actions = r.actions; cost = r.cost } };
}

/// All that a certificate says before its rows, with how many they are and the number of the first
/// one's line: contracts see what a text says there.
#[derive(Drop)]
pub struct StatedFront<'a> {
    pub spelling: Spelling,
    pub weight: StatedWeight,
    pub plan: Option<StatedPlan<'a>>,
    pub count: u64,
    pub first: u64,
}

impl<'a> Model for StatedFront<'a> {
    ghost use Rattle.pb_check.specs.Fronts.{Front};

    ghost Value = { Front };

    ghost view = { λ p. record {
      spelling = p.spelling;
      weight = record { num = p.weight.num; den = p.weight.den };
      plan = p.plan;
      count = p.count;
      first = p.first;
    } };
}

/// All that a certificate says: contracts see what a text says.
#[derive(Drop)]
pub struct StatedText<'a> {
    pub spelling: Spelling,
    pub weight: StatedWeight,
    pub plan: Option<StatedPlan<'a>>,
    pub rows: StatedRows,
    pub first: u64,
}

impl<'a> Model for StatedText<'a> {
    ghost use Rattle.pb_check.specs.Reading.{Text};

    ghost Value = { Text };

    ghost view = { λ p. record {
      spelling = p.spelling;
      certificate = record {
        weight = record { num = p.weight.num; den = p.weight.den };
        plan = p.plan;
        lines = p.rows;
      };
      first = p.first;
    } };
}
