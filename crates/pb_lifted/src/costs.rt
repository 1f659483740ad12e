//! What actions cost, and the places of faults in what the texts say of costs.
ghost use Rattle.std.specs.Prelude.{◌≡◌};
ghost use Rattle.pb_lifted.specs.Names.{earliest};
ghost use Rattle.pb_lifted.specs.Costs.{increase_of, cost_of, undeclared, undeclared_metric, costs_again, too_great, zero_increase, zero_cost};

use crate::declared::note;
use pb_pddl::{Action, Cost, Name, Problem};

/// The greatest number of an increase.
pub(crate) const MOST_COST: u64 = 1_048_576;

// The number of an action's increase, or 0 if it has none.
fn increase_of(costs: &[Cost]) -> u64
    ensures { result ≡ increase_of costs.now }
{
    match costs.first() {
        Some(increase) => increase.number,
        None => 0,
    }
}

/// What an action costs.
pub(crate) fn cost_of(problem: &Problem, action: &Action) -> u64
    ensures { result ≡ cost_of problem.now action.now }
{
    match problem.metric {
        Some(_) => increase_of(action.costs.as_slice()),
        None => 1,
    }
}

/// The earlier of the first place and those of `total-cost` in costs, if the domain declares none.
#[tactic(auto, using(crate::proofs::Earliest::earliest_append))]
pub(crate) fn first_undeclared(has_cost: bool, costs: &[Cost], first: Option<u64>) -> Option<u64>
    ensures { result ≡ earliest first (undeclared has_cost costs.now) }
{
    let mut found = first;
    for cost in costs {
        found = note(found, !has_cost, cost.function);
    }
    found
}

/// The earlier of the first place and that of `total-cost` in the metric, if the domain declares
/// none.
pub(crate) fn note_metric(has_cost: bool, metric: Option<u64>, first: Option<u64>) -> Option<u64>
    ensures { result ≡ earliest first (undeclared_metric has_cost metric) }
{
    match metric {
        Some(at) => note(first, !has_cost, at),
        None => first,
    }
}

/// The earlier of the first place and those of the words `increase` and `=` of all costs except the
/// first.
#[tactic(auto, using(crate::proofs::Earliest::earliest_append))]
pub(crate) fn first_again(costs: &[Cost], first: Option<u64>) -> Option<u64>
    ensures { result ≡ earliest first (costs_again costs.now) }
{
    let Some((_, later)) = costs.split_first() else {
        return first;
    };
    let mut found = first;
    for cost in later {
        found = note(found, true, cost.at);
    }
    found
}

/// The earlier of the first place and those of numbers over the greatest that may be.
#[tactic(auto, using(crate::proofs::Earliest::earliest_append))]
pub(crate) fn first_too_great(most: u64, costs: &[Cost], first: Option<u64>) -> Option<u64>
    ensures { result ≡ earliest first (too_great most costs.now) }
{
    let mut found = first;
    for cost in costs {
        found = note(found, cost.number > most, cost.number_at);
    }
    found
}

// The earlier of the first place and that of the name of an action without an increase, or of the
// number 0 of one.
fn note_zero(name: &Name, costs: &[Cost], first: Option<u64>) -> Option<u64>
    ensures { result ≡ earliest first (zero_increase name.now costs.now) }
{
    match costs.first() {
        Some(increase) => note(first, increase.number == 0, increase.number_at),
        None => note(first, true, name.at),
    }
}

/// The same if there is a metric.
pub(crate) fn note_zero_cost(
    metric: Option<u64>,
    action: &Action,
    first: Option<u64>,
) -> Option<u64>
    ensures { result ≡ earliest first (zero_cost metric action.now) }
{
    match metric {
        Some(_) => note_zero(&action.name, action.costs.as_slice(), first),
        None => first,
    }
}
