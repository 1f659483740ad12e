//! Laws on falling weights and on the claims after each run. Each is the contract of a function
//! that cites other laws at most.
ghost use Rattle.pb_falling.specs.Laws.{WeightsFall, ClaimsHold, WorkedWeights};

use pb_machine::reopening_is_lawful;

/// The weights fall from the first one to den/den.
pub fn weights_fall()
    ensures { WeightsFall }
{}

/// Each claim holds at its weight, and their costs never rise.
pub fn claims_hold()
    ensures { ClaimsHold }
{
    // Each run after the first begins with the machine of the one before, opened again.
    reopening_is_lawful();
}

/// From the weight 3 in 2 steps the weights are 3, 2 and 1. In 4 steps they are 3, 2, 2, 1 and 1.
pub fn worked_weights()
    ensures { WorkedWeights }
{}
