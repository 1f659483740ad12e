//! The plain estimate on a grid: the Manhattan distance to the goal.
ghost use Rattle.std.specs.Prelude.{◌≡◌};
ghost use Rattle.pb_packed.specs.Bits.{bits_of};
ghost use Rattle.pb_estimate.specs.Estimates.{cell_of, manhattan};

use crate::distance::manhattan;
use pb_packed::Packed;
use pb_task::GridParts;

// How many bits of a state hold its two coordinates.
const BITS: u32 = 22;

// How many columns, or rows, a state can distinguish.
const SIDE: u32 = 2048;

// The column and the row in a state's bits, which are read as one number.
fn unpack(state: &Packed) -> (u32, u32)
    ensures x { result.0 ≡ bits_of state.now 0 11 }
    ensures y { result.1 ≡ bits_of state.now 11 11 }
{
    let word = state.bits(0, BITS) as u32;
    (word % SIDE, word / SIDE)
}

/// The distance in x plus the distance in y from a state's cell to the goal, in steps.
pub fn distance(grid: &GridParts, state: &Packed) -> u64
    ensures { result ≡ manhattan (cell_of state.now) grid.now.goal }
{
    manhattan(unpack(state), grid.goal)
}
