//! The number of a board's block, from the cells of the blank and the tiles, and back.
ghost use Rattle.std.specs.Prelude.{◌≡◌, ◌≢◌, ◌+◌, ◌-◌, ◌<◌, ◌≤◌};
ghost use Rattle.pb_abstract.specs.Placings.{IsPlacing, placing_count, placing_number, rank_beside, rank_beside_two, finest_of};

use crate::placing::Placing;
use crate::projection::Projection;

/// How many placings a projection of boards has.
pub fn placing_count(count: u32, projection: Projection) -> u32
    requires some { 2 ≤ count }
    requires few { count ≤ 16 }
    ensures count { result ≡ placing_count count projection }
    ensures small { result ≤ 3360 }
{
    match projection {
        Projection::Squares { .. } => 0,
        Projection::Blank => count,
        Projection::BlankAndOne => count * (count - 1),
        Projection::BlankAndTwo => count * (count - 1) * (count - 2),
        Projection::Atoms(_) => 0,
    }
}

/// The finest of the three projections of boards that has at most so many blocks.
pub fn finest(count: u32, wish: u32) -> Projection
    requires some { 2 ≤ count }
    requires few { count ≤ 16 }
    ensures { result ≡ finest_of count wish }
{
    if placing_count(count, Projection::BlankAndTwo) <= wish {
        Projection::BlankAndTwo
    } else if placing_count(count, Projection::BlankAndOne) <= wish {
        Projection::BlankAndOne
    } else {
        Projection::Blank
    }
}

// The rank of a cell among the cells other than one that is taken.
fn rank_beside(taken: u32, cell: u32) -> u32
    ensures rank { result ≡ rank_beside taken cell }
    ensures small { result ≤ cell }
{
    cell - u32::from(taken < cell)
}

// The rank of a cell among the cells other than two that are taken.
fn rank_beside_two(taken: u32, other: u32, cell: u32) -> u32
    requires apart { taken ≢ other }
    ensures rank { result ≡ rank_beside_two taken other cell }
    ensures small { result ≤ cell }
{
    cell - (u32::from(taken < cell) + u32::from(other < cell))
}

/// The block of a placing on a board of `count` cells.
pub fn placing_number(count: u32, projection: Projection, placing: &Placing) -> u32
    requires some { 2 ≤ count }
    requires few { count ≤ 16 }
    requires placing { IsPlacing count placing.now }
    ensures { result ≡ placing_number count projection placing.now }
{
    let pair = placing.blank * (count - 1) + rank_beside(placing.blank, placing.first);
    match projection {
        Projection::Squares { .. } => 0,
        Projection::Blank => placing.blank,
        Projection::BlankAndOne => pair,
        Projection::BlankAndTwo => {
            pair * (count - 2) + rank_beside_two(placing.blank, placing.first, placing.second)
        }
        Projection::Atoms(_) => 0,
    }
}

// The cell of this rank among the cells other than one that is taken.
fn cell_beside(taken: u32, rank: u32) -> u32
    requires { rank < 16 }
    ensures rank { rank_beside taken result ≡ rank }
    ensures apart { result ≢ taken }
    ensures small { result ≤ rank + 1 }
{
    if taken <= rank { rank + 1 } else { rank }
}

// The cell of this rank among the cells other than two that are taken, the lesser one first.
fn cell_beside_two(low: u32, high: u32, rank: u32) -> u32
    requires order { low < high }
    requires rank { rank < 16 }
    ensures rank { rank_beside_two low high result ≡ rank }
    ensures low { result ≢ low }
    ensures high { result ≢ high }
    ensures small { result ≤ rank + 2 }
{
    let cell = cell_beside(low, rank);
    if high <= cell { cell + 1 } else { cell }
}

// The placing of the blank's cell and the ranks of the tiles' cells.
fn with_ranks(count: u32, blank: u32, first: u32, second: u32) -> Placing
    requires few { count ≤ 16 }
    requires blank { blank < count }
    requires first { first < count - 1 }
    requires second { second < count - 2 }
    ensures placing { IsPlacing count result }
    ensures blank { result.blank ≡ blank }
    ensures first { rank_beside result.blank result.first ≡ first }
    ensures second { rank_beside_two result.blank result.first result.second ≡ second }
{
    let one = cell_beside(blank, first);
    let two = cell_beside_two(blank.min(one), blank.max(one), second);
    Placing {
        blank,
        first: one,
        second: two,
    }
}

/// A placing that has this block.
pub fn placing_at(count: u32, projection: Projection, block: u32) -> Placing
    requires some { 4 ≤ count }
    requires few { count ≤ 16 }
    requires block { block < placing_count count projection }
    ensures placing { IsPlacing count result }
    ensures number { placing_number count projection result ≡ block }
{
    // Squares and atoms have no placings, so there is no such block.
    match projection {
        Projection::Squares { .. } => unreachable!(),
        Projection::Blank => with_ranks(count, block, 0, 0),
        Projection::BlankAndOne => with_ranks(count, block / (count - 1), block % (count - 1), 0),
        Projection::BlankAndTwo => {
            let pair = block / (count - 2);
            with_ranks(
                count,
                pair / (count - 1),
                pair % (count - 1),
                block % (count - 2),
            )
        }
        Projection::Atoms(_) => unreachable!(),
    }
}
