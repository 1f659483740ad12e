//! Images of states: the tracked atoms of a set, and the cells of the tracked pieces of a board.
ghost use Rattle.std.specs.Prelude.{[], ◌≡◌, ◌+◌, ◌*◌, ◌<◌, ◌≤◌, ◌^◌, ◌==◌, All, IfOk, IfSome, IsTrue, length, map, not, OnOk, position, take, ◌++◌};
ghost use Rattle.pb_packed.specs.Sizes.{most_atoms};
ghost use Rattle.pb_packed.specs.Bits.{bit_number};
ghost use Rattle.pb_task.specs.Strips.{action_at, has_atom, IsStrips};
ghost use Rattle.pb_task.specs.Tiles.{board_of, board_state, cell_count, is_board_state, IsTiles};
ghost use Rattle.pb_pattern.specs.Projected.{atoms_by, cell_with, cells_from, goal_first, image_of_board, image_of_set, placing_of, projected_strips, tracked_atoms, tracked_tiles};
ghost use Rattle.pb_pattern.specs.Graphs.{parts_of, pieces_of, rule_of};

use crate::pieces::Pieces;
use crate::sets::{Rule, Sets};
use pb_packed::Packed;
use pb_task::{Actions, StripsParts, TilesParts};
use std::alloc::{AllocError, Global};

// The greatest number of cells that a board has.
const MOST_CELLS: usize = 16;

// ---- STRIPS

// The goal's atoms among the first `count`.
fn goal_atoms(alloc: Global, goal: &Packed, count: u32) -> Result<Vec<u32>, AllocError>
    requires { count ≤ most_atoms }
    ensures { IfOk result (λ atoms. atoms.items ≡ atoms_by (has_atom goal.now) count) }
{
    let mut atoms = Vec::new(alloc);
    for atom in 0..count {
        if goal.has(atom) {
            atoms.push(atom)?;
        }
    }
    Ok(atoms)
}

// The atoms among the first `count` that the goal doesn't have.
fn other_atoms(alloc: Global, goal: &Packed, count: u32) -> Result<Vec<u32>, AllocError>
    requires { count ≤ most_atoms }
    ensures { IfOk result (λ atoms. atoms.items
        ≡ atoms_by (λ atom. not (has_atom goal.now atom)) count) }
{
    let mut atoms = Vec::new(alloc);
    for atom in 0..count {
        if !goal.has(atom) {
            atoms.push(atom)?;
        }
    }
    Ok(atoms)
}

/// The atoms that are tracked for a pattern number.
pub fn tracked_atoms(alloc: Global, strips: &StripsParts, k: u32) -> Result<Vec<u32>, AllocError>
    requires { IsStrips strips.now }
    ensures { IfOk result (λ atoms. atoms.items ≡ tracked_atoms strips.now k) }
{
    let mut atoms = goal_atoms(alloc, &strips.goal, strips.atoms)?;
    let others = other_atoms(alloc, &strips.goal, strips.atoms)?;
    atoms.extend_from_slice(&others)?;
    atoms.truncate(k as usize);
    Ok(atoms)
}

// 1 if an atom is in a set, and else 0.
#[inline]
fn atom_bit(set: &Packed, atom: u32) -> u32
    requires { atom < most_atoms }
    ensures bit { result ≡ bit_number (has_atom set.now atom) }
    ensures small { result ≤ 1 }
{
    if set.has(atom) { 1 } else { 0 }
}

/// The image of a set of atoms: which of the tracked ones it has.
pub fn image_of_set(tracked: &[u32], set: &Packed) -> u32
    requires few { length tracked.now ≤ 12 }
    requires atoms { All (λ atom. atom < most_atoms) tracked.now }
    ensures image { result ≡ image_of_set tracked.now set.now }
    ensures small { result < 2 ^ length tracked.now }
{
    let mut image = 0;
    for place in 0..tracked.len() {
        image += atom_bit(set, tracked[place]) << place as u32;
    }
    image
}

// A ground action as far as it concerns the tracked atoms.
fn rule_of(tracked: &[u32], actions: &Actions, at: usize) -> Rule
    requires at { at < length actions.now }
    requires few { length tracked.now ≤ 12 }
    requires atoms { All (λ atom. atom < most_atoms) tracked.now }
    ensures { result ≡ rule_of tracked.now (action_at actions.now at) }
{
    Rule {
        needs: image_of_set(tracked, &actions.needs(at)),
        adds: image_of_set(tracked, &actions.adds(at)),
        deletes: image_of_set(tracked, &actions.deletes(at)),
        cost: actions.cost(at),
    }
}

// The actions of a task as far as they concern the tracked atoms.
fn rules_of(alloc: Global, tracked: &[u32], actions: &Actions) -> Result<Vec<Rule>, AllocError>
    requires few { length tracked.now ≤ 12 }
    requires atoms { All (λ atom. atom < most_atoms) tracked.now }
    ensures { IfOk result (λ rules. rules.items ≡ map (rule_of tracked.now) actions.now) }
{
    let mut rules = Vec::with_capacity(alloc, actions.len())?;
    for at in 0..actions.len() {
        rules.push(rule_of(tracked, actions, at))?;
    }
    Ok(rules)
}

/// The task over the tracked atoms alone.
pub fn sets_of(alloc: Global, strips: &StripsParts, tracked: &[u32]) -> Result<Sets, AllocError>
    requires few { length tracked.now ≤ 12 }
    requires atoms { All (λ atom. atom < most_atoms) tracked.now }
    ensures { IfOk result (λ sets. parts_of sets ≡ projected_strips strips.now tracked.now) }
{
    let rules = rules_of(alloc, tracked, &strips.actions)?;
    Ok(Sets {
        atoms: tracked.len() as u32,
        rules,
        start: image_of_set(tracked, &strips.start),
        goal: image_of_set(tracked, &strips.goal),
    })
}

// ---- tiles

/// How many tiles are tracked for a pattern number.
pub fn tracked_tiles(tiles: &TilesParts, k: u32) -> u32
    requires { IsTiles tiles.now }
    ensures tracked { result ≡ tracked_tiles tiles.now k }
    ensures few { result ≤ 3 }
{
    k.min(3.min(tiles.rows * tiles.cols - 1))
}

// The numbers in the first cells of a state, which has no others, from the first on.
fn unpack(word: u64, count: usize) -> [u8; MOST_CELLS]
    requires { count ≤ 16 }
    ensures { take count result ≡ board_of count word }
{
    // As large for every board, so that it takes no memory: `least` promises that.
    let mut cells = [0; MOST_CELLS];
    let mut rest = word;
    for cell in 0..count {
        cells[cell] = (rest % 16) as u8;
        rest /= 16;
    }
    cells
}

// The cell of a board that a number is in. 0 if it is in none.
fn cell_with(board: &[u8], number: u8) -> u32
    requires { length board.now ≤ 16 }
    ensures cell { result ≡ cell_with board.now number }
    ensures small { result < 16 }
{
    match find(board, number) {
        Some(cell) => cell as u32,
        None => 0,
    }
}

// The first cell of a board that a number is in.
fn find(board: &[u8], number: u8) -> Option<usize>
    ensures cell { result ≡ position (λ other. other == number) board.now }
    ensures within { IfSome result (λ cell. cell < length board.now) }
{
    board.iter().position(|other| *other == number)
}

// The cells of a number and of the ones after it, so many in all, as a number.
fn placing_from(board: &[u8], number: u8, many: u32) -> u32
    requires board { length board.now ≤ 16 }
    requires many { many ≤ 4 }
    requires numbers { number + many ≤ 16 }
    ensures cells { result ≡ board_state (cells_from board.now number many) }
    ensures small { result < 16 ^ many }
{
    if many == 0 {
        0
    } else {
        let cell = cell_with(board, number);
        cell + 16 * placing_from(board, number + 1, many - 1)
    }
}

/// The blank and the first tiles of a task.
pub fn pieces_of(tiles: &TilesParts, tracked: u32) -> Pieces
    requires tiles { IsTiles tiles.now }
    requires few { tracked ≤ 3 }
    ensures { result ≡ pieces_of tiles.now tracked }
{
    Pieces {
        rows: tiles.rows,
        cols: tiles.cols,
        count: tracked + 1,
        start: placing_from(tiles.start.numbers(), 0, tracked + 1),
        goal: placing_from(tiles.goal.numbers(), 0, tracked + 1),
    }
}

// How many cells a board has.
fn cell_count(tiles: &TilesParts) -> u32
    requires { IsTiles tiles.now }
    ensures count { result ≡ cell_count tiles.now }
    ensures few { result ≤ 16 }
{
    tiles.rows * tiles.cols
}

// The image of the board that a word represents.
fn image_of_word(word: u64, count: usize, pieces: u32) -> u32
    requires count { count ≤ 16 }
    requires pieces { pieces ≤ 4 }
    ensures image { result ≡ board_state (cells_from (board_of count word) 0 pieces) }
    ensures small { result < 16 ^ pieces }
{
    let cells = unpack(word, count);
    placing_from(&cells[..count], 0, pieces)
}

/// The image of a board: the cells of the blank and of the tracked tiles.
pub fn image_of_board(tiles: &TilesParts, tracked: u32, state: &Packed) -> u32
    requires tiles { IsTiles tiles.now }
    requires few { tracked ≤ 3 }
    requires state { IsTrue (is_board_state (cell_count tiles.now) state.now) }
    ensures image { result ≡ image_of_board tiles.now tracked state.now }
{
    let count = cell_count(tiles);
    let word = state.bits(0, 4 * count);
    image_of_word(word, count as usize, tracked + 1)
}
