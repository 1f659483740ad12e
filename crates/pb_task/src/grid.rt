//! Grids: their cells as states, and the steps between cells.
ghost use Rattle.std.specs.Prelude.{◌≡◌, ◌≢◌, ◌+◌, ◌*◌, ◌<◌, ◌≤◌, ◌^◌, vec_capacity, IfSome};
ghost use Rattle.pb_packed.specs.Bits.{bits_of};
ghost use Rattle.pb_model.specs.Space.{steps};
ghost use Rattle.pb_task.specs.Grid.{class_at, is_swamp, entry_cost, cell_state, class_of_state, is_passable, are_connected, cell_beside, step_to, grid_step, grid_space, direction};
ghost use Rattle.pb_task.specs.declared.parts.Class.TheVariants.{Blocked};

use crate::parts::{Class, GridParts};
use crate::steps::push_step;
use pb_model::Succ;
use pb_packed::Packed;

/// How many actions a grid and a board of tiles have: up, down, left and right.
pub const DIRECTIONS: u32 = 4;

// What it costs to enter a cell of swamp. Any other cell costs 1.
const SWAMP_COST: u64 = 2;

// How many bits of a state hold a coordinate.
const BITS: u32 = 11;

// How many columns these bits can distinguish.
const COLUMNS: u64 = 1 << BITS;

// The word that represents a cell.
#[inline]
fn word_of(x: u32, y: u32) -> u64
    requires x { x < 2048 }
    requires y { y < 2048 }
    ensures { result ≡ cell_state x y }
{
    u64::from(y) * COLUMNS + u64::from(x)
}

/// The state that represents a cell.
#[inline]
pub fn pack(x: u32, y: u32) -> Packed
    requires x { x < 2048 }
    requires y { y < 2048 }
    ensures { result ≡ cell_state x y }
{
    Packed::of_word(word_of(x, y))
}

// The column and the row in a state's bits.
#[inline]
fn unpack(state: &Packed) -> (u32, u32)
    ensures x { result.0 ≡ bits_of state.now 0 11 }
    ensures y { result.1 ≡ bits_of state.now 11 11 }
    ensures small_x { result.0 < 2048 }
    ensures small_y { result.1 < 2048 }
{
    let cell = state.bits(0, 2 * BITS);
    ((cell % COLUMNS) as u32, (cell / COLUMNS) as u32)
}

impl GridParts {
    /// The class of the cell in this column and row. Off the map all is blocked.
    #[inline]
    pub fn class_at(&self, x: u32, y: u32) -> Class
        ensures class { result ≡ class_at self.now x y }
        ensures column { result ≢ Blocked → x < self.now.width }
        ensures row { result ≢ Blocked → y < self.now.height }
    {
        if x < self.width && y < self.height {
            let at = u64::from(y) * u64::from(self.width) + u64::from(x);
            // Only `IsGrid` says that there are as many classes as cells, and it isn't required.
            self.cells.get(at as usize).unwrap_or(Class::Blocked)
        } else {
            Class::Blocked
        }
    }

    /// Whether the cell in this column and row is swamp. Off the map none is.
    #[inline]
    pub fn is_swamp(&self, x: u32, y: u32) -> bool
        ensures { result ≡ is_swamp self.now x y }
    {
        if x < self.width && y < self.height {
            let at = u64::from(y) * u64::from(self.width) + u64::from(x);
            self.swamp.get(at as usize).unwrap_or(false)
        } else {
            false
        }
    }
}

// What it costs to enter a cell.
#[inline]
fn entry_cost(grid: &GridParts, x: u32, y: u32) -> u64
    ensures { result ≡ entry_cost grid.now x y }
{
    if grid.is_swamp(x, y) { SWAMP_COST } else { 1 }
}

/// The class of the cell that a state represents. Blocked if the state represents none.
pub fn class_of_state(grid: &GridParts, state: &Packed) -> Class
    ensures { result ≡ class_of_state grid.now state.now }
{
    let (x, y) = unpack(state);
    class_of_cell(grid, state, x, y)
}

// The same, with the column and the row in the state's bits.
#[inline]
fn class_of_cell(grid: &GridParts, state: &Packed, x: u32, y: u32) -> Class
    requires x { x ≡ bits_of state.now 0 11 }
    requires y { y ≡ bits_of state.now 11 11 }
    requires small_x { x < 2048 }
    requires small_y { y < 2048 }
    ensures { result ≡ class_of_state grid.now state.now }
{
    // A state with other bits on than those of a column and a row represents no cell.
    if pack(x, y) == *state {
        grid.class_at(x, y)
    } else {
        Class::Blocked
    }
}

/// Whether cells of this class can be entered at all.
pub fn is_passable(class: Class) -> bool
    ensures { result ≡ is_passable class }
{
    match class {
        Class::Land | Class::Water => true,
        Class::Blocked => false,
    }
}

/// Whether a cell of the one class can be left for one of the other that lies beside it.
#[inline]
pub fn are_connected(from: Class, to: Class) -> bool
    ensures { result ≡ are_connected from to }
{
    match (from, to) {
        (Class::Land, Class::Land) | (Class::Water, Class::Water) => true,
        _ => false,
    }
}

/// The cell beside the one in a column and a row in the action's direction, on the map or off it: 0
/// is up, 1 down, 2 left, 3 right.
#[inline]
pub fn cell_beside(x: u32, y: u32, action: u32) -> Option<(u32, u32)>
    requires x { x < 2 ^ 24 }
    requires y { y < 2 ^ 24 }
    ensures cell { result ≡ cell_beside x y action }
    ensures near { IfSome result (λ cell. (cell.0 ≤ x + 1) × (cell.1 ≤ y + 1)) }
{
    match action {
        0 if 0 < y => Some((x, y - 1)),
        1 => Some((x, y + 1)),
        2 if 0 < x => Some((x - 1, y)),
        3 => Some((x + 1, y)),
        _ => None,
    }
}

// The step from a cell of the class to this cell, if the two are connected. The state is a word.
#[inline]
fn step_to(grid: &GridParts, from: Class, cell: Option<(u32, u32)>) -> Option<(u64, u64)>
    requires width { grid.now.width ≤ 2048 }
    requires height { grid.now.height ≤ 2048 }
    ensures { result ≡ step_to grid.now from cell }
{
    let (x, y) = cell?;
    if are_connected(from, grid.class_at(x, y)) {
        Some((word_of(x, y), entry_cost(grid, x, y)))
    } else {
        None
    }
}

/// The step from a state by an action.
pub fn step(grid: &GridParts, from: &Packed, action: u32) -> Option<(Packed, u64)>
    requires width { grid.now.width ≤ 2048 }
    requires height { grid.now.height ≤ 2048 }
    ensures { result ≡ grid_step grid.now from.now action }
{
    let (x, y) = unpack(from);
    let class = class_of_cell(grid, from, x, y);
    let (word, cost) = step_to(grid, class, cell_beside(x, y, action))?;
    Some((Packed::of_word(word), cost))
}

/// Replaces the list by all successors of a state, in order of the actions. The state is read once.
pub fn successors(grid: &GridParts, from: &Packed, out: &mut Vec<Succ>)
    requires width { grid.now.width ≤ 2048 }
    requires height { grid.now.height ≤ 2048 }
    requires room { 4 ≤ vec_capacity out.old }
    ensures successors { out.new.items ≡ steps (grid_space grid.now) from.now }
    ensures room { vec_capacity out.old ≤ vec_capacity out.new }
{
    out.clear();
    let (x, y) = unpack(from);
    let class = class_of_cell(grid, from, x, y);
    for action in 0..DIRECTIONS {
        let step = step_to(grid, class, cell_beside(x, y, action));
        push_step(out, action, step);
    }
}

/// The name of an action.
pub fn direction(action: u32) -> &'static str
    ensures { result.now ≡ direction action }
{
    match action {
        0 => "up",
        1 => "down",
        2 => "left",
        _ => "right",
    }
}
