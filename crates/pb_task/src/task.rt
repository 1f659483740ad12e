//! The type of tasks, whose calls go to the kind of the task.
ghost use Rattle.std.specs.Prelude.{◌≡◌, ℕ, ◌*◌, ◌<◌, ◌≤◌, IsTrue, IfOk, None, false, length, vec_capacity, string_bytes};
ghost use Rattle.pb_model.specs.Space.{steps};
ghost use Rattle.pb_task.specs.Grid.{IsGrid};
ghost use Rattle.pb_task.specs.Tiles.{IsTiles};
ghost use Rattle.pb_task.specs.Strips.{IsStrips};
ghost use Rattle.pb_task.specs.Marks.{is_marked};
ghost use Rattle.pb_packed.specs.Sizes.{state_bits, most_digits};
ghost use Rattle.pb_task.specs.Kinds.{kind_of};
ghost use Rattle.pb_task.specs.Groundings.{grounding_of};
ghost use Rattle.pb_task.specs.Widths.{digits_for, width_of};
ghost use Rattle.pb_task.specs.Parts.{space_of, IsTask, action_name, max_degree_of};
ghost use Rattle.pb_task.specs.declared.parts.TaskParts.TheVariants.{Grid, Tiles, Strips};

use crate::grounding::Grounding;
use crate::kind::Kind;
use crate::parts::{GridParts, StripsParts, TaskParts, TilesParts};
use crate::{grid, strips, tiles};
use pb_model::Succ;
use pb_packed::Packed;
use std::alloc::{AllocError, Global};
use std::marker::Model;

/// A planning task: a state space with a start, steps by actions, and goals. Contracts see its
/// parts.
#[derive(Drop)]
pub struct Task {
    parts: TaskParts,
}

impl Model for Task {
    ghost use Rattle.pb_task.specs.declared.parts.TaskParts.{TaskParts};
    ghost use Rattle.pb_task.specs.Parts.{IsTask};

    ghost Value = { TaskParts };

    ghost view = { λ t. t.parts };

    ghost invariant = { λ t. IsTask t.parts };
}

// How many hexadecimal digits spell so many bits, at least one.
fn digits_for(bits: u32) -> u32
    requires { bits ≤ state_bits }
    ensures digits { result ≡ digits_for bits }
    ensures some { 1 ≤ result }
    ensures most { result ≤ most_digits }
{
    // A task without atoms has one state, which is written as a 0.
    if bits == 0 { 1 } else { (bits + 3) / 4 }
}

impl Task {
    /// The task to find a way on a grid. It takes no memory.
    pub fn of_grid(parts: GridParts) -> Task
        requires { IsGrid parts }
        ensures { result ≡ Grid parts }
    {
        Task {
            parts: TaskParts::Grid(parts),
        }
    }

    /// The task to slide a board's tiles until it is another board. It takes no memory.
    pub fn of_tiles(parts: TilesParts) -> Task
        requires { IsTiles parts }
        ensures { result ≡ Tiles parts }
    {
        Task {
            parts: TaskParts::Tiles(parts),
        }
    }

    /// The task of reaching a state in which the goal's atoms hold, by ground actions. It takes no
    /// memory.
    pub fn of_strips(parts: StripsParts) -> Task
        requires { IsStrips parts }
        ensures { result ≡ Strips parts }
    {
        Task {
            parts: TaskParts::Strips(parts),
        }
    }

    /// What the task is made of.
    pub fn parts(&self) -> &TaskParts
        ensures parts { result.now ≡ self.now }
        ensures lawful { IsTask self.now }
    {
        &self.parts
    }

    /// How many hexadecimal digits spell a state, four bits each: 6 on a grid, as many as there are
    /// cells for sliding tiles, and a digit for four atoms for STRIPS, at least one.
    pub fn width(&self) -> u32
        ensures digits { result ≡ width_of self.now }
        ensures some { 1 ≤ result }
        ensures most { result ≤ most_digits }
    {
        match &self.parts {
            TaskParts::Grid(_) => 6,
            TaskParts::Tiles(parts) => parts.rows * parts.cols,
            TaskParts::Strips(parts) => digits_for(parts.atoms),
        }
    }

    /// The kind of the task.
    pub fn kind(&self) -> Kind
        ensures { result ≡ kind_of self.now }
    {
        match &self.parts {
            TaskParts::Grid(_) => Kind::Grid,
            TaskParts::Tiles(_) => Kind::Tiles,
            TaskParts::Strips(_) => Kind::Strips,
        }
    }

    /// Which ground atoms and actions of a STRIPS task have numbers. On a grid and for sliding tiles
    /// nothing is left out.
    pub fn grounding(&self) -> Grounding
        ensures { result ≡ grounding_of self.now }
    {
        match &self.parts {
            TaskParts::Grid(_) | TaskParts::Tiles(_) => Grounding::All,
            TaskParts::Strips(parts) => parts.grounding,
        }
    }

    /// The start.
    pub fn initial(&self) -> Packed
        ensures start { result ≡ (space_of self.now).start }
        ensures lawful { IsTask self.now }
    {
        match &self.parts {
            TaskParts::Grid(parts) => grid::pack(parts.start.0, parts.start.1),
            TaskParts::Tiles(parts) => tiles::pack(parts.start.numbers()),
            TaskParts::Strips(parts) => parts.start,
        }
    }

    /// Whether this is a state of the task.
    pub fn is_state(&self, state: &Packed) -> bool
        ensures { result ≡ (space_of self.now).is_state state.now }
    {
        match &self.parts {
            TaskParts::Grid(parts) => grid::is_passable(grid::class_of_state(parts, state)),
            TaskParts::Tiles(parts) => tiles::is_state(parts, state),
            TaskParts::Strips(parts) => strips::is_state(parts, state),
        }
    }

    /// Whether this is a goal of the task.
    pub fn is_goal(&self, state: &Packed) -> bool
        ensures { result ≡ (space_of self.now).is_goal state.now }
    {
        match &self.parts {
            TaskParts::Grid(parts) => *state == grid::pack(parts.goal.0, parts.goal.1),
            TaskParts::Tiles(parts) => tiles::is_at(parts.goal.numbers(), state),
            TaskParts::Strips(parts) => strips::is_goal(parts, state),
        }
    }

    /// How many actions there are. They are numbered from 0.
    pub fn actions(&self) -> u32
        ensures { result ≡ (space_of self.now).actions }
    {
        match &self.parts {
            TaskParts::Grid(_) | TaskParts::Tiles(_) => grid::DIRECTIONS,
            TaskParts::Strips(parts) => strips::actions(parts),
        }
    }

    /// No state has more successors than this.
    pub fn max_degree(&self) -> u32
        ensures degree { result ≡ max_degree_of self.now }
        ensures lawful { IsTask self.now }
    {
        // Without this the invariant of the task isn't available, which the clause `lawful` states.
        let _ = &self.parts;
        self.actions()
    }

    /// The state that an action leads to, and the action's cost. None if the action is not
    /// applicable.
    pub fn apply(&self, from: &Packed, action: u32) -> Option<(Packed, u64)>
        requires { IsTrue ((space_of self.now).is_state from.now) }
        ensures { result ≡ (space_of self.now).step from.now action }
    {
        match &self.parts {
            TaskParts::Grid(parts) => grid::step(parts, from, action),
            TaskParts::Tiles(parts) => tiles::step(parts, from, action),
            TaskParts::Strips(parts) => strips::step(parts, from, action),
        }
    }

    /// Replaces the list by all successors of a state, in order of the actions. It takes no memory:
    /// the list has room for them.
    pub fn successors(&self, from: &Packed, out: &mut Vec<Succ>)
        requires state { IsTrue ((space_of self.now).is_state from.now) }
        requires room { max_degree_of self.now ≤ vec_capacity out.old }
        ensures successors { out.new.items ≡ steps (space_of self.now) from.now }
        ensures room { vec_capacity out.old ≤ vec_capacity out.new }
    {
        match &self.parts {
            TaskParts::Grid(parts) => grid::successors(parts, from, out),
            TaskParts::Tiles(parts) => tiles::successors(parts, from, out),
            TaskParts::Strips(parts) => strips::successors(parts, from, out),
        }
    }

    /// Replaces the list by all successors of a state, in order of the actions, where no action but
    /// the marked ones is applicable. Action i is marked if bit i % 64 of word i / 64 is 1. It takes
    /// no memory: the list has room for the successors.
    pub fn successors_among(&self, from: &Packed, marks: &[u64], out: &mut Vec<Succ>)
        requires marks { (space_of self.now).actions ≤ 64 * length marks.now }
        requires others { (action : ℕ) → action < (space_of self.now).actions
            → is_marked marks.now action ≡ false → (space_of self.now).step from.now action ≡ None }
        requires state { IsTrue ((space_of self.now).is_state from.now) }
        requires room { max_degree_of self.now ≤ vec_capacity out.old }
        ensures successors { out.new.items ≡ steps (space_of self.now) from.now }
        ensures room { vec_capacity out.old ≤ vec_capacity out.new }
    {
        match &self.parts {
            // Four actions are too few for marks to be of use.
            TaskParts::Grid(parts) => grid::successors(parts, from, out),
            TaskParts::Tiles(parts) => tiles::successors(parts, from, out),
            TaskParts::Strips(parts) => strips::successors_among(parts, from, marks, out),
        }
    }

    /// What an action is called in a plan.
    pub fn action_text(&self, alloc: Global, action: u32) -> Result<String, AllocError>
        requires { action < (space_of self.now).actions }
        ensures { IfOk result (λ text. string_bytes text ≡ action_name self.now action) }
    {
        let name = match &self.parts {
            TaskParts::Grid(_) | TaskParts::Tiles(_) => grid::direction(action),
            TaskParts::Strips(parts) => strips::name(parts, action),
        };
        let text = String::from_str(alloc, name)?;
        Ok(text)
    }
}
