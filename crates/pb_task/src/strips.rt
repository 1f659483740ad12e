//! STRIPS tasks: sets of atoms as states, and the steps by ground actions.
ghost use Rattle.std.specs.Prelude.{◌≡◌, ℕ, ◌*◌, ◌<◌, ◌≤◌, ◌↔◌, ◌+◌, ◌++◌, IsTrue, None, false, length, vec_capacity, vec_len};
ghost use Rattle.pb_packed.specs.Words.{number_of, AreWords};
ghost use Rattle.pb_model.specs.Space.{steps, successor_list};
ghost use Rattle.pb_task.specs.Marks.{is_marked};
ghost use Rattle.pb_task.specs.Strips.{IsStrips, action_at, has_atom, is_atom_set, is_strips_goal, state_after, strips_step, strips_space, name_in};

use crate::marks::next_marked;
use crate::parts::StripsParts;
use crate::sets;
use crate::steps::push_successor;
use pb_model::Succ;
use pb_packed::Packed;

/// Whether a state is a set of the task's atoms.
pub fn is_state(strips: &StripsParts, state: &Packed) -> bool
    requires { IsStrips strips.now }
    ensures { result ≡ is_atom_set strips.now.atoms state.now }
{
    sets::is_atom_set(strips.atoms, state)
}

/// Whether all atoms of the goal hold in a state, and the goal asks for no fact that never holds.
pub fn is_goal(strips: &StripsParts, state: &Packed) -> bool
    requires { IsStrips strips.now }
    ensures { result ≡ is_strips_goal strips.now state.now }
{
    let may_hold = !strips.never;
    may_hold && sets::is_subset(&strips.goal, state)
}

/// How many actions there are.
pub fn actions(strips: &StripsParts) -> u32
    requires { IsStrips strips.now }
    ensures { result ≡ length strips.now.actions }
{
    strips.actions.len() as u32
}

// Whether all that an action needs holds in the state that these words spell.
#[inline]
fn needs_hold<const W: usize>(strips: &StripsParts, held: &[u64; W], action: u32) -> bool
    requires fits { strips.now.atoms ≤ 64 * W }
    requires strips { IsStrips strips.now }
    requires held { AreWords W held.now }
    requires action { action < length strips.now.actions }
    ensures { IsTrue result ↔ ((atom : ℕ)
        → IsTrue (has_atom (action_at strips.now.actions action).needs atom)
        → IsTrue (has_atom (number_of held.now) atom)) }
{
    let needs = sets::first_words::<W>(strips.actions.words_of_needs(action as usize));
    sets::is_within(needs, held)
}

// The state after an action, of the one that these words spell.
#[inline]
fn state_after<const W: usize>(strips: &StripsParts, held: &[u64; W], action: u32) -> Packed
    requires some { 1 ≤ W }
    requires most { W ≤ 16 }
    requires fits { strips.now.atoms ≤ 64 * W }
    requires strips { IsStrips strips.now }
    requires held { AreWords W held.now }
    requires state { IsTrue (is_atom_set strips.now.atoms (number_of held.now)) }
    requires action { action < length strips.now.actions }
    ensures { result ≡ state_after strips.now.atoms (action_at strips.now.actions action)
        (number_of held.now) }
{
    let at = action as usize;
    let adds = sets::first_words::<W>(strips.actions.words_of_adds(at));
    let deletes = sets::first_words::<W>(strips.actions.words_of_deletes(at));
    sets::after(adds, deletes, held)
}

// The step from the state that these words spell by an action.
#[inline]
fn step_from<const W: usize>(
    strips: &StripsParts,
    held: &[u64; W],
    action: u32,
) -> Option<(Packed, u64)>
    requires some { 1 ≤ W }
    requires most { W ≤ 16 }
    requires fits { strips.now.atoms ≤ 64 * W }
    requires strips { IsStrips strips.now }
    requires held { AreWords W held.now }
    requires state { IsTrue (is_atom_set strips.now.atoms (number_of held.now)) }
    ensures { result ≡ strips_step strips.now (number_of held.now) action }
{
    let at = action as usize;
    if strips.actions.len() <= at {
        return None;
    }
    if needs_hold(strips, held, action) {
        let state = state_after(strips, held, action);
        Some((state, strips.actions.cost(at)))
    } else {
        None
    }
}

// The step from a state by an action, of a task whose atoms fit so many words.
#[inline]
fn step_in<const W: usize>(
    strips: &StripsParts,
    from: &Packed,
    action: u32,
) -> Option<(Packed, u64)>
    requires some { 1 ≤ W }
    requires most { W ≤ 16 }
    requires fits { strips.now.atoms ≤ 64 * W }
    requires strips { IsStrips strips.now }
    requires state { IsTrue (is_atom_set strips.now.atoms from.now) }
    ensures { result ≡ strips_step strips.now from.now action }
{
    let held = from.in_words::<W>().to_array();
    step_from(strips, &held, action)
}

// The step from a state by an action, in 4 words. Not inline, so that the step in one word is
// short.
#[inline(never)]
fn step_in_few(strips: &StripsParts, from: &Packed, action: u32) -> Option<(Packed, u64)>
    requires fits { strips.now.atoms ≤ 256 }
    requires strips { IsStrips strips.now }
    requires state { IsTrue (is_atom_set strips.now.atoms from.now) }
    ensures { result ≡ strips_step strips.now from.now action }
{
    step_in::<4>(strips, from, action)
}

// The step from a state by an action, in all 16 words. Not inline either.
#[inline(never)]
fn step_in_all(strips: &StripsParts, from: &Packed, action: u32) -> Option<(Packed, u64)>
    requires strips { IsStrips strips.now }
    requires state { IsTrue (is_atom_set strips.now.atoms from.now) }
    ensures { result ≡ strips_step strips.now from.now action }
{
    step_in::<16>(strips, from, action)
}

/// The step from a state by an action.
pub fn step(strips: &StripsParts, from: &Packed, action: u32) -> Option<(Packed, u64)>
    requires strips { IsStrips strips.now }
    requires state { IsTrue (is_atom_set strips.now.atoms from.now) }
    ensures { result ≡ strips_step strips.now from.now action }
{
    // A step costs less in fewer words, and most words of a small task's states are 0.
    if strips.atoms <= 64 {
        step_in::<1>(strips, from, action)
    } else if strips.atoms <= 256 {
        step_in_few(strips, from, action)
    } else {
        step_in_all(strips, from, action)
    }
}

// Adds the successor by an action of the state that these words spell, if the action is applicable,
// to a list that has room for it. The state after the action is made where it is added.
#[inline]
fn push_step<const W: usize>(
    strips: &StripsParts,
    held: &[u64; W],
    action: u32,
    out: &mut Vec<Succ>,
)
    requires some { 1 ≤ W }
    requires most { W ≤ 16 }
    requires fits { strips.now.atoms ≤ 64 * W }
    requires strips { IsStrips strips.now }
    requires held { AreWords W held.now }
    requires state { IsTrue (is_atom_set strips.now.atoms (number_of held.now)) }
    requires action { action < length strips.now.actions }
    requires room { vec_len out.old < vec_capacity out.old }
    ensures items { out.new.items ≡ out.old.items
        ++ successor_list action (strips_step strips.now (number_of held.now) action) }
    ensures len { vec_len out.new ≤ vec_len out.old + 1 }
    ensures room { vec_capacity out.old ≤ vec_capacity out.new }
{
    if needs_hold(strips, held, action) {
        let cost = strips.actions.cost(action as usize);
        push_successor(out, action, state_after(strips, held, action), cost);
    }
}

// Replaces the list by all successors of a state, of a task whose atoms fit so many words.
#[inline]
fn successors_in<const W: usize>(strips: &StripsParts, from: &Packed, out: &mut Vec<Succ>)
    requires some { 1 ≤ W }
    requires most { W ≤ 16 }
    requires fits { strips.now.atoms ≤ 64 * W }
    requires strips { IsStrips strips.now }
    requires state { IsTrue (is_atom_set strips.now.atoms from.now) }
    requires room { length strips.now.actions ≤ vec_capacity out.old }
    ensures successors { out.new.items ≡ steps (strips_space strips.now) from.now }
    ensures room { vec_capacity out.old ≤ vec_capacity out.new }
{
    out.clear();
    // The state is turned into words once for all actions.
    let held = from.in_words::<W>().to_array();
    for action in 0..actions(strips) {
        push_step(strips, &held, action, out);
    }
}

// Replaces the list by all successors of a state, in 4 words. Not inline, so that the form in one
// word is short.
#[inline(never)]
fn successors_in_few(strips: &StripsParts, from: &Packed, out: &mut Vec<Succ>)
    requires fits { strips.now.atoms ≤ 256 }
    requires strips { IsStrips strips.now }
    requires state { IsTrue (is_atom_set strips.now.atoms from.now) }
    requires room { length strips.now.actions ≤ vec_capacity out.old }
    ensures successors { out.new.items ≡ steps (strips_space strips.now) from.now }
    ensures room { vec_capacity out.old ≤ vec_capacity out.new }
{
    successors_in::<4>(strips, from, out);
}

// Replaces the list by all successors of a state, in all 16 words. Not inline either.
#[inline(never)]
fn successors_in_all(strips: &StripsParts, from: &Packed, out: &mut Vec<Succ>)
    requires strips { IsStrips strips.now }
    requires state { IsTrue (is_atom_set strips.now.atoms from.now) }
    requires room { length strips.now.actions ≤ vec_capacity out.old }
    ensures successors { out.new.items ≡ steps (strips_space strips.now) from.now }
    ensures room { vec_capacity out.old ≤ vec_capacity out.new }
{
    successors_in::<16>(strips, from, out);
}

/// Replaces the list by all successors of a state, in order of the actions.
pub fn successors(strips: &StripsParts, from: &Packed, out: &mut Vec<Succ>)
    requires strips { IsStrips strips.now }
    requires state { IsTrue (is_atom_set strips.now.atoms from.now) }
    requires room { length strips.now.actions ≤ vec_capacity out.old }
    ensures successors { out.new.items ≡ steps (strips_space strips.now) from.now }
    ensures room { vec_capacity out.old ≤ vec_capacity out.new }
{
    if strips.atoms <= 64 {
        successors_in::<1>(strips, from, out);
    } else if strips.atoms <= 256 {
        successors_in_few(strips, from, out);
    } else {
        successors_in_all(strips, from, out);
    }
}

// Replaces the list by all successors of a state, of a task whose atoms fit so many words. No
// action but the marked ones is applicable.
#[inline]
fn among_in<const W: usize>(strips: &StripsParts, from: &Packed, marks: &[u64], out: &mut Vec<Succ>)
    requires some { 1 ≤ W }
    requires most { W ≤ 16 }
    requires fits { strips.now.atoms ≤ 64 * W }
    requires strips { IsStrips strips.now }
    requires marks { length strips.now.actions ≤ 64 * length marks.now }
    requires others { (action : ℕ) → action < length strips.now.actions
        → is_marked marks.now action ≡ false → strips_step strips.now from.now action ≡ None }
    requires state { IsTrue (is_atom_set strips.now.atoms from.now) }
    requires room { length strips.now.actions ≤ vec_capacity out.old }
    ensures successors { out.new.items ≡ steps (strips_space strips.now) from.now }
    ensures room { vec_capacity out.old ≤ vec_capacity out.new }
{
    out.clear();
    let held = from.in_words::<W>().to_array();
    let count = actions(strips);
    let mut action = next_marked(marks, 0, count);
    while action < count {
        push_step(strips, &held, action, out);
        action = next_marked(marks, action + 1, count);
    }
}

// The same, in 4 words. Not inline, so that the form in one word is short.
#[inline(never)]
fn among_in_few(strips: &StripsParts, from: &Packed, marks: &[u64], out: &mut Vec<Succ>)
    requires fits { strips.now.atoms ≤ 256 }
    requires strips { IsStrips strips.now }
    requires marks { length strips.now.actions ≤ 64 * length marks.now }
    requires others { (action : ℕ) → action < length strips.now.actions
        → is_marked marks.now action ≡ false → strips_step strips.now from.now action ≡ None }
    requires state { IsTrue (is_atom_set strips.now.atoms from.now) }
    requires room { length strips.now.actions ≤ vec_capacity out.old }
    ensures successors { out.new.items ≡ steps (strips_space strips.now) from.now }
    ensures room { vec_capacity out.old ≤ vec_capacity out.new }
{
    among_in::<4>(strips, from, marks, out);
}

// The same, in all 16 words. Not inline either.
#[inline(never)]
fn among_in_all(strips: &StripsParts, from: &Packed, marks: &[u64], out: &mut Vec<Succ>)
    requires strips { IsStrips strips.now }
    requires marks { length strips.now.actions ≤ 64 * length marks.now }
    requires others { (action : ℕ) → action < length strips.now.actions
        → is_marked marks.now action ≡ false → strips_step strips.now from.now action ≡ None }
    requires state { IsTrue (is_atom_set strips.now.atoms from.now) }
    requires room { length strips.now.actions ≤ vec_capacity out.old }
    ensures successors { out.new.items ≡ steps (strips_space strips.now) from.now }
    ensures room { vec_capacity out.old ≤ vec_capacity out.new }
{
    among_in::<16>(strips, from, marks, out);
}

/// Replaces the list by all successors of a state, in order of the actions, where no action but the
/// marked ones is applicable.
pub fn successors_among(strips: &StripsParts, from: &Packed, marks: &[u64], out: &mut Vec<Succ>)
    requires strips { IsStrips strips.now }
    requires marks { length strips.now.actions ≤ 64 * length marks.now }
    requires others { (action : ℕ) → action < length strips.now.actions
        → is_marked marks.now action ≡ false → strips_step strips.now from.now action ≡ None }
    requires state { IsTrue (is_atom_set strips.now.atoms from.now) }
    requires room { length strips.now.actions ≤ vec_capacity out.old }
    ensures successors { out.new.items ≡ steps (strips_space strips.now) from.now }
    ensures room { vec_capacity out.old ≤ vec_capacity out.new }
{
    if strips.atoms <= 64 {
        among_in::<1>(strips, from, marks, out);
    } else if strips.atoms <= 256 {
        among_in_few(strips, from, marks, out);
    } else {
        among_in_all(strips, from, marks, out);
    }
}

/// The name of an action.
pub fn name(strips: &StripsParts, action: u32) -> &str
    requires { action < length strips.now.actions }
    ensures { result.now ≡ name_in strips.now.actions action }
{
    strips.actions.name(action as usize)
}
