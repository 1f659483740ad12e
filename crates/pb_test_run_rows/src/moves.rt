//! Steps between the states of a task.
use crate::lines::Lines;
use pb_model::Succ;
use pb_outside::Memory;
use pb_packed::{MOST_DIGITS, Packed};
use pb_task::Task;
use std::alloc::Global;

/// Adds a state's hexadecimal digits, without the zeros before them.
pub(crate) fn add_state(lines: &mut Lines, state: &Packed) -> Result<(), Memory> {
    let mut digits = [0_u8; MOST_DIGITS];
    state.hex(MOST_DIGITS as u32, &mut digits);
    match std::str::from_utf8(digits.as_slice()) {
        Ok(text) => {
            lines.first("x")?;
            lines.first(text.trim_start_matches('0'))
        }
        // Digits are always UTF-8.
        Err(_) => Ok(()),
    }
}

// The successors of a state, if it is one.
fn successors(alloc: Global, task: &Task, state: &Packed) -> Result<Vec<Succ>, Memory> {
    let mut found = Vec::with_capacity(alloc, task.max_degree() as usize)?;
    if task.is_state(state) {
        task.successors(state, &mut found);
    }
    Ok(found)
}

// Adds a number, the digits of a state and a cost.
fn add_step(
    alloc: Global,
    lines: &mut Lines,
    action: u32,
    state: &Packed,
    cost: u64,
) -> Result<(), Memory> {
    let text = format!(in alloc; "{action}: ")?;
    lines.first(text.as_str())?;
    add_state(lines, state)?;
    let text = format!(in alloc; " for {cost}\n")?;
    lines.first(text.as_str())
}

/// The successors of a state in their order: the action, the state and the cost of each.
pub(crate) fn add_steps(
    alloc: Global,
    lines: &mut Lines,
    task: &Task,
    state: &Packed,
) -> Result<(), Memory> {
    let found = successors(alloc, task, state)?;
    for step in &found {
        add_step(alloc, lines, step.action, &step.state, step.cost)?;
    }
    Ok(())
}

// The state that an action leads to and what it costs, if there is one.
fn applied(task: &Task, state: &Packed, action: u32) -> Option<(Packed, u64)> {
    if task.is_state(state) {
        task.apply(state, action)
    } else {
        None
    }
}

/// Where each action leads from a state, and what it costs.
pub(crate) fn add_applied(
    alloc: Global,
    lines: &mut Lines,
    task: &Task,
    state: &Packed,
    actions: &[u32],
) -> Result<(), Memory> {
    for action in actions {
        match applied(task, state, *action) {
            Some((next, cost)) => add_step(alloc, lines, *action, &next, cost)?,
            None => lines.first("none\n")?,
        }
    }
    Ok(())
}

/// The states that actions lead to from the start, one after the other: how many successors each
/// state had, and whether it was a goal.
pub(crate) fn add_walk(
    alloc: Global,
    lines: &mut Lines,
    task: &Task,
    actions: &[u32],
) -> Result<(), Memory> {
    let mut state = task.initial();
    for action in actions {
        let ways = successors(alloc, task, &state)?.len();
        let is_goal = task.is_goal(&state);
        let text = format!(in alloc; "{ways} ways, goal {is_goal}, ")?;
        lines.first(text.as_str())?;
        let Some((next, cost)) = applied(task, &state, *action) else {
            return lines.first("none\n");
        };
        add_step(alloc, lines, *action, &next, cost)?;
        state = next;
    }
    Ok(())
}
