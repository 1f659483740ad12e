//! Tests of tracked atoms, which are bits in their order, and the STRIPS tasks for them.
ghost use Rattle.std.specs.Prelude.{◌≡◌, ◌≤◌, ◌<◌, ◌^◌, IfOk};
ghost use Rattle.pb_task.specs.Strips.{IsGroundAction};

use pb_abstract::TrackedAtoms;
use pb_packed::Packed;
use pb_task::{ActionName, Actions, GroundAction, Grounding, StripsParts, Task};
use std::alloc::{AllocError, Global};
use std::test::Fail;

// The set of those atoms below 64 whose bits are 1.
fn set(atoms: u64) -> Packed
    ensures { result ≡ atoms }
{
    Packed::zero().with_bits(0, 64, atoms)
}

// An action over so many atoms, by the bits of those that it needs, adds and deletes.
fn action(
    alloc: Global,
    count: u32,
    needs: u64,
    adds: u64,
    deletes: u64,
) -> Result<GroundAction, AllocError>
    requires needs { needs < 2 ^ count }
    requires adds { adds < 2 ^ count }
    requires deletes { deletes < 2 ^ count }
    ensures { IfOk result (IsGroundAction count) }
{
    let text = String::from_str(alloc, "(act)")?;
    Ok(GroundAction {
        name: ActionName::of(text),
        needs: set(needs),
        adds: set(adds),
        deletes: set(deletes),
        cost: 1,
    })
}

/// Six atoms. None of the actions changes atom 0, three change atom 1, two each of the atoms 2, 3
/// and 4, and one atom 5.
pub fn six_atoms(alloc: Global) -> Result<Task, AllocError> {
    let actions = vec![in alloc;
        action(alloc, 6, 0b000010, 0b000100, 0b000010)?,
        action(alloc, 6, 0b000100, 0b000010, 0b000100)?,
        action(alloc, 6, 0b000101, 0b001000, 0b000000)?,
        action(alloc, 6, 0b001000, 0b010000, 0b001000)?,
        action(alloc, 6, 0b000000, 0b100000, 0b010000)?,
        action(alloc, 6, 0b100000, 0b000010, 0b000000)?,
    ]?;
    Ok(Task::of_strips(StripsParts {
        atoms: 6,
        actions: Actions::of(alloc, actions)?,
        start: set(0b000011),
        goal: set(0b100000),
        never: false,
        grounding: Grounding::All,
    }))
}

/// As many atoms, each of which one action adds, which needs nothing.
pub fn added_alone(alloc: Global, count: u32) -> Result<Task, AllocError>
    requires { count ≤ 16 }
{
    let mut actions = Vec::new(alloc);
    for atom in 0..count {
        actions.push(action(alloc, count, 0, 1 << atom, 0)?)?;
    }
    Ok(Task::of_strips(StripsParts {
        atoms: count,
        actions: Actions::of(alloc, actions)?,
        start: set(0),
        goal: set(0),
        never: false,
        grounding: Grounding::All,
    }))
}

/// Three atoms and no action.
pub fn unchanged(alloc: Global) -> Task {
    Task::of_strips(StripsParts {
        atoms: 3,
        actions: Actions::new(alloc),
        start: set(0),
        goal: set(0b111),
        never: false,
        grounding: Grounding::All,
    })
}

#[test]
fn tracked_atoms_are_bits_in_their_order(rt: HostRuntime) -> Result<(), Fail> {
    let mut atoms = TrackedAtoms::new();
    assert_eq!(rt; (atoms.set_count(), atoms.tracked_set(&set(7))), (1, 0));
    atoms.push(255);
    atoms.push(0);
    atoms.push(7);
    assert!(rt; atoms.as_slice() == [255, 0, 7].as_slice());
    assert_eq!(rt; atoms.set_count(), 8);
    let high = Packed::zero().with(255, true);
    assert_eq!(rt; atoms.tracked_set(&high), 1);
    assert_eq!(rt; atoms.tracked_set(&set(0b1000_0001)), 6);
    assert_eq!(rt; atoms.tracked_set(&high.with(7, true).with(8, true)), 5);
    assert!(rt; atoms != TrackedAtoms::new());
    Ok(())
}
