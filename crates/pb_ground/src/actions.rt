//! The ground actions of a lifted task: instances of its schemas, with the numbers of their atoms.
ghost use Rattle.std.specs.Prelude.{◌≡◌, ◌≤◌, ◌++◌, map, length, IfOk, OnOk, IfErr};
ghost use Rattle.pb_ground.specs.Actions.{action_of, actions_from, actions_of, ground_actions, TellsActions};
ghost use Rattle.pb_ground.specs.Looks.{TellsHalt, TellsStop};
ghost use Rattle.pb_ground.specs.Pruning.{AreStatics};
ghost use Rattle.pb_ground.specs.Search.{TellsFull};

use crate::atoms::Atoms;
use crate::error::GroundError;
use crate::instances::instances;
use crate::looks::Looks;
use crate::numbers::numbers_of;
use crate::search::{Search, copy_of};
use crate::statics::{Statics, static_numbers};
use pb_lifted::{Lifted, LiftedAtom, Schema};
use pb_pddl::Listed;
use std::alloc::{AllocError, Global};

/// An instance of an action schema. Atoms are named by their numbers.
#[derive(Drop)]
pub struct ActionInstance {
    /// The number of the schema.
    pub schema: usize,
    /// The objects that are given to its parameters.
    pub objects: Listed<usize>,
    /// The ground atoms that must hold, each once, as are those of the other two lists.
    pub needs: Listed<usize>,
    /// The ground atoms that hold afterwards.
    pub adds: Listed<usize>,
    /// The ground atoms that the action deletes; those that it also adds hold after it.
    pub deletes: Listed<usize>,
    /// The action's cost: that of its schema.
    pub cost: u64,
}

/// A task with what its instances need.
#[derive(Clone, Copy)]
struct IndexedTask<'a> {
    /// The task, by whose types and objects schemas have instances.
    lifted: &'a Lifted,
    /// What tests static atoms of the task.
    statics: &'a Statics,
    /// The ground atoms that have numbers.
    atoms: &'a Atoms,
}

/// How many ground actions there may be.
const LIMIT: usize = 65_536;

// The instance of a schema for these objects. The call fails if memory runs out.
fn action_of(
    alloc: Global,
    atoms: &Atoms,
    i: usize,
    schema: &Schema,
    given: &[usize],
) -> Result<ActionInstance, AllocError>
    ensures { IfOk result (λ action. action ≡ action_of atoms.now i schema.now given.now) }
{
    let objects = copy_of(alloc, given)?;
    let needs = numbers_of(alloc, atoms, given, schema.pre.as_slice())?;
    let adds = numbers_of(alloc, atoms, given, schema.adds.as_slice())?;
    let deletes = numbers_of(alloc, atoms, given, schema.deletes.as_slice())?;
    Ok(ActionInstance {
        schema: i,
        objects,
        needs,
        adds,
        deletes,
        cost: schema.cost,
    })
}

// Adds the instances of a schema for each of these lists of objects.
fn add_rows(
    alloc: Global,
    atoms: &Atoms,
    i: usize,
    schema: &Schema,
    rows: &[Listed<usize>],
    actions: &mut Listed<ActionInstance>,
) -> Result<(), AllocError>
    ensures { OnOk result (actions.new ≡ actions.old ++ map
        (λ given. action_of atoms.now i schema.now given) rows.now) }
{
    for row in rows {
        actions.push(action_of(alloc, atoms, i, schema, row.as_slice())?)?;
    }
    Ok(())
}

// Adds the ground actions of a schema. `TooManyActions`: there would be more than may be.
fn add_actions(
    alloc: Global,
    task: &IndexedTask,
    i: usize,
    schema: &Schema,
    actions: &mut Listed<ActionInstance>,
    looks: &mut Looks,
) -> Result<(), GroundError>
    requires statics { AreStatics task.now.statics.now task.now.lifted.now }
    requires few { length actions.old ≤ 65536 }
    ensures added { OnOk result (actions.new ≡ actions.old
        ++ actions_of task.now.lifted.now task.now.atoms.now i schema.now) }
    ensures few { OnOk result (length actions.new ≤ 65536) }
    ensures full { IfErr result (TellsFull 65536 (actions.old
        ++ actions_of task.now.lifted.now task.now.atoms.now i schema.now)) }
    ensures stopped { IfErr result (TellsStop looks.new) }
    ensures since { looks.new.since ≡ looks.old.since }
    ensures rising { looks.old.taken ≤ looks.new.taken }
{
    let numbers = static_numbers(alloc, task.statics, schema.pre.as_slice())?;
    let search = Search {
        statics: task.statics,
        lifted: task.lifted,
        atoms: schema.pre.as_slice(),
        tested: numbers.as_slice(),
        kinds: schema.params.as_slice(),
        // By `few` there are at most `LIMIT` actions so far, so this cannot wrap.
        limit: LIMIT - actions.as_slice().len(),
    };
    let rows = instances(alloc, &search, looks)?;
    add_rows(alloc, task.atoms, i, schema, rows.as_slice(), actions)?;
    Ok(())
}

// Takes a look for each of some rows.
fn look_at_all(rows: &[LiftedAtom], looks: &mut Looks) -> Result<(), GroundError>
    ensures halted { IfErr result (TellsHalt looks.new) }
    ensures since { looks.new.since ≡ looks.old.since }
    ensures rising { looks.old.taken ≤ looks.new.taken }
{
    for _row in rows {
        looks.take()?;
    }
    Ok(())
}

/// The instances of these schemas by objects of a task that fit: those whose preconditions with
/// static predicates hold at first in the task. The schemas needn't be the task's own. They are in
/// the order of the schemas, and then of their lists of objects, the first object most significant.
/// Their atoms have the numbers that they have in `atoms`, and others are left out.
/// `TooManyActions`: there are more than 65,536. `Stopped`: no look is left.
pub fn actions_in(
    alloc: Global,
    task: &Lifted,
    schemas: &[Schema],
    atoms: &Atoms,
    looks: &mut Looks,
) -> Result<Listed<ActionInstance>, GroundError>
    ensures few { OnOk result (length (actions_from task.now atoms.now 0 schemas.now) ≤ 65536) }
    ensures actions { IfOk result (λ actions. actions
        ≡ actions_from task.now atoms.now 0 schemas.now) }
    ensures refused { IfErr result (TellsFull 65536
        (actions_from task.now atoms.now 0 schemas.now)) }
    ensures stopped { IfErr result (TellsStop looks.new) }
    ensures since { looks.new.since ≡ looks.old.since }
    ensures rising { looks.old.taken ≤ looks.new.taken }
{
    // `Statics::of` goes over all atoms of `:init`; each of them takes a look before that.
    look_at_all(task.init.as_slice(), looks)?;
    let statics = Statics::of(alloc, task)?;
    let indexed = IndexedTask {
        lifted: task,
        statics: &statics,
        atoms,
    };
    let mut actions = Listed::new(alloc);
    for (i, schema) in schemas.iter().enumerate() {
        add_actions(alloc, &indexed, i, schema, &mut actions, looks)?;
    }
    Ok(actions)
}

/// The ground actions of a lifted task: all instances of its schemas by objects of fitting types
/// whose static preconditions hold at first. They are in the order of the schemas in the text, and
/// then of their lists of objects, the first object most significant. Their atoms have the numbers
/// that they have in `atoms`, which must be those of the task. `TooManyActions`: there are more
/// than 65,536. `Stopped`: no look is left.
pub fn ground_actions(
    alloc: Global,
    lifted: &Lifted,
    atoms: &Atoms,
    looks: &mut Looks,
) -> Result<Listed<ActionInstance>, GroundError>
    ensures few { OnOk result (length (ground_actions lifted.now atoms.now) ≤ 65536) }
    ensures actions { IfOk result (λ actions. actions ≡ ground_actions lifted.now atoms.now) }
    ensures refused { IfErr result (TellsActions lifted.now atoms.now) }
    ensures stopped { IfErr result (TellsStop looks.new) }
    ensures since { looks.new.since ≡ looks.old.since }
    ensures rising { looks.old.taken ≤ looks.new.taken }
{
    actions_in(alloc, lifted, lifted.actions.as_slice(), atoms, looks)
}
