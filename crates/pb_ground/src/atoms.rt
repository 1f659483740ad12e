//! The ground atoms of a lifted task and their numbers.
ghost use Rattle.std.specs.Prelude.{◌≡◌, ◌<◌, ◌≤◌, ◌++◌, ◌∷◌, map, length, IfOk, OnOk, IfErr};
ghost use Rattle.std.specs.Cmp.Lexicographic.{slice_cmp};
ghost use Rattle.std.specs.Ordering.{nat_cmp};
ghost use Rattle.pb_packed.specs.Sizes.{most_atoms};
ghost use Rattle.pb_ground.specs.Atoms.{ground_atoms, atoms_of, number_in, atom_of};
ghost use Rattle.pb_ground.specs.Errors.{TellsAtoms};
ghost use Rattle.pb_ground.specs.Order.{AreRising, row_in};
ghost use Rattle.pb_ground.specs.Pruning.{AreFluent, row_of};

use crate::count::count_atoms;
use crate::error::GroundError;
use crate::fitting::candidates;
use crate::search::{choices_of, copy_of};
use crate::statics::fluent_of;
use pb_lifted::Lifted;
use pb_packed::MOST_ATOMS;
use pb_pddl::Listed;
use std::alloc::{AllocError, Global};
use std::cmp::Ordering;
use std::collections::BTreeSet;
use std::marker::Model;

/// A predicate of objects, by numbers: a fact that a step can change.
#[derive(Drop)]
pub struct GroundAtom {
    pub predicate: usize,
    pub objects: Listed<usize>,
}

/// The ground atoms in the order of their numbers: by their predicates, and then by their objects.
/// A contract sees the list of them.
#[derive(Drop)]
pub struct Atoms {
    items: Listed<GroundAtom>,
}

impl Model for Atoms {
    ghost use Rattle.std.specs.Prelude.{List};
    ghost use Rattle.pb_ground.specs.declared.atoms.GroundAtom.{GroundAtom};
    ghost use Rattle.pb_ground.specs.Order.{AreRising};

    ghost Value = { List GroundAtom };

    ghost view = { λ a. a.items };

    ghost invariant = { λ a. AreRising a.items };
}

impl GroundAtom {
    // How it compares with the atom of this predicate and these objects.
    fn compare(&self, predicate: usize, objects: &[usize]) -> Ordering
        ensures { result ≡ slice_cmp nat_cmp (row_of self.now) (predicate ∷ objects.now) }
    {
        let by_objects = self.objects.as_slice().cmp(objects);
        self.predicate.cmp(&predicate).then(by_objects)
    }
}

impl Atoms {
    /// Some ground atoms in their order, each once. An atom's number is its place among them.
    pub fn of(items: Listed<GroundAtom>) -> Atoms
        requires { AreRising items }
        ensures { result ≡ items }
    {
        Atoms { items }
    }

    /// The atoms, the one of number 0 first.
    pub fn as_slice(&self) -> &[GroundAtom]
        ensures { result.now ≡ self.now }
    {
        self.items.as_slice()
    }

    // How many atoms there are.
    fn len(&self) -> usize
        ensures { result ≡ length self.now }
    {
        self.items.as_slice().len()
    }

    // How the atom of this number compares with that of this predicate and these objects.
    fn compare_at(&self, i: usize, predicate: usize, objects: &[usize]) -> Ordering
        requires { i < length self.now }
        ensures { result ≡ slice_cmp nat_cmp (row_in self.now i) (predicate ∷ objects.now) }
    {
        self.items.as_slice()[i].compare(predicate, objects)
    }

    /// The number of the atom of this predicate and these objects, or None if it is none of these
    /// atoms. It is found by halving, since the atoms rise.
    pub fn number(&self, predicate: usize, objects: &[usize]) -> Option<usize>
        ensures { result ≡ number_in (atom_of predicate objects.now) self.now }
    {
        // that the atoms rise
        let _ = &self.items;
        let mut low = 0;
        let mut high = self.len();
        while low < high {
            let middle = low + (high - low) / 2;
            match self.compare_at(middle, predicate, objects) {
                Ordering::Less => low = middle + 1,
                Ordering::Greater => high = middle,
                Ordering::Equal => return Some(middle),
            }
        }
        None
    }
}

// Adds the atoms of a predicate with each of these lists of objects.
fn add_rows(
    alloc: Global,
    predicate: usize,
    rows: &[Listed<usize>],
    atoms: &mut Listed<GroundAtom>,
) -> Result<(), AllocError>
    ensures { OnOk result (atoms.new ≡ atoms.old ++ map (λ objects. atom_of predicate objects)
        rows.now) }
{
    for row in rows {
        let objects = copy_of(alloc, row.as_slice())?;
        atoms.push(GroundAtom { predicate, objects })?;
    }
    Ok(())
}

// Adds the ground atoms of a predicate whose parameters are of these types. The call fails if
// memory runs out.
fn add_atoms(
    alloc: Global,
    fluent: &BTreeSet<usize>,
    lifted: &Lifted,
    predicate: usize,
    kinds: &[usize],
    atoms: &mut Listed<GroundAtom>,
) -> Result<(), AllocError>
    requires { AreFluent fluent.now lifted.now }
    ensures { OnOk result (atoms.new ≡ atoms.old ++ atoms_of lifted.now predicate kinds.now) }
{
    if !fluent.contains(&predicate) {
        return Ok(());
    }
    let lists = candidates(alloc, lifted, kinds)?;
    let rows = choices_of(alloc, lists.as_slice())?;
    add_rows(alloc, predicate, rows.as_slice(), atoms)
}

/// The ground atoms of a lifted task: all instances of its fluent predicates by objects of fitting
/// types. They are in the order of the declarations, and then of their lists of objects, the first
/// object most significant. `TooManyAtoms`: there are more than a task may have; they are counted
/// before any is built.
pub fn ground_atoms(alloc: Global, lifted: &Lifted) -> Result<Atoms, GroundError>
    ensures few { OnOk result (length (ground_atoms lifted.now) ≤ most_atoms) }
    ensures atoms { IfOk result (λ atoms. atoms ≡ ground_atoms lifted.now) }
    ensures refused { IfErr result (TellsAtoms lifted.now) }
{
    let fluent = fluent_of(alloc, lifted.actions.as_slice())?;
    let n = count_atoms(&fluent, lifted);
    if n > u64::from(MOST_ATOMS) {
        return Err(GroundError::TooManyAtoms { n });
    }
    let mut items = Listed::new(alloc);
    for (predicate, kinds) in lifted.predicates.as_slice().iter().enumerate() {
        let kinds = kinds.as_slice();
        add_atoms(alloc, &fluent, lifted, predicate, kinds, &mut items)?;
    }
    Ok(Atoms { items })
}
