//! The ground actions of a STRIPS task, with their sets of atoms in three arrays.
ghost use Rattle.std.specs.Prelude.{◌≡◌, ◌<◌, ◌≤◌, ◌*◌, ◌++◌, ◌∷◌, [], IfOk, length};
ghost use Rattle.pb_packed.specs.Sizes.{state_bits};
ghost use Rattle.pb_packed.specs.Words.{number_of, AreWords};
ghost use Rattle.pb_task.specs.Strips.{action_at};

use crate::atom_sets::AtomSets;
use crate::parts::{ActionName, GroundAction};
use pb_packed::Packed;
use std::alloc::{AllocError, Global};
use std::marker::Model;

/// What is kept of a ground action beside its sets.
#[derive(Drop)]
pub struct Label {
    /// The action's name in a plan.
    pub name: ActionName,
    /// The action's cost.
    pub cost: u64,
}

/// The ground actions of a STRIPS task, in the order of their numbers. Their sets lie in three
/// arrays, each set in as few words as the greatest set of its array takes.
#[derive(Drop)]
pub struct Actions {
    labels: Vec<Label>,
    needs: AtomSets,
    adds: AtomSets,
    deletes: AtomSets,
}

impl Model for Actions {
    ghost use Rattle.std.specs.Prelude.{◌≡◌, List, length};
    ghost use Rattle.pb_task.specs.declared.parts.GroundAction.{GroundAction};
    ghost use Rattle.pb_task.specs.Actions.{actions_from};

    ghost Value = { List GroundAction };

    ghost view = { λ a. actions_from 0 a.labels.items a.needs.sets a.adds.sets a.deletes.sets };

    ghost invariant = { λ a. (length a.needs.sets ≡ length a.labels.items)
        × (length a.adds.sets ≡ length a.labels.items)
        × (length a.deletes.sets ≡ length a.labels.items) };
}

impl Actions {
    /// No actions.
    pub fn new(alloc: Global) -> Actions
        ensures { result ≡ [] }
    {
        Actions {
            labels: Vec::new(alloc),
            needs: AtomSets::new(alloc),
            adds: AtomSets::new(alloc),
            deletes: AtomSets::new(alloc),
        }
    }

    /// The same actions, and one more after them.
    pub fn with(self, action: GroundAction) -> Result<Actions, AllocError>
        ensures { IfOk result (λ actions. actions ≡ self ++ action ∷ []) }
    {
        // `self` is taken apart, so no actions whose arrays differ in length are left after an error.
        let Actions {
            mut labels,
            needs,
            adds,
            deletes,
        } = self;
        let needs = needs.with(&action.needs)?;
        let adds = adds.with(&action.adds)?;
        let deletes = deletes.with(&action.deletes)?;
        labels.push(Label {
            name: action.name,
            cost: action.cost,
        })?;
        Ok(Actions {
            labels,
            needs,
            adds,
            deletes,
        })
    }

    /// These actions.
    pub fn of(alloc: Global, all: Vec<GroundAction>) -> Result<Actions, AllocError>
        ensures { IfOk result (λ actions. actions ≡ all.items) }
    {
        let mut actions = Actions::new(alloc);
        for action in all {
            actions = actions.with(action)?;
        }
        Ok(actions)
    }

    /// How many actions there are.
    #[inline]
    pub fn len(&self) -> usize
        ensures { result ≡ length self.now }
    {
        self.labels.len()
    }

    /// The name of the action of a number.
    pub fn name(&self, at: usize) -> &str
        requires { at < length self.now }
        ensures { result.now ≡ (action_at self.now at).name }
    {
        self.labels[at].name.as_str()
    }

    /// The cost of the action of a number.
    #[inline]
    pub fn cost(&self, at: usize) -> u64
        requires { at < length self.now }
        ensures { result ≡ (action_at self.now at).cost }
    {
        self.labels[at].cost
    }

    /// The atoms that must hold before the action of a number.
    pub fn needs(&self, at: usize) -> Packed
        requires { at < length self.now }
        ensures { result ≡ (action_at self.now at).needs }
    {
        Packed::of_slice(self.words_of_needs(at))
    }

    /// The atoms that hold after the action of a number.
    pub fn adds(&self, at: usize) -> Packed
        requires { at < length self.now }
        ensures { result ≡ (action_at self.now at).adds }
    {
        Packed::of_slice(self.words_of_adds(at))
    }

    /// The atoms that the action of a number deletes.
    pub fn deletes(&self, at: usize) -> Packed
        requires { at < length self.now }
        ensures { result ≡ (action_at self.now at).deletes }
    {
        Packed::of_slice(self.words_of_deletes(at))
    }

    // The words of what an action needs.
    #[inline]
    pub(crate) fn words_of_needs(&self, at: usize) -> &[u64]
        requires { at < length self.now }
        ensures set { number_of result.now ≡ (action_at self.now at).needs }
        ensures words { AreWords (length result.now) result.now }
        ensures few { 64 * length result.now ≤ state_bits }
    {
        self.needs.at(at)
    }

    // The words of what an action adds.
    #[inline]
    pub(crate) fn words_of_adds(&self, at: usize) -> &[u64]
        requires { at < length self.now }
        ensures set { number_of result.now ≡ (action_at self.now at).adds }
        ensures words { AreWords (length result.now) result.now }
        ensures few { 64 * length result.now ≤ state_bits }
    {
        self.adds.at(at)
    }

    // The words of what an action deletes.
    #[inline]
    pub(crate) fn words_of_deletes(&self, at: usize) -> &[u64]
        requires { at < length self.now }
        ensures set { number_of result.now ≡ (action_at self.now at).deletes }
        ensures words { AreWords (length result.now) result.now }
        ensures few { 64 * length result.now ≤ state_bits }
    {
        self.deletes.at(at)
    }
}
