//! Actions that need the same and cost the same, merged into one that adds what any of them adds.
ghost use Rattle.std.specs.Prelude.{[], ◌∷◌, ◌≡◌, ℕ, ◌+◌, ◌^◌, ◌<◌, ◌≤◌, ◌++◌, List, IfOk, IfSome, OnOk, length};
ghost use Rattle.pb_packed.specs.Sizes.{most_atoms};
ghost use Rattle.pb_task.specs.declared.parts.GroundAction.{GroundAction};
ghost use Rattle.pb_task.specs.Strips.{action_at, IsGroundAction, IsStrips};
ghost use Rattle.pb_estimate.specs.Merged.{merged_at, StandFor};

use crate::atom_sets::{is_subset, with_new};
use pb_packed::Packed;
use pb_task::{Actions, StripsParts};
use std::alloc::{AllocError, Global};
use std::collections::BTreeMap;

/// Some ground actions that need the same atoms and cost the same, without what they delete.
#[derive(Clone, Copy)]
pub struct MergedAction {
    /// The atoms that each of them needs.
    pub needs: Packed,
    /// The atoms that any of them adds and doesn't need.
    pub adds: Packed,
    /// What each of them costs.
    pub cost: u32,
}

// What the merged actions have in common.
#[derive(Clone, Copy, PartialEq, Eq, PartialOrd, Ord)]
struct Common {
    needs: Packed,
    cost: u32,
}

// The merged actions so far. By what actions have in common, `places` has the place of the action
// into which they are merged. Each place that is found is looked at before it is used, so no proof
// depends on the map.
#[derive(Drop)]
struct Merging {
    actions: Vec<MergedAction>,
    places: BTreeMap<Common, usize>,
}

// The place of the merged action for actions that need these atoms and cost this, if it was found.
fn place_of(merging: &Merging, needs: &Packed, cost: u32) -> Option<usize>
    ensures { IfSome result (λ place. (place < length merging.now.actions.items)
        × ((merged_at merging.now.actions.items place).needs ≡ needs.now)
        × ((merged_at merging.now.actions.items place).cost ≡ cost)) }
{
    let common = Common {
        needs: *needs,
        cost,
    };
    let place = *merging.places.get(&common)?;
    if place >= merging.actions.len() {
        return None;
    }
    let merged = &merging.actions[place];
    if merged.needs == *needs && merged.cost == cost {
        Some(place)
    } else {
        None
    }
}

// Adds a merged action that adds nothing yet.
fn add_empty(merging: &mut Merging, needs: &Packed, cost: u32) -> Result<(), AllocError>
    ensures { OnOk result (merging.new.actions.items ≡ merging.old.actions.items
        ++ record { needs = needs.now; adds = 0; cost = cost } ∷ []) }
{
    let place = merging.actions.len();
    let common = Common {
        needs: *needs,
        cost,
    };
    merging.places.insert(common, place)?;
    merging.actions.push(MergedAction {
        needs: *needs,
        adds: Packed::zero(),
        cost,
    })?;
    Ok(())
}

// The place of the merged action for actions that need these atoms and cost this.
fn place_for(merging: &mut Merging, needs: &Packed, cost: u32) -> Result<usize, AllocError>
    ensures place { IfOk result (λ place. (place < length merging.new.actions.items)
        × ((merged_at merging.new.actions.items place).needs ≡ needs.now)
        × ((merged_at merging.new.actions.items place).cost ≡ cost)) }
    ensures few { OnOk result (length merging.new.actions.items
        ≤ length merging.old.actions.items + 1) }
    ensures stand { OnOk result ((count : ℕ) (before : List GroundAction) → cost ≤ 2 ^ 20
        → StandFor count before merging.old.actions.items
        → StandFor count before merging.new.actions.items) }
{
    match place_of(merging, needs, cost) {
        Some(place) => Ok(place),
        None => {
            let place = merging.actions.len();
            add_empty(merging, needs, cost)?;
            Ok(place)
        }
    }
}

// Lets the merged action at a place add what an action adds that needs and costs the same.
fn add_to(merging: &mut Merging, place: usize, adds: &Packed, needs: &Packed, count: u32)
    requires count { count ≤ most_atoms }
    requires place { place < length merging.old.actions.items }
    ensures few { length merging.new.actions.items ≡ length merging.old.actions.items }
    ensures stand { (before : List GroundAction) (action : GroundAction)
        → StandFor count before merging.old.actions.items → action.adds ≡ adds.now
        → action.needs ≡ needs.now
        → (merged_at merging.old.actions.items place).needs ≡ needs.now
        → (merged_at merging.old.actions.items place).cost ≡ action.cost
        → StandFor count (before ++ action ∷ []) merging.new.actions.items }
{
    let merged = merging.actions[place];
    let joined = with_new(&merged.adds, adds, needs, count);
    merging.actions[place] = MergedAction {
        needs: merged.needs,
        adds: joined,
        cost: merged.cost,
    };
}

// Merges one action more, unless it adds only what it needs: no atom is cheaper by such an action.
fn merge(merging: &mut Merging, actions: &Actions, at: usize, count: u32) -> Result<(), AllocError>
    requires count { count ≤ most_atoms }
    requires at { at < length actions.now }
    requires action { IsGroundAction count (action_at actions.now at) }
    ensures few { OnOk result (length merging.new.actions.items
        ≤ length merging.old.actions.items + 1) }
    ensures stand { OnOk result ((before : List GroundAction)
        → StandFor count before merging.old.actions.items
        → StandFor count (before ++ action_at actions.now at ∷ []) merging.new.actions.items) }
{
    let needs = actions.needs(at);
    let adds = actions.adds(at);
    if is_subset(&adds, &needs, count) {
        return Ok(());
    }
    let cost = actions.cost(at) as u32;
    let place = place_for(merging, &needs, cost)?;
    add_to(merging, place, &adds, &needs, count);
    Ok(())
}

/// The actions of a task, merged.
pub fn merged_actions(alloc: Global, strips: &StripsParts) -> Result<Vec<MergedAction>, AllocError>
    requires { IsStrips strips.now }
    ensures few { IfOk result (λ merged. length merged.items ≤ 65536) }
    ensures stand { IfOk result (λ merged. StandFor strips.now.atoms strips.now.actions
        merged.items) }
{
    let mut merging = Merging {
        actions: Vec::new(alloc),
        places: BTreeMap::new(alloc),
    };
    for at in 0..strips.actions.len() {
        merge(&mut merging, &strips.actions, at, strips.atoms)?;
    }
    let Merging { actions, places } = merging;
    drop(places);
    Ok(actions)
}
