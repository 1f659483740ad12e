//! Counting the ground atoms of a lifted task without building them.
ghost use Rattle.std.specs.Prelude.{◌≡◌, length};
ghost use Rattle.pb_ground.specs.Atoms.{ground_atoms};
ghost use Rattle.pb_ground.specs.Errors.{told};
ghost use Rattle.pb_ground.specs.Instances.{fitting, instances};
ghost use Rattle.pb_ground.specs.Pruning.{AreFluent};

use crate::fitting::is_below;
use pb_lifted::Lifted;
use std::collections::BTreeSet;

/// The greatest number of atoms that is reported.
const MOST: u64 = 4_294_967_295;

// How many objects fit a parameter of this type.
fn count_fitting(lifted: &Lifted, wanted: usize) -> usize
    ensures { result ≡ length (fitting lifted.now wanted) }
{
    let types = lifted.types.as_slice();
    let mut count = 0;
    for kind in lifted.objects.as_slice() {
        if is_below(types, *kind, wanted) {
            count += 1;
        }
    }
    count
}

// How many instances parameters of these types have, or the greatest number that is reported.
fn count_instances(lifted: &Lifted, kinds: &[usize]) -> u64
    ensures { result ≡ told (length (instances lifted.now kinds.now)) }
{
    let mut count: u64 = 1;
    for kind in kinds {
        // A later factor 0 still gives 0, and any other keeps the count at `MOST`.
        count = count
            .saturating_mul(count_fitting(lifted, *kind) as u64)
            .min(MOST);
    }
    count
}

/// How many ground atoms there are, or the greatest number that is reported. None of them is built.
pub(crate) fn count_atoms(fluent: &BTreeSet<usize>, lifted: &Lifted) -> u64
    requires { AreFluent fluent.now lifted.now }
    ensures { result ≡ told (length (ground_atoms lifted.now)) }
{
    let mut count: u64 = 0;
    for (predicate, kinds) in lifted.predicates.as_slice().iter().enumerate() {
        if fluent.contains(&predicate) {
            // Both are at most `MOST`, so the sum cannot wrap.
            count = (count + count_instances(lifted, kinds.as_slice())).min(MOST);
        }
    }
    count
}
