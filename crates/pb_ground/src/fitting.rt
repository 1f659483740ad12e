//! Which objects fit a parameter, by the tree of types.
ghost use Rattle.std.specs.Prelude.{◌≡◌, IfOk, length, slice_index};
ghost use Rattle.pb_lifted.specs.Tree.{comes_to};
ghost use Rattle.pb_ground.specs.Instances.{fitting, candidates};
ghost use Rattle.pb_ground.specs.Members.{is_fitting};

use pb_lifted::Lifted;
use pb_pddl::Listed;
use std::alloc::{AllocError, Global};

// The type above a type. For a type after the end that is `object`.
fn above(types: &[usize], kind: usize) -> usize
    ensures { result ≡ slice_index types.now kind }
{
    if kind < types.len() { types[kind] } else { 0 }
}

/// Whether the first type is the second or below it. The way up ends at the latest at a type that
/// is above itself.
pub(crate) fn is_below(types: &[usize], from: usize, wanted: usize) -> bool
    ensures { result ≡ comes_to types.now (length types.now) from wanted }
{
    let mut now = from;
    for _ in 0..types.len() {
        if now == wanted {
            return true;
        }
        let next = above(types, now);
        if next == now {
            return false;
        }
        now = next;
    }
    now == wanted
}

/// Whether an object fits a parameter of this type.
pub(crate) fn is_fitting(lifted: &Lifted, wanted: usize, object: usize) -> bool
    ensures { result ≡ is_fitting lifted.now wanted object }
{
    let objects = lifted.objects.as_slice();
    object < objects.len() && is_below(lifted.types.as_slice(), objects[object], wanted)
}

/// The numbers of the objects that fit a parameter of this type. The call fails if memory runs out.
pub(crate) fn fitting(
    alloc: Global,
    lifted: &Lifted,
    wanted: usize,
) -> Result<Listed<usize>, AllocError>
    ensures { IfOk result (λ list. list ≡ fitting lifted.now wanted) }
{
    let types = lifted.types.as_slice();
    let mut list = Listed::new(alloc);
    for (i, kind) in lifted.objects.as_slice().iter().enumerate() {
        if is_below(types, *kind, wanted) {
            list.push(i)?;
        }
    }
    Ok(list)
}

/// For each parameter the objects that fit. The call fails if memory runs out.
pub(crate) fn candidates(
    alloc: Global,
    lifted: &Lifted,
    kinds: &[usize],
) -> Result<Listed<Listed<usize>>, AllocError>
    ensures { IfOk result (λ lists. lists ≡ candidates lifted.now kinds.now) }
{
    let mut lists = Listed::new(alloc);
    for kind in kinds {
        lists.push(fitting(alloc, lifted, *kind)?)?;
    }
    Ok(lists)
}
