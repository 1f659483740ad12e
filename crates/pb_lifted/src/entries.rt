//! Looking up the declaration of a name.
ghost use Rattle.std.specs.Prelude.{◌≡◌, ◌++◌, map, find, option_copied, slice_get};
ghost use Rattle.std.specs.Str.{bytes_eq};
ghost use Rattle.pb_lifted.specs.Types.{name_text};
ghost use Rattle.pb_lifted.specs.Objects.{entry_of};

use crate::declared::Declared;
use crate::names::Names;
use pb_pddl::Typed;

// The element at a place, or None after the end.
fn item<T>(items: &[T], place: usize) -> Option<&T>
    ensures { option_copied result ≡ slice_get items.now place }
{
    items.get(place)
}

/// The first declaration of a name, or None if there is none. The names are those of the list, in
/// order.
#[tactic(auto, using(crate::proofs::Found::first_found))]
pub(crate) fn entry<'a, T: Declared>(names: &Names, items: &'a [T], text: &[u8]) -> Option<&'a T>
    requires { names.now ≡ map (λ i. (T.name_of i).text) items.now }
    ensures { option_copied result ≡ find (λ i. bytes_eq text.now (T.name_of i).text) items.now }
{
    match names.find(text) {
        Some(i) => item(items, i),
        None => None,
    }
}

/// The object of a name, or None if no object has the name. The names are those of the constants
/// and then of the problem's objects.
#[tactic(auto, using(crate::proofs::Found::first_found))]
pub(crate) fn object<'a>(
    names: &Names,
    constants: &'a [Typed],
    objects: &'a [Typed],
    text: &[u8],
) -> Option<&'a Typed>
    requires { names.now ≡ map name_text (constants.now ++ objects.now) }
    ensures { option_copied result ≡ entry_of (constants.now ++ objects.now) text.now }
{
    match names.find(text) {
        Some(i) => {
            if i < constants.len() {
                item(constants, i)
            } else {
                item(objects, i - constants.len())
            }
        }
        None => None,
    }
}
