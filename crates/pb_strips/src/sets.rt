//! Sets of atoms as packed states.
ghost use Rattle.std.specs.Prelude.{◌≡◌, ◌≤◌, ℕ};
ghost use Rattle.pb_packed.specs.Sizes.{most_atoms};
ghost use Rattle.pb_strips.specs.Grounding.{numbered_set};
ghost use Rattle.pb_strips.specs.Packing.{AreAtoms};

use pb_packed::Packed;

/// The set of the atoms of these numbers.
pub(crate) fn set_of(numbers: &[usize]) -> Packed
    requires { AreAtoms most_atoms numbers.now }
    ensures { (count : ℕ) → count ≤ most_atoms → AreAtoms count numbers.now
        → result ≡ numbered_set count numbers.now }
{
    let mut set = Packed::zero();
    for n in numbers {
        // Nothing is cut off: each number is below `MOST_ATOMS`.
        set = set.with(*n as u32, true);
    }
    set
}
