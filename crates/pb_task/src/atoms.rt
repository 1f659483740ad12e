//! Finding the atoms of a set, one after another.
ghost use Rattle.std.specs.Prelude.{◌≡◌, ℕ, ◌<◌, ◌≤◌, true, false};
ghost use Rattle.pb_packed.specs.Sizes.{most_atoms};
ghost use Rattle.pb_task.specs.Strips.{has_atom};

use pb_packed::Packed;

/// The first atom from one on that is in a set, and `count` if none below it is.
pub fn next_atom(set: &Packed, from: u32, count: u32) -> u32
    requires count { count ≤ most_atoms }
    requires from { from ≤ count }
    ensures from { from ≤ result }
    ensures most { result ≤ count }
    ensures none { (atom : ℕ) → from ≤ atom → atom < result → has_atom set.now atom ≡ false }
    ensures has { result < count → has_atom set.now result ≡ true }
{
    let mut at = from;
    while at < count {
        let len = (count - at).min(64);
        let word = set.bits(at, len);
        if word != 0 {
            return at + word.trailing_zeros();
        }
        at += len;
    }
    count
}
