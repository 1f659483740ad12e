//! A mark for each action of a task: a bit of a word, 64 actions a word.
ghost use Rattle.std.specs.Prelude.{◌≡◌, ℕ, ◌<◌, ◌≤◌, ◌*◌, length, true, false};
ghost use Rattle.pb_task.specs.Marks.{is_marked};

/// The first marked action from one on, and `count` if none below it is marked.
#[inline]
pub fn next_marked(marks: &[u64], from: u32, count: u32) -> u32
    requires from { from ≤ count }
    requires few { count ≤ 65536 }
    requires room { count ≤ 64 * length marks.now }
    ensures from { from ≤ result }
    ensures most { result ≤ count }
    ensures none { (action : ℕ) → from ≤ action → action < result
        → is_marked marks.now action ≡ false }
    ensures marked { result < count → is_marked marks.now result ≡ true }
{
    let mut at = from;
    while at < count {
        let word = marks[(at / 64) as usize] >> (at % 64);
        if word != 0 {
            return count.min(at + word.trailing_zeros());
        }
        at = (at / 64 + 1) * 64;
    }
    count
}
