//! A mark for each action of a task: a bit of a word, 64 actions a word.
ghost use Rattle.std.specs.Prelude.{◌≡◌, ◌≢◌, ℕ, ◌<◌, ◌*◌, All, length, true};
ghost use Rattle.pb_task.specs.Marks.{is_marked};

/// Marks an action.
pub fn mark(marks: &mut [u64], action: u16)
    requires { action < 64 * length marks.old }
    ensures marked { is_marked marks.new action ≡ true }
    ensures others { (other : ℕ) → other ≢ action
        → is_marked marks.new other ≡ is_marked marks.old other }
{
    let at = (action / 64) as usize;
    marks[at] = marks[at] | 1 << (action % 64);
}

/// Marks some actions.
pub fn mark_each(marks: &mut [u64], actions: &[u16])
    requires { All (λ action. action < 64 * length marks.old) actions.now }
    ensures marked { All (λ action. is_marked marks.new action ≡ true) actions.now }
    ensures kept { (action : ℕ) → is_marked marks.old action ≡ true
        → is_marked marks.new action ≡ true }
{
    for action in actions {
        mark(marks, *action);
    }
}
