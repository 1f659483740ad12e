//! Adding the successor by one action to a list of successors.
ghost use Rattle.std.specs.Prelude.{◌≡◌, ◌<◌, ◌≤◌, ◌+◌, ◌++◌, Some, vec_capacity, vec_len};
ghost use Rattle.pb_model.specs.Space.{successor_list};

use pb_model::Succ;
use pb_packed::Packed;

/// Adds the successor by an action to a list that has room for it.
#[inline]
pub fn push_successor(out: &mut Vec<Succ>, action: u32, state: Packed, cost: u64)
    requires { vec_len out.old < vec_capacity out.old }
    ensures items { out.new.items ≡ out.old.items ++ successor_list action (Some (state, cost)) }
    ensures len { vec_len out.new ≤ vec_len out.old + 1 }
    ensures room { vec_capacity out.old ≤ vec_capacity out.new }
{
    out.push_reserved(Succ {
        action,
        state,
        cost,
    });
}

/// Adds the successor by an action, if it is applicable, to a list that has room for it. Its state
/// is one word: a whole state is copied only into the list.
#[inline]
pub fn push_step(out: &mut Vec<Succ>, action: u32, step: Option<(u64, u64)>)
    requires { vec_len out.old < vec_capacity out.old }
    ensures items { out.new.items ≡ out.old.items ++ successor_list action step }
    ensures len { vec_len out.new ≤ vec_len out.old + 1 }
    ensures room { vec_capacity out.old ≤ vec_capacity out.new }
{
    if let Some((word, cost)) = step {
        push_successor(out, action, Packed::of_word(word), cost);
    }
}
