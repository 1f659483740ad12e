//! Costs of images, and a look at one step that may lower such a cost.
ghost use Rattle.std.specs.Prelude.{◌≡◌, ◌<◌, ◌≤◌, ◌^◌, ℕ, IfSome, length};
ghost use Rattle.pb_pattern.specs.Costs.{cost_in, is_cheaper, costs_after};

/// The cost of an image from which no walk to a goal is known. Each least cost is less, so the sum
/// of a step's cost and any cost of a table fits, and there is one comparison for known and unknown
/// costs.
pub const UNKNOWN: u64 = 1 << 62;

/// Looks at a step from an image: whether it makes the image cheaper. Then the image has the new
/// cost. The step is the image that it leads to and its cost, or None if there is none.
#[inline]
pub fn relax(costs: &mut [u64], from: u32, step: Option<(u32, u64)>) -> bool
    requires from { from < length costs.old }
    requires step { IfSome step (λ step. (step.0 < length costs.old) × (step.1 ≤ 2 ^ 20)) }
    requires small { (image : ℕ) → cost_in costs.old image ≤ 2 ^ 62 }
    ensures after { costs.new ≡ costs_after costs.old from step }
    ensures changed { result ≡ is_cheaper costs.old from step }
{
    let Some((to, price)) = step else {
        return false;
    };
    // It fits: `UNKNOWN` is 2^62, and a step costs at most 2^20.
    let cost = price + costs[to as usize];
    if cost < costs[from as usize] {
        costs[from as usize] = cost;
        true
    } else {
        false
    }
}
