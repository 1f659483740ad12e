//! Numbers by block. An event changes the numbers of one interference by one.
ghost use Rattle.std.specs.Prelude.{◌≡◌, ◌==◌, ◌+◌, ◌-◌, ◌<◌, ◌≤◌, ◌^◌, ℕ, true, length, All, get_or};
ghost use Rattle.std.specs.List.Sorted.{IsStrictlyIncreasing};
ghost use Rattle.pb_machine.specs.Tables.{one_if};
ghost use Rattle.pb_abstract.specs.Graph.{has};

/// Adds one at each of these blocks.
pub fn raise(counters: &mut Vec<u32>, near: &[u32])
    requires inside { All (λ c. c < length counters.old.items) near.now }
    requires ascending { IsStrictlyIncreasing near.now }
    requires small { (c : ℕ) → get_or counters.old.items c 0 + 1 < 2 ^ 32 }
    ensures length { length counters.new.items ≡ length counters.old.items }
    ensures each { (c : ℕ) → get_or counters.new.items c 0
        ≡ get_or counters.old.items c 0 + one_if (has near.now c) }
{
    for block in near {
        counters[*block as usize] += 1;
    }
}

/// Takes one at each of these blocks.
pub fn lower(counters: &mut Vec<u32>, near: &[u32])
    requires inside { All (λ c. c < length counters.old.items) near.now }
    requires ascending { IsStrictlyIncreasing near.now }
    requires some { (c : ℕ) → has near.now c ≡ true → 1 ≤ get_or counters.old.items c 0 }
    ensures length { length counters.new.items ≡ length counters.old.items }
    ensures each { (c : ℕ) → get_or counters.new.items c 0 + one_if (has near.now c)
        ≡ get_or counters.old.items c 0 }
{
    for block in near {
        counters[*block as usize] -= 1;
    }
}

/// 1 if the block is among these, and 0 if it isn't.
pub fn count_of(near: &[u32], block: u32) -> u32
    ensures { result ≡ one_if (has near.now block) }
{
    u32::from(near.contains(&block))
}
