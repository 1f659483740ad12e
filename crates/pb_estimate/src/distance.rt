//! The Manhattan distance of two cells.
ghost use Rattle.std.specs.Prelude.{◌≡◌};
ghost use Rattle.pb_estimate.specs.Estimates.{apart, manhattan};

// How far two numbers are apart.
fn apart(n: u32, m: u32) -> u32
    ensures { result ≡ apart n m }
{
    if n < m { m - n } else { n - m }
}

/// The Manhattan distance of two cells, each given by its column and row, in steps.
pub fn manhattan(from: (u32, u32), to: (u32, u32)) -> u64
    ensures { result ≡ manhattan from to }
{
    u64::from(apart(from.0, to.0)) + u64::from(apart(from.1, to.1))
}
