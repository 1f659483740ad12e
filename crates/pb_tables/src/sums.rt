//! Sums of values, one for each sum that the tables have.
ghost use Rattle.std.specs.Prelude.{◌≡◌, replicate};

/// How many sums there are at most.
pub const SUMS: usize = 64;

/// No value yet in any sum.
pub fn no_sums() -> [u64; SUMS]
    ensures { result ≡ replicate 64 0 }
{
    [0; SUMS]
}
