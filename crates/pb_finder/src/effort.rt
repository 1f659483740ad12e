//! How much the finder looks at.

/// How much the finder looks at. All numbers are fixed by the effort, so that the same task and
/// effort give the same tables.
#[derive(Clone, Copy)]
pub struct Limits {
    /// How many candidates for groups are looked at for one atom, beside two for each atom that
    /// there is.
    pub candidates: usize,
    /// How many images a pattern has at most.
    pub images: usize,
    /// How many images all patterns have together.
    pub all_images: usize,
    /// How many steps all patterns have together.
    pub all_steps: usize,
    /// How many pairs of an image and an action are looked at for all patterns together.
    pub looks: usize,
    /// How many orders of the patterns are tried.
    pub orders: usize,
    /// How many values all sums have together.
    pub values: usize,
}

/// The limits of an effort from 1 to 20. Another number counts as the nearest of these.
pub fn limits_of(effort: u32) -> Limits {
    let effort = effort.clamp(1, 20) as usize;
    Limits {
        candidates: 200 * effort,
        images: 5000 * effort.min(10),
        all_images: 100_000 * effort,
        all_steps: 1_000_000 * effort,
        looks: 2_000_000 * effort,
        orders: 6 * effort.min(10),
        values: 1_000_000 * effort,
    }
}
