//! What came out of a made task.
use pb_check::Verdict;

/// What came out of a made task.
#[derive(Drop)]
pub enum MadeAnswer {
    /// The search came to its end, and the checker's verdict on its certificate: a cheapest plan
    /// has the cost, in steps, or no plan exists.
    Accepted { verdict: Verdict },
    /// The search used up its budget of expansions, and nothing is known.
    Stopped { budget: u64 },
}
