//! The queues.
ghost use Rattle.std.specs.Prelude.{◌<◌, ◌^◌, vec_len};

use crate::queue::Queue;
use crate::rule::LetterRule;

/// A queue for each owner. It is shared by reference, and is ended by `close`.
pub struct Post<K: LetterRule> {
    pub(crate) queues: Vec<Queue<K>>,
    ghost few: { vec_len queues < 2 ^ 32 },
}
