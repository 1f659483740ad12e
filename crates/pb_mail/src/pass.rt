//! What one owner carries.
ghost use Rattle.std.specs.Prelude.{◌≡◌};

use crate::queue::QueuePass;

/// What one owner carries: its number, and what it knows of each queue.
#[derive(Drop)]
pub struct PostPass {
    pub(crate) queue_passes: Vec<QueuePass>,
    pub(crate) number: u32,
    pub(crate) made: u32,
}

impl PostPass {
    /// Its owner's number.
    pub fn number(&self) -> u32
        ensures { result ≡ self.now.number }
    {
        self.number
    }
}
