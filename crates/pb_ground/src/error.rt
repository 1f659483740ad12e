//! Why a lifted task was not grounded.
ghost use Rattle.std.specs.Prelude.{◌≡◌};
ghost use Rattle.pb_ground.specs.declared.error.GroundError.TheVariants.{Memory};

use std::alloc::{AllocError, AllocFailed};

/// Why a lifted task was not grounded.
#[derive(Clone, Copy, Debug)]
pub enum GroundError {
    /// There are more ground atoms than a task may have: n, or 4,294,967,295 if there are more than that.
    TooManyAtoms { n: u64 },
    /// There are more than 65,536 ground actions.
    TooManyActions,
    /// No look is left. It says nothing of the task.
    Stopped,
    /// Memory ran out.
    Memory,
}

impl From<AllocError> for GroundError {
    ghost from_gives = { λ _ e. e ≡ Memory };

    fn from(_: AllocError) -> Self {
        GroundError::Memory
    }
}

impl<T: Drop> From<AllocFailed<T>> for GroundError {
    ghost from_gives = { λ _ e. e ≡ Memory };

    fn from(_: AllocFailed<T>) -> Self {
        GroundError::Memory
    }
}
