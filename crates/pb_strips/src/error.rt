//! Why a domain and a problem are no task, in the order in which causes are judged.
ghost use Rattle.std.specs.Prelude.{◌≡◌};
ghost use Rattle.pb_strips.specs.Packing.{of_lifted, of_ground, of_reach};
ghost use Rattle.pb_strips.specs.declared.error.StripsError.TheVariants.{Memory};

use pb_ground::GroundError;
use pb_lifted::{LiftedError, TypingRefusal};
use pb_reach::ReachError;
use std::alloc::{AllocError, AllocFailed};

/// Why a domain and a problem are no task: the first cause. If all ground atoms have numbers, the
/// causes come in the order of these variants. If only what is reached has numbers, `Refused` comes
/// first too, and then it goes round by round: too many actions of a round, or else too many atoms
/// after it. `Stopped` and `Memory` are no faults.
#[derive(Clone, Copy)]
pub enum StripsError {
    /// A name or a cost is at fault, or there are too many objects.
    Refused(TypingRefusal),
    /// There are more ground atoms than a task may have: n, or 4,294,967,295 if there are more
    /// than that. If only what is reached has numbers, after a round there are more of these: n, or
    /// 65,537 if there are more than that.
    TooManyAtoms { n: u64 },
    /// There are more than 65,536 ground actions, or a round takes more.
    TooManyActions,
    /// No look is left. It says nothing of the texts but that no fault comes before it: nothing is
    /// `Refused` and, if all ground atoms have numbers, there aren't too many of these.
    Stopped,
    /// Memory ran out.
    Memory,
}

impl From<LiftedError> for StripsError {
    ghost from_gives = { λ error e. e ≡ of_lifted error };

    fn from(error: LiftedError) -> Self {
        match error {
            LiftedError::Refused(refusal) => StripsError::Refused(refusal),
            LiftedError::Memory => StripsError::Memory,
        }
    }
}

impl From<GroundError> for StripsError {
    ghost from_gives = { λ error e. e ≡ of_ground error };

    fn from(error: GroundError) -> Self {
        match error {
            GroundError::TooManyAtoms { n } => StripsError::TooManyAtoms { n },
            GroundError::TooManyActions => StripsError::TooManyActions,
            GroundError::Stopped => StripsError::Stopped,
            GroundError::Memory => StripsError::Memory,
        }
    }
}

impl From<ReachError> for StripsError {
    ghost from_gives = { λ error e. e ≡ of_reach error };

    fn from(error: ReachError) -> Self {
        match error {
            ReachError::TooManyAtoms { n } => StripsError::TooManyAtoms { n },
            ReachError::TooManyActions => StripsError::TooManyActions,
            ReachError::Stopped => StripsError::Stopped,
            ReachError::Memory => StripsError::Memory,
        }
    }
}

impl From<AllocError> for StripsError {
    ghost from_gives = { λ _ e. e ≡ Memory };

    fn from(_: AllocError) -> Self {
        StripsError::Memory
    }
}
