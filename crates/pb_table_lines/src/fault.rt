//! The error of reading lines that should state tables.
ghost use Rattle.std.specs.Prelude.{◌≡◌};
ghost use Rattle.pb_table_lines.specs.declared.fault.LinesError.TheVariants.{Memory};

use std::alloc::{AllocError, AllocFailed};

/// Why lines state no tables.
#[derive(Clone, Copy)]
pub enum LinesError {
    /// The first line that isn't spelled as it must be. A line that is missing, isn't ended or
    /// follows has the number after the last right line.
    Unspelled { line: u64 },
    /// Out of memory.
    Memory,
}

impl From<AllocError> for LinesError {
    ghost from_gives = { λ _ e. e ≡ Memory };

    fn from(_: AllocError) -> LinesError {
        LinesError::Memory
    }
}

impl<T: Drop> From<AllocFailed<T>> for LinesError {
    ghost from_gives = { λ _ e. e ≡ Memory };

    fn from(_: AllocFailed<T>) -> LinesError {
        LinesError::Memory
    }
}
