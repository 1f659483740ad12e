//! The first of the places that several workers found.
ghost use Rattle.std.specs.Prelude.{◌≡◌, ◌<◌};
ghost use Rattle.pb_check.specs.Pieces.{earlier, found_of};

use crate::fault::CertificateFault;

/// A place among the rows, and the fault of the row there.
#[derive(Clone, Copy)]
pub struct Found {
    pub place: u64,
    pub fault: CertificateFault,
}

/// The earlier of two places.
pub fn earlier(one: Option<Found>, other: Option<Found>) -> Option<Found>
    ensures { found_of result ≡ earlier (found_of one) (found_of other) }
{
    match (one, other) {
        (None, other) => other,
        (Some(one), None) => Some(one),
        (Some(one), Some(other)) => {
            if other.place < one.place {
                Some(other)
            } else {
                Some(one)
            }
        }
    }
}
