//! Searches among what the workers have.
ghost use Rattle.std.specs.Prelude.{◌≡◌, ◌==◌, ℕ, length, is_some};
ghost use Rattle.pb_machine.specs.Tables.{any_below};
ghost use Rattle.pb_machine.specs.Counts.{is_lease_of};
ghost use Rattle.pb_lease.specs.Tables.{seat_of};

use crate::seat::Seat;

/// Whether some worker has a lease of this very block.
pub fn is_leased(seats: &[Seat], block: u32) -> bool
    ensures { result ≡ any_below (length seats.now)
        (λ worker. is_lease_of (λ b. b == block) (seat_of seats.now worker).grant) }
{
    for seat in seats {
        if let Some(grant) = seat.grant {
            if grant.block == block {
                return true;
            }
        }
    }
    false
}

/// Whether some worker has a lease.
pub fn is_any_out(seats: &[Seat]) -> bool
    ensures { result ≡ any_below (length seats.now)
        (λ worker. is_some (seat_of seats.now worker).grant) }
{
    for seat in seats {
        if seat.grant.is_some() {
            return true;
        }
    }
    false
}
