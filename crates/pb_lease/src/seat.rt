//! What a worker has.
ghost use Rattle.std.specs.Prelude.{◌≡◌};
ghost use Rattle.pb_lease.specs.Tables.{vacant};

use pb_machine::Grant;

/// What a worker has.
#[derive(Clone, Copy)]
pub struct Seat {
    /// Its lease, or None.
    pub grant: Option<Grant>,
    /// For how many events there is room in the journal, beside the return of the worker's lease:
    /// renewals, hot marks, and marks taken away. It is 0 if the worker has no lease.
    pub room: u32,
    /// Whether it has signed off.
    pub signed_off: bool,
}

impl Seat {
    /// That of a worker that hasn't had a lease yet.
    pub const VACANT: Seat = Seat {
        grant: None,
        room: 0,
        signed_off: false,
    };
}
