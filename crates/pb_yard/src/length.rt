//! How long the journal of a run can be. Each law is the contract of a function without a body.
ghost use Rattle.pb_yard.specs.Length.{LeasesAreFew, RunsAreShort};

/// A run in time has few leases. Each lease that comes back closes a row, unless its worker is out
/// of memory, and only expansions bring new rows to close.
pub fn leases_are_few()
    ensures { LeasesAreFew }
{}

/// Let a finished run in time keep within the room of its leases, and not end out of memory. Then
/// its journal is short.
pub fn runs_are_short()
    ensures { RunsAreShort }
{}
