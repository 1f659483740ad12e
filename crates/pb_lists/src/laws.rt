//! The laws of this crate. Each is the contract of a function without a body.
ghost use Rattle.pb_lists.specs.Laws.{KeysAreOrdered, EntriesAreRows};

/// The comparison of two keys says which comes first.
pub fn keys_are_ordered()
    ensures { KeysAreOrdered }
{}

/// The entries of a bundle are the states that have a row, with their rows.
pub fn entries_are_rows()
    ensures { EntriesAreRows }
{}
