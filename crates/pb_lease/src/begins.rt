//! The beginnings of a run. Each law is the contract of a function without a body.
ghost use Rattle.pb_lease.specs.Begins.{LawfulMomentsBegin, ReopenedGraphsBegin};

use pb_machine::reopening_is_lawful;

/// A run may begin at any lawful moment without an event at which each worker knows the incumbent
/// alone.
pub fn lawful_moments_begin()
    ensures { LawfulMomentsBegin }
{}

/// A graph at a quiet end begins another run when it is opened again with another weight.
pub fn reopened_graphs_begin()
    ensures { ReopenedGraphsBegin }
{
    reopening_is_lawful();
}
