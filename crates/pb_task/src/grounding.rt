//! Which ground atoms and actions of a STRIPS task have numbers.
ghost use Rattle.std.specs.Prelude.{◌≡◌, ◌≤◌, length};
ghost use Rattle.pb_task.specs.Groundings.{grounding_name};

/// Which ground atoms and actions of a STRIPS task have numbers.
#[derive(Clone, Copy, Debug, PartialEq, Eq)]
pub enum Grounding {
    /// All ground atoms of the predicates that actions change, and each ground action whose static
    /// preconditions hold.
    All,
    /// Those atoms that the delete relaxation reaches, and each ground action whose preconditions it
    /// reaches (Helmert, "Concise finite-domain representations for PDDL planning tasks", 2009).
    Reachable,
}

impl Grounding {
    /// What a certificate calls it.
    pub fn name(&self) -> &'static str
        ensures name { result.now ≡ grounding_name self.now }
        ensures short { length result.now ≤ 16 }
    {
        match self {
            Grounding::All => "all",
            Grounding::Reachable => "reachable",
        }
    }
}
