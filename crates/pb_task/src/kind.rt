//! The kinds of tasks, and what command lines and certificates call them.
ghost use Rattle.std.specs.Prelude.{◌≡◌, ◌≤◌, length};
ghost use Rattle.pb_task.specs.Kinds.{kind_name};

/// The kinds of tasks.
#[derive(Clone, Copy, Debug, PartialEq, Eq)]
pub enum Kind {
    /// A way on a map.
    Grid,
    /// A sliding-tile puzzle.
    Tiles,
    /// A task over sets of atoms.
    Strips,
}

impl Kind {
    /// What a command line and a certificate call the kind.
    pub fn name(&self) -> &'static str
        ensures name { result.now ≡ kind_name self.now }
        ensures short { length result.now ≤ 16 }
    {
        match self {
            Kind::Grid => "grid",
            Kind::Tiles => "tiles",
            Kind::Strips => "strips",
        }
    }
}
