//! How a certificate is spelled. The crates that write and that read certificates depend on this.
ghost use Rattle.std.specs.Prelude.{◌≡◌, ◌<◌, ◌≤◌, ◌^◌, ℕ, length, true};
ghost use Rattle.pb_estimate.specs.Estimates.{suits};
ghost use Rattle.pb_estimate.specs.Spelling.{IsSpelling, spelling_of, version_of, width_text, choice_text, estimate_text, stated_text, head_lines};

use crate::choice::{Choice, ChoiceCase};
use pb_table_lines::line_count;
use pb_task::{Grounding, Kind, Task};

/// What a certificate states beside the kind of its task and the width of its states.
#[derive(Drop)]
pub struct Stated {
    /// Which ground atoms and actions of its task have numbers.
    pub grounding: Grounding,
    /// The choice of the estimate by which its cut rows are judged.
    pub choice: Choice,
}

// How many lines of a certificate of version 3 say the choice of an estimate.
fn choice_lines(choice: &Choice) -> u128
    ensures lines { result ≡ length (choice_text choice.now) }
    ensures few { result ≤ 1 }
{
    match choice.case() {
        ChoiceCase::Plain => 0,
        ChoiceCase::Pattern(_) => 1,
        ChoiceCase::Tables(_) => 0,
    }
}

// How many lines of a certificate of version 4 say the choice of an estimate.
fn estimate_lines(choice: &Choice) -> u128
    ensures lines { (width : ℕ) → result ≡ length (estimate_text width choice.now) }
    ensures few { result < 2 ^ 78 }
{
    match choice.case() {
        ChoiceCase::Plain => 1,
        ChoiceCase::Pattern(_) => 1,
        ChoiceCase::Tables(tables) => line_count(tables),
    }
}

impl Stated {
    /// How many lines of a certificate of this version say it.
    pub fn lines(&self, version: Version) -> u128
        ensures lines { (width : ℕ) → result ≡ length (stated_text version width self.now) }
        ensures few { result ≤ 2 ^ 78 }
    {
        match version {
            Version::One | Version::Two => 0,
            Version::Three => choice_lines(&self.choice),
            Version::Four => 1 + estimate_lines(&self.choice),
        }
    }
}

/// The versions of the format of certificates.
#[derive(Clone, Copy, Debug, PartialEq, Eq)]
pub enum Version {
    /// States have 64 hexadecimal digits, and nothing is stated besides.
    One,
    /// A line states how many hexadecimal digits a state has, from 1 to 256.
    Two,
    /// Another line states the number of a pattern.
    Three,
    /// Of a STRIPS task alone. Lines behind the width state which ground atoms and actions have
    /// numbers, and the choice of an estimate: one line each, or as many as tables need.
    Four,
}

impl Version {
    /// How many lines of a certificate say how many digits a state has.
    pub fn width_lines(self) -> u32
        ensures lines { (width : ℕ) → result ≡ length (width_text self width) }
        ensures few { result ≤ 1 }
    {
        match self {
            Version::One => 0,
            Version::Two | Version::Three | Version::Four => 1,
        }
    }
}

/// How a certificate is spelled.
#[derive(Drop)]
pub struct Spelling {
    /// The kind of its task.
    pub kind: Kind,
    /// The version of the format.
    pub version: Version,
    /// How many hexadecimal digits a state has.
    pub width: u32,
    /// What it states besides.
    pub stated: Stated,
}

// The version in which a certificate of a task with this grounding is written whose search had this
// choice of an estimate.
fn version_of(grounding: Grounding, choice: &Choice) -> Version
    ensures { result ≡ version_of grounding choice.now }
{
    match (grounding, choice.case()) {
        (Grounding::Reachable, _) => Version::Four,
        (Grounding::All, ChoiceCase::Plain) => Version::Two,
        (Grounding::All, ChoiceCase::Pattern(_)) => Version::Three,
        (Grounding::All, ChoiceCase::Tables(_)) => Version::Four,
    }
}

impl Spelling {
    /// How a certificate of this task is written whose search had this choice of an estimate.
    pub fn of(task: &Task, choice: Choice) -> Spelling
        ensures spelling { result ≡ spelling_of task.now choice }
        ensures known { suits task.now choice ≡ true → IsSpelling result }
    {
        // Only lawful tables and a lawful task have a spelling: the two calls show that they are.
        let _ = choice.case();
        let _ = task.parts();
        let grounding = task.grounding();
        Spelling {
            kind: task.kind(),
            version: version_of(grounding, &choice),
            width: task.width(),
            stated: Stated { grounding, choice },
        }
    }

    /// How many lines come before a certificate's weight.
    pub fn head_lines(&self) -> u128
        ensures lines { result ≡ head_lines self.now }
        ensures few { result < 2 ^ 79 }
    {
        2 + u128::from(self.version.width_lines()) + self.stated.lines(self.version)
    }
}
