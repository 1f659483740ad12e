//! The lines of a plan's actions.
ghost use Rattle.std.specs.Prelude.{◌≡◌, ◌≤◌, ◌+◌, ◌<◌, ◌^◌, length, IfOk};
ghost use Rattle.pb_check.specs.Faults.{Gives};
ghost use Rattle.pb_check.specs.Reading.{actions_at};

use crate::fault::CheckError;
use crate::line::number_at;
use std::marker::Model;

/// The actions of a plan, in lines of the text that lie one after another. They are read again
/// where the plan is walked, so they take no memory, however many they are. Contracts see their
/// list.
#[derive(Drop)]
pub struct StatedActions<'a> {
    pub(crate) count: u64,
    /// The number of the first one's line.
    pub(crate) line: u64,
    /// The text from that line on.
    pub(crate) text: &'a [u8],
}

impl<'a> Model for StatedActions<'a> {
    ghost use Rattle.std.specs.Prelude.{List, ℕ, ◌+◌, ◌<◌, ◌^◌};
    ghost use Rattle.pb_check.specs.PlanLines.{actions_in, AreActions};

    ghost Value = { List ℕ };

    ghost view = { λ a. actions_in a.count a.line a.text.now };

    ghost invariant = { λ a. AreActions a.count a.line a.text.now × (a.line + a.count < 2 ^ 64) };
}

impl<'a> StatedActions<'a> {
    /// How many actions there are.
    pub fn len(&self) -> u64
        ensures { result ≡ length self.now }
    {
        self.count
    }
}

/// That many actions, one a line.
pub fn actions_at(
    count: u64,
    line: u64,
    text: &[u8],
) -> Result<(StatedActions<'_>, &[u8]), CheckError>
    requires { line + length text.now < 2 ^ 64 }
    ensures gives { Gives (λ x. (x.0, x.1.now)) result (actions_at count line text.now) }
    ensures shorter { IfOk result (λ x. length x.1.now + length x.0 ≤ length text.now) }
    ensures many { IfOk result (λ x. length x.0 ≡ count) }
{
    let mut rest = text;
    for i in 0..count {
        let (_, after) = number_at(line + i, rest, b"")?;
        rest = after;
    }
    Ok((StatedActions { count, line, text }, rest))
}
