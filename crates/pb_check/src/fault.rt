//! Why a certificate is refused, and the verdict on one that isn't.
ghost use Rattle.std.specs.Prelude.{◌≡◌};
ghost use Rattle.pb_check.specs.declared.fault.CheckError.TheVariants.{Memory};

use std::alloc::{AllocError, AllocFailed};
use std::marker::Model;

/// Why a certificate is refused. If it has several faults, the one that is judged first is reported.
/// They are judged in the order of these names, but for the last four, which are faults of one row:
/// rows are judged one after another, and of a closed row one action after another. Lines are
/// counted from 1.
#[derive(Clone, Copy)]
pub enum CertificateFault {
    /// The first line that is not spelled as a certificate's; a line that is missing is the one
    /// after the last.
    Syntax { line: u64 },
    /// It is for a task of another kind.
    Kind,
    /// It is of version 2 or a later one and says that a state has `said` hexadecimal digits; those
    /// of the task's states are `wanted`.
    Width { said: u32, wanted: u32 },
    /// Its grounding is another one than the task's. Before version 4 it is the one in which all
    /// ground atoms and actions have numbers.
    Grounding,
    /// It states a pattern, by a number that is not from 1 to 12.
    Pattern,
    /// It states tables that don't suit the task. This is the first of their lines that isn't
    /// written as it must be: its tracked atoms aren't the task's, or its image isn't of tracked
    /// atoms or not above the one before it. If all are written so, it is the first line with an
    /// image from which an action leads to none of the same table or trap, or that has all tracked
    /// atoms of the goal, in a trap or with a value other than 0.
    Table { line: u128 },
    /// It states tables with an action that lowers one of their sums by more than its cost: the
    /// greatest drops of the tables are summed. This is the least such sum, counted from 0, and of
    /// it the least such action.
    Unpaid { sum: usize, action: usize },
    /// The weight is not a fraction from 1 to 1000 whose denominator is at least 1 and whose
    /// numerator is at most 1000.
    Weight,
    /// The plan's step at place `i`, counted from 0, is by an action that is not applicable there.
    PlanStep { i: u64 },
    /// The plan's steps lead to no goal.
    NotGoal,
    /// The plan costs `real`, and the text says `said`.
    Cost { said: u64, real: u128 },
    /// The row's state is not above that of the row before it.
    RowOrder { line: u64 },
    /// The row's state is no state of the task.
    BadState { line: u64 },
    /// The start has no row whose g is 0.
    NoStart,
    /// The row is closed, and its state is a goal.
    GoalClosed { line: u64 },
    /// The row is closed, and the state that the action leads to from it has no row.
    Missing { line: u64, action: u32 },
    /// The row is closed, and the row of the state that the action leads to from it has a greater g
    /// than the step gives.
    TooDear { line: u64, action: u32 },
    /// The row is cut, and a plan through its state could be cheaper than the plan's cost divided
    /// by the weight.
    Low { line: u64 },
}

/// Why there is no verdict.
#[derive(Clone, Copy)]
pub enum CheckError {
    /// The certificate is not valid for the task: its first fault.
    Fault(CertificateFault),
    /// Memory ran out before there was a verdict.
    Memory,
}

/// What a certificate claims of its task.
#[derive(Clone, Copy)]
pub enum Claim {
    /// Some plan has this cost, and no plan costs less than the bound: the least whole number that
    /// is no less than the cost divided by the weight. Both are in the unit of the task's action
    /// costs.
    Bounded { cost: u64, bound: u64 },
    /// No plan exists.
    Unsolvable,
}

/// The verdict that a certificate is valid for its task, so that what it claims is true. The
/// checker alone makes one: whoever has a verdict has asked it. Contracts see what is claimed.
#[derive(Drop)]
pub struct Verdict {
    claim: Claim,
}

impl Model for Verdict {
    ghost use Rattle.pb_check.specs.declared.fault.Claim.{Claim};

    ghost Value = { Claim };

    ghost view = { λ v. v.claim };
}

impl Verdict {
    // The verdict on a certificate that has no fault.
    pub(crate) fn on(claim: Claim) -> Verdict
        ensures { result ≡ claim }
    {
        Verdict { claim }
    }

    /// What the certificate claims.
    pub fn claim(&self) -> Claim
        ensures { result ≡ self.now }
    {
        self.claim
    }
}

impl From<AllocError> for CheckError {
    ghost from_gives = { λ _ e. e ≡ Memory };

    fn from(_: AllocError) -> CheckError {
        CheckError::Memory
    }
}

impl<T: Drop> From<AllocFailed<T>> for CheckError {
    ghost from_gives = { λ _ e. e ≡ Memory };

    fn from(_: AllocFailed<T>) -> CheckError {
        CheckError::Memory
    }
}
