//! The rows of a certificate, with all that each of them is judged by.
use crate::rows::StatedRows;
use crate::stated::StatedWeight;
use pb_estimate::Choice;
use pb_task::Task;

/// All rows of a certificate, with what each of them is judged by.
#[derive(Clone, Copy)]
pub struct RowsToJudge<'a> {
    /// The task of the certificate.
    pub task: &'a Task,
    /// The choice of an estimate by which cut rows are judged.
    pub choice: &'a Choice,
    /// The stated weight.
    pub weight: &'a StatedWeight,
    /// The cost of the plan, if there is one.
    pub best: Option<u64>,
    /// The rows, in the order of the text.
    pub rows: &'a StatedRows,
    /// The number of the first row's line.
    pub line: u64,
}
