//! Why tables do not suit a task.
/// Why tables don't suit a task. If there are several faults, the first is reported: first how the
/// lists are written, then goals and steps, then costs (`tables_fault` in the specs).
#[derive(Clone, Copy)]
pub enum TablesFault {
    /// A line of a table or trap. These are numbered from 0, the tables before the traps. Line 0
    /// says which atoms are tracked, and line 1 is the first image.
    Line { list: usize, line: usize },
    /// The action costs less than it lowers a sum at most: the least sum, and of it the least
    /// action.
    Unpaid { sum: usize, action: usize },
}
