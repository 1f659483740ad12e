//! The laws of this crate. Each is the contract of a function without a body.
ghost use Rattle.pb_table_lines.specs.Examples.{ExamplesAreFound, ExamplesAreRead, ExamplesAreWritten};
ghost use Rattle.pb_table_lines.specs.Numbered.{LinesHaveTheirNumbers};
ghost use Rattle.pb_table_lines.specs.Refused.{CutTablesAreRefused, RefusedLinesAreFirst};
ghost use Rattle.pb_table_lines.specs.Laws.{SuitingTablesCanBeStated, TablesAreReadAsWritten};

/// What is written is read again, whatever follows it, and nothing else is read.
pub fn tables_are_read_as_written()
    ensures { TablesAreReadAsWritten }
{}

/// Tables that suit a task can be stated by as many digits as a state of the task has.
pub fn suiting_tables_can_be_stated()
    ensures { SuitingTablesCanBeStated }
{}

/// The line that is refused is the first with which no tables are read.
pub fn refused_lines_are_first()
    ensures { RefusedLinesAreFirst }
{}

/// A text of tables that is cut off is refused in the line that it ends in.
pub fn cut_tables_are_refused()
    ensures { CutTablesAreRefused }
{}

/// The line of a list has its number among all lines.
pub fn lines_have_their_numbers()
    ensures { LinesHaveTheirNumbers }
{}

/// How a few tables are written.
pub fn examples_are_written()
    ensures { ExamplesAreWritten }
{}

/// What is read of a few texts.
pub fn examples_are_read()
    ensures { ExamplesAreRead }
{}

/// In which line a few tables don't suit a task.
pub fn examples_are_found()
    ensures { ExamplesAreFound }
{}
