//! Laws of the rows of a store, and of the lines of their certificate. Each is the contract of a
//! function without a body.
ghost use Rattle.pb_cert.specs.Laws.{ShownRowsCanBeTraced, SoundRowsArePlaced, LinesAreUnique};
ghost use Rattle.pb_cert.specs.Laws.{RewrittenTextsAreAccepted};

use pb_check::read_as_spelled;
use pb_task::states_fit_their_width;

/// A plan can be traced in the rows of a sound store whose incumbent is shown by a goal's row.
pub fn shown_rows_can_be_traced()
    ensures { ShownRowsCanBeTraced }
{}

/// In a sound store each row is at the home of its state.
pub fn sound_rows_are_placed()
    ensures { SoundRowsArePlaced }
{}

/// Two lists of lines that are those of the same rows are the same.
pub fn lines_are_unique()
    ensures { LinesAreUnique }
{}

/// An accepted certificate that is saved anew has the same weight, plan and rows, and is accepted
/// with the same verdict.
pub fn rewritten_texts_are_accepted()
    ensures { RewrittenTextsAreAccepted }
{
    read_as_spelled();
    states_fit_their_width();
}
