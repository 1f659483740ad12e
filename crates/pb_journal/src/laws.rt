//! What the text of a journal means. Each law is the contract of a function without a body.
ghost use Rattle.pb_journal.specs.Shown.{AcceptedJournalsAreFinished, CutJournalsAreRefused, RefusedLinesAreFirst, WrittenJournalsAreAccepted};
ghost use Rattle.pb_journal.specs.Lengths.{JournalTextsAreShort};
ghost use Rattle.pb_journal.specs.Searched.{PlainJournalsHaveNoHot, PlainTextsHaveNoHot, RunsAreAccepted, SearchesAreAccepted};

/// A journal is accepted, with its number of events, if and only if it is the text of a finished
/// legal history.
pub fn accepted_journals_are_finished()
    ensures { AcceptedJournalsAreFinished }
{}

/// What is written of a finished legal history is accepted, with its number of events, and its
/// header is read.
pub fn written_journals_are_accepted()
    ensures { WrittenJournalsAreAccepted }
{}

/// A refused journal is refused in its header, as `read_header` says, or in the first line after it
/// that can't follow those before it. The text ends too early or within that line, or the line
/// spells no event, or one that may not come.
pub fn refused_lines_are_first()
    ensures { RefusedLinesAreFirst }
{}

/// A journal that is cut off is refused in the line that it ends in: each beginning of an accepted
/// journal but the whole. The line is 1 plus the number of line feeds in what is left. The reason
/// is that the text is short, if it ends after a whole line, and else that the line is misspelled.
pub fn cut_journals_are_refused()
    ensures { CutJournalsAreRefused }
{}

/// What is written of a finished search with settings in range is accepted, over the blocks that it
/// leased, with its number of events.
pub fn runs_are_accepted()
    ensures { RunsAreAccepted }
{}

/// What is written of a finished search of a task is accepted for the same task. The graph is made
/// by the number of blocks that the header wishes for.
pub fn searches_are_accepted()
    ensures { SearchesAreAccepted }
{}

/// An accepted journal whose header says that the search was plain has no hot mark.
pub fn plain_journals_have_no_hot()
    ensures { PlainJournalsHaveNoHot }
{}

/// So no line of such a text is a hot mark: a text with one is refused.
pub fn plain_texts_have_no_hot()
    ensures { PlainTextsHaveNoHot }
{}

/// The text of a legal history over at most 4,096 blocks has at most 79 bytes of header, and 26 an
/// event.
pub fn journal_texts_are_short()
    ensures { JournalTextsAreShort }
{}
