//! Laws on reading, refusing and verdicts. Each is the contract of a function without a body.
ghost use Rattle.pb_check.specs.Cases.{CasesAreRefused, RefusalsHaveTheirCase};
ghost use Rattle.pb_check.specs.Shown.{BoundsAreLeast, CutCertificatesAreRefused};
ghost use Rattle.pb_check.specs.Judging.{StatedChoicesSuit};
ghost use Rattle.pb_check.specs.Spelling.{ReadAsSpelled, TextsHaveOneSpelling};

/// What is read of a text without a fault is the certificate that it spells, and what spells a
/// certificate is read.
pub fn read_as_spelled()
    ensures { ReadAsSpelled }
{}

/// A text has one spelling, and spells one certificate.
pub fn texts_have_one_spelling()
    ensures { TextsHaveOneSpelling }
{}

/// The choice of an estimate that a text states suits the task, if it isn't refused. So its
/// estimates are admissible.
pub fn stated_choices_suit()
    ensures { StatedChoicesSuit }
{}

/// The bound of a verdict is the least number that is no less than the cost divided by the weight.
pub fn bounds_are_least()
    ensures { BoundsAreLeast }
{}

/// A certificate that is cut off is refused as misspelled, in the line that it ends in: each
/// beginning of a certificate's text but the whole. The line is 1 plus the number of line feeds in
/// what is left.
pub fn cut_certificates_are_refused()
    ensures { CutCertificatesAreRefused }
{}

/// A fault is reported only in its case, in the words of texts, plans and rows.
pub fn refusals_have_their_case()
    ensures { RefusalsHaveTheirCase }
{}

/// In its case a fault is reported.
pub fn cases_are_refused()
    ensures { CasesAreRefused }
{}
