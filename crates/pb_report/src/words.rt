//! The words that reports print for files, causes and reasons. Each is written out, so that no
//! printed text changes with the name of a variant.
ghost use Rattle.std.specs.Prelude.{◌≡◌};
ghost use Rattle.pb_report.specs.Texts.{file_number, want_word, left_out_word, cause_word, why_word};

use pb_journal::Why;
use pb_lifted::{Cause, File};
use pb_pddl::{LeftOut, Want};

// The number of a file.
pub(crate) fn file_number(file: File) -> u64
    ensures { result ≡ file_number file }
{
    match file {
        File::Domain => 1,
        File::Problem => 2,
    }
}

// What must stand in a token's place.
pub(crate) fn want_word(want: Want) -> &'static str
    ensures { result.now ≡ want_word want }
{
    match want {
        Want::Paren => "Paren",
        Want::Close => "Close",
        Want::Word => "Word",
        Want::Name => "Name",
        Want::Variable => "Variable",
        Want::Section => "Section",
        Want::Part => "Part",
        Want::TypeName => "TypeName",
        Want::Number => "Number",
        Want::Group => "Group",
        Want::Once => "Once",
        Want::Missing => "Missing",
    }
}

// What of PDDL is left out.
pub(crate) fn left_out_word(what: LeftOut) -> &'static str
    ensures { result.now ≡ left_out_word what }
{
    match what {
        LeftOut::Section => "Section",
        LeftOut::Part => "Part",
        LeftOut::Head => "Head",
        LeftOut::Either => "Either",
        LeftOut::Function => "Function",
        LeftOut::Metric => "Metric",
    }
}

// Why a name, or what is said of costs, is refused.
pub(crate) fn cause_word(cause: Cause) -> &'static str
    ensures { result.now ≡ cause_word cause }
{
    match cause {
        Cause::DomainName => "DomainName",
        Cause::Twice => "Twice",
        Cause::UnknownType => "UnknownType",
        Cause::TypeCycle => "TypeCycle",
        Cause::UnknownPredicate => "UnknownPredicate",
        Cause::Arity => "Arity",
        Cause::UnknownObject => "UnknownObject",
        Cause::WrongType => "WrongType",
        Cause::TooWide => "TooWide",
        Cause::NoFunction => "NoFunction",
        Cause::CostTwice => "CostTwice",
        Cause::CostRange => "CostRange",
        Cause::ZeroCost => "ZeroCost",
    }
}

// Why a line of a journal is refused.
pub(crate) fn why_word(why: Why) -> &'static str
    ensures { result.now ≡ why_word why }
{
    match why {
        Why::Spelling => "Spelling",
        Why::Settings => "Settings",
        Why::Ended => "Ended",
        Why::Worker => "Worker",
        Why::Holds => "Holds",
        Why::Block => "Block",
        Why::Scope => "Scope",
        Why::Hot => "Hot",
        Why::Quota => "Quota",
        Why::NoEnd => "NoEnd",
        Why::Trouble => "Trouble",
        Why::Short => "Short",
    }
}
