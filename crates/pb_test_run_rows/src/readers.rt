//! What a row asks of the readers and of tasks, by its first word.
use crate::lines::Lines;
use crate::{ground, kinds, lifted, made, names, prefixes, tree};
use pb_outside::{MemShelf, Memory};
use std::alloc::Global;

// The words that a row may begin with.
const ASKED: [&str; 18] = [
    "domain",
    "problem",
    "domain-prefixes",
    "problem-prefixes",
    "facts",
    "lifted",
    "ground",
    "task",
    "plan",
    "beside",
    "grid-row",
    "of",
    "made-map",
    "made-scenario",
    "made-board",
    "made-problem",
    "made-domain",
    "made-line",
];

/// Whether a row asks for one of these.
pub(crate) fn is_asked(words: &[String]) -> bool {
    let Some(word) = words.first() else {
        return false;
    };
    ASKED.iter().any(|asked| *asked == word.as_str())
}

// The bytes of a file, or none.
fn file_of<'a>(shelf: &'a MemShelf, words: &[String], i: usize) -> &'a [u8] {
    let Some(name) = words.get(i) else {
        return b"";
    };
    if shelf.has(name.as_str()) {
        shelf.file(name.as_str())
    } else {
        b""
    }
}

// The words from one on.
fn rest(words: &[String], i: usize) -> &[String] {
    words.get(i..).unwrap_or(&[])
}

/// What is printed of these words. None is printed if something is refused.
pub(crate) fn answer(
    alloc: Global,
    words: &[String],
    shelf: &MemShelf,
) -> Result<Option<Lines>, Memory> {
    let Some(word) = words.first() else {
        return Ok(None);
    };
    let first = file_of(shelf, words, 1);
    let second = file_of(shelf, words, 2);
    match word.as_str() {
        "domain" => tree::domain_line(alloc, first),
        "problem" => tree::problem_line(alloc, first),
        "domain-prefixes" => prefixes::prefixes(alloc, true, first),
        "problem-prefixes" => prefixes::prefixes(alloc, false, first),
        "facts" => tree::facts(alloc, first),
        "lifted" => lifted::lifted_lines(alloc, first, second),
        "ground" => ground::ground_lines(alloc, first, second),
        "task" => names::task_lines(alloc, first, second),
        "plan" => names::plan_line(alloc, "strips", first, second, rest(words, 3)),
        "beside" => names::lines_beside(alloc, first, second, file_of(shelf, words, 3)),
        "grid-row" => kinds::row_line(alloc, first, second, rest(words, 3)),
        "of" => of_task(alloc, words, second, file_of(shelf, words, 3)),
        "made-line" => made::made_line(alloc, words),
        _ => made::made_text(alloc, words),
    }
}

// What is printed of `of KIND FIRST SECOND QUESTION WORD..`, with the bytes of the two files.
fn of_task(
    alloc: Global,
    words: &[String],
    first: &[u8],
    second: &[u8],
) -> Result<Option<Lines>, Memory> {
    let (Some(kind), Some(question)) = (words.get(1), words.get(4)) else {
        return Ok(None);
    };
    let asked = rest(words, 5);
    if question.as_str() == "plan" {
        return names::plan_line(alloc, kind.as_str(), first, second, asked);
    }
    let Some(task) = kinds::task_of(alloc, kind.as_str(), first, second)? else {
        return Ok(None);
    };
    kinds::task_line(alloc, &task, question.as_str(), asked)
}
