//! The chosen row of a scenario: the size of its map, the start and the goal.
ghost use Rattle.std.specs.Prelude.{◌≡◌, length, reverse, slice_get, None, IfSome, IfNone};
ghost use Rattle.pb_grid.specs.Lines.{lines_of, words_of};
ghost use Rattle.pb_grid.specs.declared.error.GridError.TheVariants.{NoRow};
ghost use Rattle.pb_grid.specs.Reading.{Gives, wanted, pair_of, scenario_of, scenario_of_words, rows_of_scenario, scenario_reading};

use crate::error::GridError;
use crate::lines::{next_line, split_line};
use crate::words::{is_blank_line, split_last_word};
use pb_lines::short_number_of;

/// What the chosen row of a scenario says.
#[derive(Clone, Copy)]
pub struct ScenarioParts {
    pub width: u32,
    pub height: u32,
    pub start: (u32, u32),
    pub goal: (u32, u32),
}

// The words of a row that are to be numbers.
#[derive(Clone, Copy)]
struct NumberWords<'a> {
    width: &'a [u8],
    height: &'a [u8],
    start_x: &'a [u8],
    start_y: &'a [u8],
    goal_x: &'a [u8],
    goal_y: &'a [u8],
}

// The words of a row that are to be numbers. None if the row has fewer than nine words.
fn number_words(line: &[u8]) -> Option<NumberWords<'_>>
    ensures some { IfSome result (λ w. scenario_of_words (reverse (words_of line.now))
        ≡ scenario_of (pair_of w.width.now w.height.now) (pair_of w.start_x.now w.start_y.now)
        (pair_of w.goal_x.now w.goal_y.now)) }
    ensures none { IfNone result (scenario_of_words (reverse (words_of line.now)) ≡ None) }
{
    // Words are taken from the right, since a map's name may have several.
    // The last word, the optimal length, isn't looked at.
    let Some((before_way, _)) = split_last_word(line) else {
        return None;
    };
    let Some((before_goal_y, goal_y)) = split_last_word(before_way) else {
        return None;
    };
    let Some((before_goal_x, goal_x)) = split_last_word(before_goal_y) else {
        return None;
    };
    let Some((before_start_y, start_y)) = split_last_word(before_goal_x) else {
        return None;
    };
    let Some((before_start_x, start_x)) = split_last_word(before_start_y) else {
        return None;
    };
    let Some((before_height, height)) = split_last_word(before_start_x) else {
        return None;
    };
    let Some((before_width, width)) = split_last_word(before_height) else {
        return None;
    };
    let Some((before_name, _)) = split_last_word(before_width) else {
        return None;
    };
    // The bucket may be any word, but a row without one has too few words.
    let Some(_) = split_last_word(before_name) else {
        return None;
    };
    Some(NumberWords {
        width,
        height,
        start_x,
        start_y,
        goal_x,
        goal_y,
    })
}

// The numbers that two words spell.
fn pair_of(x: &[u8], y: &[u8]) -> Option<(u32, u32)>
    ensures { result ≡ pair_of x.now y.now }
{
    let Some(first) = short_number_of(x) else {
        return None;
    };
    let Some(second) = short_number_of(y) else {
        return None;
    };
    Some((first, second))
}

// What a row says.
fn scenario_of_line(line: &[u8]) -> Option<ScenarioParts>
    ensures { result ≡ scenario_of_words (reverse (words_of line.now)) }
{
    let Some(words) = number_words(line) else {
        return None;
    };
    let Some((width, height)) = pair_of(words.width, words.height) else {
        return None;
    };
    let Some(start) = pair_of(words.start_x, words.start_y) else {
        return None;
    };
    let Some(goal) = pair_of(words.goal_x, words.goal_y) else {
        return None;
    };
    Some(ScenarioParts {
        width,
        height,
        start,
        goal,
    })
}

// The chosen row of a scenario, with its line's number.
fn chosen_row(text: &[u8], row: u64) -> Result<(u64, &[u8]), GridError>
    ensures { Gives (λ x. (x.0, x.1.now)) result
        (wanted (NoRow row (length (rows_of_scenario (lines_of text.now))))
        (slice_get (rows_of_scenario (lines_of text.now)) row)) }
{
    let (_, rows) = next_line(text);
    let mut number = 2;
    let mut seen = 0;
    let mut rest = rows;
    while let Some((line, behind)) = split_line(rest) {
        if !is_blank_line(line) {
            if seen == row {
                return Ok((number, line));
            }
            seen += 1;
        }
        number += 1;
        rest = behind;
    }
    Err(GridError::NoRow { row, rows: seen })
}

/// The chosen row of the scenario that a text spells.
#[tactic(auto, unfolding(crate::specs::Reading::scenario_reading))]
pub fn read_scenario(text: &[u8], row: u64) -> Result<ScenarioParts, GridError>
    ensures { Gives (λ x. x) result (scenario_reading (lines_of text.now) row) }
{
    let (first, _) = next_line(text);
    if !first.starts_with(b"version") {
        return Err(GridError::Scenario { line: 1 });
    }
    let (number, line) = chosen_row(text, row)?;
    let Some(parts) = scenario_of_line(line) else {
        return Err(GridError::Scenario { line: number });
    };
    Ok(parts)
}
