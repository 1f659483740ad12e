//! The search for tables.
ghost use Rattle.std.specs.Prelude.{All, IfOk, IfSome, IsTrue};
ghost use Rattle.pb_task.specs.Strips.{IsStrips};
ghost use Rattle.pb_tables.specs.Suits.{suit};
ghost use Rattle.pb_tables.specs.Tables.{AreTables, IsTable};
ghost use Rattle.pb_finder.specs.Sizes.{ListFewImages, TableListsFew, TrapListsFew};

use crate::effort::{Limits, limits_of};
use crate::fitted::{MOST_TABLES, tables_of, traps_of};
use crate::images::{Allowance, Images};
use crate::lists::Lists;
use crate::partitioning::{Alone, Sum, sums_of};
use crate::patterns::{MOST_PATTERNS, Tracked, grown_patterns, small_patterns};
use crate::rules::Rules;
use crate::variables::Variables;
use pb_tables::{Table, Tables, Trap};
use pb_task::StripsParts;
use std::alloc::{AllocError, Global};

// Whether the images of a pattern that tracks the same are there.
fn is_listed(images: &[Images], tracked: &Tracked) -> bool {
    for other in images {
        if other.tracked == *tracked {
            return true;
        }
    }
    false
}

// Adds the images of a pattern, if they are within the limits and those of no pattern that tracks
// the same are there.
fn push_images(
    alloc: Global,
    rules: &Rules,
    variables: &Variables,
    pattern: &[u32],
    most: usize,
    left: &mut Allowance,
    images: &mut Vec<Images>,
) -> Result<(), AllocError> {
    let tracked = Tracked::of(rules, variables, pattern);
    if images.len() >= MOST_PATTERNS || is_listed(images, &tracked) {
        return Ok(());
    }
    let found = Images::of(alloc, rules, variables, pattern, &left.for_one(most))?;
    if let Some(found) = found {
        left.spend(&found);
        images.push(found)?;
    }
    Ok(())
}

// Adds the images of patterns.
fn push_all(
    alloc: Global,
    rules: &Rules,
    variables: &Variables,
    patterns: &Lists,
    most: usize,
    left: &mut Allowance,
    images: &mut Vec<Images>,
) -> Result<(), AllocError> {
    for number in 0..patterns.len() {
        push_images(
            alloc,
            rules,
            variables,
            patterns.at(number),
            most,
            left,
            images,
        )?;
    }
    Ok(())
}

// Adds the images of single variables and pairs.
fn push_small(
    alloc: Global,
    rules: &Rules,
    variables: &Variables,
    most: usize,
    left: &mut Allowance,
    images: &mut Vec<Images>,
) -> Result<(), AllocError> {
    let patterns = small_patterns(alloc, rules, variables)?;
    push_all(alloc, rules, variables, &patterns, most, left, images)
}

// Adds the images of grown patterns.
fn push_grown(
    alloc: Global,
    rules: &Rules,
    variables: &Variables,
    most: usize,
    left: &mut Allowance,
    images: &mut Vec<Images>,
) -> Result<(), AllocError> {
    let patterns = grown_patterns(alloc, rules, variables, most)?;
    push_all(alloc, rules, variables, &patterns, most, left, images)
}

// The images of all patterns. The small ones take at most half of what may be looked at.
fn images_of(
    alloc: Global,
    rules: &Rules,
    variables: &Variables,
    limits: &Limits,
) -> Result<Vec<Images>, AllocError> {
    let mut images = Vec::new(alloc);
    let mut left = Allowance::of(limits);
    let mut half = left.half();
    push_small(
        alloc,
        rules,
        variables,
        limits.images,
        &mut half,
        &mut images,
    )?;
    left.spend_half(&half);
    push_grown(
        alloc,
        rules,
        variables,
        limits.images,
        &mut left,
        &mut images,
    )?;
    Ok(images)
}

// The tables and traps of these lists, if there is a sum and they are few enough.
fn tables_if_lawful(sums: usize, tables: Vec<Table>, traps: Vec<Trap>) -> Option<Tables>
    requires tables { All (IsTable sums) tables.items }
    requires tables_few { All TableListsFew tables.items }
    requires traps_few { All TrapListsFew traps.items }
    ensures lawful { IfSome result AreTables }
    ensures few { IfSome result ListFewImages }
{
    let is_few = tables.len() <= MOST_TABLES && traps.len() <= MOST_TABLES;
    if 1 <= sums && sums <= 64 && is_few {
        Some(Tables::of(sums, tables, traps))
    } else {
        None
    }
}

// Traps alone, if there are some and they are few enough: they stand beside one sum of no tables.
fn traps_if_lawful(alloc: Global, traps: Vec<Trap>) -> Option<Tables>
    requires traps_few { All TrapListsFew traps.items }
    ensures lawful { IfSome result AreTables }
    ensures few { IfSome result ListFewImages }
{
    if 1 <= traps.len() && traps.len() <= MOST_TABLES {
        Some(Tables::of(1, Vec::new(alloc), traps))
    } else {
        None
    }
}

// The tables and traps of sums, or the traps alone if there is no sum.
fn fitted(
    alloc: Global,
    variables: &Variables,
    patterns: &[Images],
    alone: &Alone,
    sums: &[Sum],
) -> Result<Option<Tables>, AllocError>
    ensures lawful { IfOk result (λ found. IfSome found AreTables) }
    ensures few { IfOk result (λ found. IfSome found ListFewImages) }
{
    let traps = traps_of(alloc, variables, patterns, alone)?;
    if sums.is_empty() {
        return Ok(traps_if_lawful(alloc, traps));
    }
    let tables = tables_of(alloc, variables, patterns, sums)?;
    Ok(tables_if_lawful(sums.len(), tables, traps))
}

// The tables and traps of sums over patterns.
fn over_patterns(
    alloc: Global,
    rules: &Rules,
    variables: &Variables,
    patterns: &[Images],
    limits: &Limits,
) -> Result<Option<Tables>, AllocError>
    ensures lawful { IfOk result (λ found. IfSome found AreTables) }
    ensures few { IfOk result (λ found. IfSome found ListFewImages) }
{
    let alone = Alone::of(alloc, rules, patterns)?;
    let sums = sums_of(alloc, rules, variables, patterns, &alone, limits)?;
    fitted(alloc, variables, patterns, &alone, &sums)
}

// The tables and traps of sums over patterns of these variables.
fn over_variables(
    alloc: Global,
    rules: &Rules,
    variables: &Variables,
    limits: &Limits,
) -> Result<Option<Tables>, AllocError>
    ensures lawful { IfOk result (λ found. IfSome found AreTables) }
    ensures few { IfOk result (λ found. IfSome found ListFewImages) }
{
    let patterns = images_of(alloc, rules, variables, limits)?;
    over_patterns(alloc, rules, variables, &patterns, limits)
}

// Tables for a task, whether they suit it or not.
fn unjudged(alloc: Global, rules: &Rules, limits: &Limits) -> Result<Option<Tables>, AllocError>
    ensures lawful { IfOk result (λ found. IfSome found AreTables) }
    ensures few { IfOk result (λ found. IfSome found ListFewImages) }
{
    let variables = Variables::of(alloc, rules, limits.candidates)?;
    over_variables(alloc, rules, &variables, limits)
}

/// Looks for tables that suit a task. The same task and effort give the same tables. The effort is
/// how much is looked at, from 1 to 20; another number counts as the nearest of these. None: it
/// found none, which says nothing of the task. The call fails if memory runs out.
pub fn find_tables(
    alloc: Global,
    strips: &StripsParts,
    effort: u32,
) -> Result<Option<Tables>, AllocError>
    requires strips { IsStrips strips.now }
    ensures lawful { IfOk result (λ found. IfSome found AreTables) }
    ensures few { IfOk result (λ found. IfSome found ListFewImages) }
    ensures suit { IfOk result (λ found. IfSome found (λ tables. IsTrue (suit strips.now tables))) }
{
    let rules = Rules::of(alloc, strips)?;
    let found = unjudged(alloc, &rules, &limits_of(effort))?;
    Ok(suited(strips, found))
}

// Tables, if they suit a task.
fn suited(strips: &StripsParts, found: Option<Tables>) -> Option<Tables>
    requires strips { IsStrips strips.now }
    requires lawful { IfSome found AreTables }
    requires few { IfSome found ListFewImages }
    ensures lawful { IfSome result AreTables }
    ensures few { IfSome result ListFewImages }
    ensures suit { IfSome result (λ tables. IsTrue (suit strips.now tables)) }
{
    let tables = found?;
    if tables.suit(strips) {
        Some(tables)
    } else {
        None
    }
}
