//! Tables and traps of what was found.
ghost use Rattle.std.specs.Prelude.{◌≡◌, ◌≤◌, ◌*◌, ◌^◌, All, IfOk, IfSome, IsTrue, length};
ghost use Rattle.pb_tables.specs.Tables.{IsTable};
ghost use Rattle.pb_finder.specs.Sizes.{TableListsFew, TrapListsFew};

use crate::costs::UNKNOWN;
use crate::images::Images;
use crate::numbers::{at, narrow};
use crate::partitioning::{Alone, Sum};
use crate::variables::{Variables, with_value};
use pb_packed::Packed;
use pb_tables::{ImageList, Table, Trap};
use std::alloc::{AllocError, Global};

// The greatest value of a table.
const MOST_VALUE: u64 = 1 << 40;

// How many images a list has at most.
const MOST_LISTED: usize = 50_000;

/// How many tables there are at most, and how many traps.
pub const MOST_TABLES: usize = 4096;

// An image of a pattern: the atoms that hold, and its number.
#[derive(Clone, Copy)]
struct Listed {
    set: Packed,
    image: u32,
}

// The atoms that hold in an image.
fn set_of(variables: &Variables, images: &Images, code: u64) -> Packed {
    let mut set = Packed::zero();
    for field in images.operators.fields.as_slice() {
        let atoms = variables.atoms.at(field.variable as usize);
        set = with_value(set, atoms, field.value(code));
    }
    set
}

// The images in ascending order of their sets.
fn listed_of(
    alloc: Global,
    variables: &Variables,
    images: &Images,
) -> Result<Vec<Listed>, AllocError> {
    let mut listed = Vec::new(alloc);
    for image in 0..images.len() {
        listed.push(Listed {
            set: set_of(variables, images, images.code(image)),
            image: narrow(image),
        })?;
    }
    listed.sort_unstable_by_key(|entry| entry.set);
    Ok(listed)
}

// The sets of images.
fn sets_of(alloc: Global, listed: &[Listed]) -> Result<ImageList, AllocError> {
    let mut sets = ImageList::new(alloc);
    for entry in listed {
        sets.push(&entry.set)?;
    }
    Ok(sets)
}

// Adds the values of an image, one for each sum.
fn push_values(
    values: &mut Vec<u64>,
    sums: &[Sum],
    number: usize,
    image: usize,
) -> Result<(), AllocError> {
    for sum in sums {
        let value = if number < sum.values.len() {
            at(&sum.values[number], image)
        } else {
            0
        };
        values.push(value)?;
    }
    Ok(())
}

// The values of images.
fn values_of(
    alloc: Global,
    sums: &[Sum],
    number: usize,
    listed: &[Listed],
) -> Result<Vec<u64>, AllocError> {
    let mut values = Vec::new(alloc);
    for entry in listed {
        push_values(&mut values, sums, number, entry.image as usize)?;
    }
    Ok(values)
}

// Whether all values are such as a table may have.
fn are_small(values: &[u64]) -> bool
    ensures { IsTrue result → All (λ value. value ≤ 2 ^ 40) values.now }
{
    values.iter().all(|value| *value <= MOST_VALUE)
}

// A table, if it has a value for each image and sum, all are small enough and it lists few enough
// images.
fn table_if_lawful(
    sums: usize,
    tracked: Packed,
    listed: ImageList,
    values: Vec<u64>,
) -> Option<Table>
    ensures lawful { IfSome result (IsTable sums) }
    ensures few { IfSome result TableListsFew }
{
    let count = listed.len().checked_mul(sums)?;
    if listed.len() <= MOST_LISTED && values.len() == count && are_small(&values) {
        Some(Table::of(tracked, listed, values))
    } else {
        None
    }
}

/// The table of a pattern, if it is lawful.
pub fn table_of(
    alloc: Global,
    variables: &Variables,
    images: &Images,
    sums: &[Sum],
    number: usize,
) -> Result<Option<Table>, AllocError>
    ensures lawful { IfOk result (λ found. IfSome found (IsTable (length sums.now))) }
    ensures few { IfOk result (λ found. IfSome found TableListsFew) }
{
    let listed = listed_of(alloc, variables, images)?;
    let values = values_of(alloc, sums, number, &listed)?;
    let sets = sets_of(alloc, &listed)?;
    Ok(table_if_lawful(sums.len(), images.tracked.atoms, sets, values))
}

// The images from which no goal is reached.
fn trapped_of(alloc: Global, listed: &[Listed], alone: &[u64]) -> Result<ImageList, AllocError> {
    let mut trapped = ImageList::new(alloc);
    for entry in listed {
        if at(alone, entry.image as usize) >= UNKNOWN {
            trapped.push(&entry.set)?;
        }
    }
    Ok(trapped)
}

// A trap, if it lists an image and few enough.
fn trap_if_lawful(tracked: Packed, listed: ImageList) -> Option<Trap>
    ensures { IfSome result TrapListsFew }
{
    if 1 <= listed.len() && listed.len() <= MOST_LISTED {
        Some(Trap::of(tracked, listed))
    } else {
        None
    }
}

/// The trap of a pattern: its images from which no goal is reached. None if there are none.
pub fn trap_of(
    alloc: Global,
    variables: &Variables,
    images: &Images,
    alone: &[u64],
) -> Result<Option<Trap>, AllocError>
    ensures { IfOk result (λ found. IfSome found TrapListsFew) }
{
    let listed = listed_of(alloc, variables, images)?;
    let trapped = trapped_of(alloc, &listed, alone)?;
    Ok(trap_if_lawful(images.tracked.atoms, trapped))
}

// ---- all of them

// Whether a pattern has a value in some sum.
fn is_used(sums: &[Sum], number: usize) -> bool {
    for sum in sums {
        if number < sum.values.len() && !sum.values[number].is_empty() {
            return true;
        }
    }
    false
}

// Adds a table that has values for so many sums.
fn put(tables: &mut Vec<Table>, sums: usize, table: Table) -> Result<(), AllocError>
    requires tables { All (IsTable sums) tables.old.items }
    requires tables_few { All TableListsFew tables.old.items }
    requires table { IsTable sums table }
    requires table_few { TableListsFew table }
    ensures tables { All (IsTable sums) tables.new.items }
    ensures few { All TableListsFew tables.new.items }
{
    // Only the contract speaks of `sums`.
    let _ = sums;
    tables.push(table)?;
    Ok(())
}

// Adds the table of a pattern that has a value in some sum.
fn push_table(
    alloc: Global,
    variables: &Variables,
    images: &Images,
    sums: &[Sum],
    number: usize,
    tables: &mut Vec<Table>,
) -> Result<(), AllocError>
    requires tables { All (IsTable (length sums.now)) tables.old.items }
    requires few { All TableListsFew tables.old.items }
    ensures tables { All (IsTable (length sums.now)) tables.new.items }
    ensures few { All TableListsFew tables.new.items }
{
    if !is_used(sums, number) || tables.len() >= MOST_TABLES {
        return Ok(());
    }
    if let Some(table) = table_of(alloc, variables, images, sums, number)? {
        put(tables, sums.len(), table)?;
    }
    Ok(())
}

/// The tables of all patterns that have a value in some sum.
pub fn tables_of(
    alloc: Global,
    variables: &Variables,
    patterns: &[Images],
    sums: &[Sum],
) -> Result<Vec<Table>, AllocError>
    ensures lawful { IfOk result (λ tables. All (IsTable (length sums.now)) tables.items) }
    ensures few { IfOk result (λ tables. All TableListsFew tables.items) }
{
    let mut tables = Vec::new(alloc);
    for number in 0..patterns.len() {
        push_table(
            alloc,
            variables,
            &patterns[number],
            sums,
            number,
            &mut tables,
        )?;
    }
    Ok(tables)
}

// Adds the trap of a pattern, if it has one.
fn push_trap(
    alloc: Global,
    variables: &Variables,
    images: &Images,
    alone: &[u64],
    traps: &mut Vec<Trap>,
) -> Result<(), AllocError>
    requires { All TrapListsFew traps.old.items }
    ensures { All TrapListsFew traps.new.items }
{
    if let Some(trap) = trap_of(alloc, variables, images, alone)? {
        traps.push(trap)?;
    }
    Ok(())
}

/// The traps of all patterns that have one.
pub fn traps_of(
    alloc: Global,
    variables: &Variables,
    patterns: &[Images],
    alone: &Alone,
) -> Result<Vec<Trap>, AllocError>
    ensures { IfOk result (λ traps. All TrapListsFew traps.items) }
{
    let mut traps = Vec::new(alloc);
    for number in 0..patterns.len().min(alone.values.len()) {
        push_trap(
            alloc,
            variables,
            &patterns[number],
            &alone.values[number],
            &mut traps,
        )?;
    }
    Ok(traps)
}
