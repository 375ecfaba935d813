// Lists of a line, read item by item as long as there are any.
ghost use Rattle.std.specs.Prelude.{◌≡◌, length, drop, IfOk};
ghost use Rattle.derivation.specs.Reading.{rows, lit_item as item_of_lits, pivot_item as item_of_pivots, number_item as item_of_numbers, atom_item as item_of_atoms, value_item as item_of_values, lits_at};

use crate::items::{atom_item, lit_item, number_item, pivot_item, value_item};
use crate::numbers::skip;
use literals::Lit;
use std::alloc::Global;
use symbols::{Listed, Memory};

// Adds the literals that stand here, and gives the bytes behind them.
pub(crate) fn lits<'a>(bytes: &'a [u8], found: &mut Listed<Lit>) -> Result<&'a [u8], Memory>
    ensures { IfOk result (λ rest. (found.new, rest.now) ≡ rows item_of_lits (length bytes.now) found.old bytes.now) }
{
    let mut rest = bytes;
    'items: for _ in 0..bytes.len() {
        match lit_item(rest) {
            Some((item, after)) => {
                found.push(item)?;
                rest = after;
            }
            None => return Ok(rest),
        }
    }
    Ok(rest)
}

// Adds the literals that stand here, each with an id behind it, and gives the bytes behind them.
pub(crate) fn pivots<'a>(
    bytes: &'a [u8],
    found: &mut Listed<(Lit, u64)>,
) -> Result<&'a [u8], Memory>
    ensures { IfOk result (λ rest. (found.new, rest.now) ≡ rows item_of_pivots (length bytes.now) found.old bytes.now) }
{
    let mut rest = bytes;
    'items: for _ in 0..bytes.len() {
        match pivot_item(rest) {
            Some((item, after)) => {
                found.push(item)?;
                rest = after;
            }
            None => return Ok(rest),
        }
    }
    Ok(rest)
}

// Adds the numbers that stand here, and gives the bytes behind them.
pub(crate) fn numbers<'a>(bytes: &'a [u8], found: &mut Listed<u32>) -> Result<&'a [u8], Memory>
    ensures { IfOk result (λ rest. (found.new, rest.now) ≡ rows item_of_numbers (length bytes.now) found.old bytes.now) }
{
    let mut rest = bytes;
    'items: for _ in 0..bytes.len() {
        match number_item(rest) {
            Some((item, after)) => {
                found.push(item)?;
                rest = after;
            }
            None => return Ok(rest),
        }
    }
    Ok(rest)
}

// Adds the atoms of an answer that stand here, and gives the bytes behind them.
pub(crate) fn atoms<'a>(bytes: &'a [u8], found: &mut Listed<u32>) -> Result<&'a [u8], Memory>
    ensures { IfOk result (λ rest. (found.new, rest.now) ≡ rows item_of_atoms (length bytes.now) found.old bytes.now) }
{
    let mut rest = bytes;
    'items: for _ in 0..bytes.len() {
        match atom_item(rest) {
            Some((item, after)) => {
                found.push(item)?;
                rest = after;
            }
            None => return Ok(rest),
        }
    }
    Ok(rest)
}

// Adds the values of variables that stand here, and gives the bytes behind them.
pub(crate) fn values<'a>(
    bytes: &'a [u8],
    found: &mut Listed<(u32, i32)>,
) -> Result<&'a [u8], Memory>
    ensures { IfOk result (λ rest. (found.new, rest.now) ≡ rows item_of_values (length bytes.now) found.old bytes.now) }
{
    let mut rest = bytes;
    'items: for _ in 0..bytes.len() {
        match value_item(rest) {
            Some((item, after)) => {
                found.push(item)?;
                rest = after;
            }
            None => return Ok(rest),
        }
    }
    Ok(rest)
}

// How many blanks stand here.
fn blanks(bytes: &[u8]) -> usize {
    let mut count: usize = 0;
    for byte in bytes {
        if *byte == b' ' {
            count = count.wrapping_add(1);
        }
    }
    count
}

// The literals at the end of a line, from the blank before `=` on.
pub(crate) fn last_lits(alloc: Global, bytes: &[u8]) -> Result<Listed<Lit>, Memory>
    ensures { IfOk result (λ found. found ≡ lits_at bytes.now) }
{
    let rest = skip(bytes, 2);
    let mut found = Listed::from_vec(Vec::with_capacity(alloc, blanks(rest))?);
    lits(rest, &mut found)?;
    Ok(found)
}
