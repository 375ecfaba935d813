// Whether a program is tight, by a least model.
//
// An atom waits for the positive atoms of the bodies that support it, and it is done once they are. So each atom
// is given one definite rule, whose body is all that it waits for. The program is tight exactly where
// the least model has every atom: the rank at which an atom is derived is its number, and an atom that is not
// derived waits for another one that is not.
ghost use Rattle.std.specs.Prelude.{◌≡◌, ◌↔◌, ◌++◌, [], ◌+◌, ◌<◌, ◌≤◌, ◌^◌, true, map, vec_items, length, IsTrue, IfOk, OnOk};
ghost use Rattle.std.specs.List.{All, flat_map, range_with_len};
ghost use Rattle.linear_normal.specs.Numbering.{numbering};
ghost use Rattle.completion.specs.Tight.{IsTight};
ghost use Rattle.completion.specs.inner.Waits.{IsSupportBelow, positive_atom, rules_with, waits_of};

use definite_rules::{DefiniteRules, least_model};
use ground_model::GroundProgram;
use linear_normal::{Conjunction, Numbered, Support};
use literals::Lit;
use std::alloc::Global;
use symbols::Memory;

/// Whether no atom leans on itself: whether the atoms can be given numbers so that each body that supports an
/// atom has only positive atoms with smaller ones (Fages).
///
/// `numbered` is the numbering of the program. Linear in both.
pub fn is_tight(alloc: Global, ground: &GroundProgram, numbered: &Numbered) -> Result<bool, Memory>
    requires { numbered.now ≡ numbering ground.now }
    ensures { IfOk result (λ yes. IsTrue yes ↔ IsTight numbered.now) }
{
    let count = ground.atoms.len() + 1;
    let rows = waits(
        alloc,
        count,
        numbered.bodies.items(),
        numbered.supports.items(),
    )?;
    let rules = waiting_rules(alloc, &rows)?;
    let done = least_model(alloc, count, &rules)?;
    Ok(are_all_set(done.items()))
}

// Whether all flags are set.
fn are_all_set(flags: &[bool]) -> bool
    ensures { IsTrue result ↔ All (λ flag. flag ≡ true) flags.now }
{
    flags.iter().all(|flag| *flag)
}

// So many rows with nothing in them.
fn empty_rows(alloc: Global, count: usize) -> Result<Vec<Vec<u32>>, Memory>
    ensures { IfOk result (λ rows. map vec_items rows.items ≡ map (λ a. []) (range_with_len 0 count)) }
{
    let mut rows = Vec::new(alloc);
    for _ in 0..count {
        rows.push(Vec::new(alloc))?;
    }
    Ok(rows)
}

// Adds the positive atoms of a body to a row.
fn add_positive(lits: &[Lit], row: &mut Vec<u32>) -> Result<(), Memory>
    ensures { OnOk result (row.new.items ≡ row.old.items ++ flat_map positive_atom lits.now) }
{
    for lit in lits {
        if let Lit::Atom(atom, true) = lit {
            row.push(*atom)?;
        }
    }
    Ok(())
}

// For each number below the count what the atom with that number waits for; 0 names no atom.
fn waits(
    alloc: Global,
    count: usize,
    bodies: &[Conjunction],
    supports: &[Support],
) -> Result<Vec<Vec<u32>>, Memory>
    requires { All (IsSupportBelow count (length bodies.now)) supports.now }
    ensures { IfOk result (λ rows. map vec_items rows.items ≡ map (waits_of bodies.now supports.now) (range_with_len 0 count)) }
{
    let mut rows = empty_rows(alloc, count)?;
    for support in supports {
        let body = &bodies[support.body as usize - 1];
        add_positive(body.lits.items(), &mut rows[support.atom as usize])?;
    }
    Ok(rows)
}

// A rule for each row, with the row's place as its head.
fn waiting_rules(alloc: Global, rows: &[Vec<u32>]) -> Result<DefiniteRules, Memory>
    requires { length rows.now ≤ 2 ^ 32 }
    ensures { IfOk result (λ rules. rules ≡ rules_with 0 (map vec_items rows.now)) }
{
    let mut rules = DefiniteRules::new(alloc);
    for at in 0..rows.len() {
        rules.push(at as u32, &rows[at])?;
    }
    Ok(rules)
}
