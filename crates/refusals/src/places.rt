// Where things stand in a rule's text.
ghost use Rattle.std.specs.Prelude.{◌≡◌, IfOk};
ghost use Rattle.load_meaning.specs.Lines as spec;
ghost use Rattle.refusals.specs.inner.Places.{atom_place_in, variable_place_in};

use crate::flags::{atom_flags, before_true, variable_flags};
use rewriting::Sight;
use std::alloc::Global;
use symbols::Memory;
use syntax_tree::Rule;

/// The byte of the rule, 0, or of what is seen in it, from 1; 0 where there is none.
pub(crate) fn place_at(rule: &Rule, n: usize) -> usize
    ensures { result ≡ spec.place_at rule.now n }
{
    let places = rule.places.items();
    if n < places.len() { places[n] } else { 0 }
}

/// Where a variable first stands.
pub(crate) fn variable_place(
    alloc: Global,
    rule: &Rule,
    sights: &[Sight],
    number: u32,
) -> Result<usize, Memory>
    ensures { IfOk result (λ at. at ≡ variable_place_in rule.now sights.now number) }
{
    let flags = variable_flags(alloc, number, sights)?;
    let before = before_true(0, flags.items());
    Ok(place_at(rule, before + 1))
}

/// Where the atom with this number stands, from 0.
pub(crate) fn atom_place(
    alloc: Global,
    rule: &Rule,
    sights: &[Sight],
    number: usize,
) -> Result<usize, Memory>
    ensures { IfOk result (λ at. at ≡ atom_place_in rule.now sights.now number) }
{
    let flags = atom_flags(alloc, sights)?;
    let before = before_true(number, flags.items());
    Ok(place_at(rule, before + 1))
}
