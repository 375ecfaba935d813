// Which predicates are reached.
ghost use Rattle.std.specs.Prelude.{◌≡◌, ◌↔◌, ◌<◌, ◌++◌, ◌∷◌, [], ℕ, List, true, length, Some, slice_get, IfOk, OnOk};
ghost use Rattle.definite_rules.specs.Least.{flag_at};
ghost use Rattle.program_meaning.specs.Read.{rule_read};
ghost use Rattle.predicate_order.specs.Ways as spec;
ghost use Rattle.predicate_order.specs.Ways.{NamedWay, IsReached};
ghost use Rattle.predicate_order.specs.Judged.{AreWays, Judges, AnyReached, Tells, IsTurning, AnyTurns};

use crate::predicate::Predicate;
use crate::reading::Reads;
use crate::reads::{named, step_reads};
use crate::ways::{Ways, number};
use indexmap::IndexSet;
use std::alloc::Global;
use symbols::{Listed, Memory};
use syntax_tree::{Rule, Term};

fn is_flagged(flags: &[bool], place: usize) -> bool
    ensures { result ≡ flag_at flags.now place }
{
    match flags.get(place) {
        Some(flag) => *flag,
        None => false,
    }
}

// Whether a predicate is reached.
fn is_reached(table: &IndexSet<Predicate>, flags: &[bool], predicate: &Predicate) -> bool
    ensures { (ways : List NamedWay) → Judges table.now.keys flags.now ways → (result ≡ true) ↔ IsReached ways predicate.now }
{
    match table.get_index_of(predicate) {
        Some(place) => is_flagged(flags, place),
        None => false,
    }
}

// Whether some of these predicates is reached.
fn any_reached(table: &IndexSet<Predicate>, flags: &[bool], predicates: &[Predicate]) -> bool
    ensures { (ways : List NamedWay) → Judges table.now.keys flags.now ways → (result ≡ true) ↔ AnyReached ways predicates.now }
{
    for predicate in predicates {
        if is_reached(table, flags, predicate) {
            return true;
        }
    }
    false
}

/// Whether the predicate of an atom is reached, if it has one.
pub fn is_atom_reached(
    alloc: Global,
    ways: &Ways,
    flags: &[bool],
    atom: &Term,
) -> Result<bool, Memory>
    ensures { IfOk result (λ answer. (named : List NamedWay) → Judges ways.now.table.keys flags.now named → Tells named atom.now answer) }
{
    match named(alloc, atom)? {
        Some(predicate) => Ok(is_reached(&ways.table, flags, &predicate)),
        None => Ok(false),
    }
}

/// Whether a rule is recursive, where these are the ways of the steps of all rules.
///
/// A pass over all steps for each predicate in the rule's head, where its body or condition has positive atoms.
pub fn is_turning(alloc: Global, rule: &Rule, ways: &mut Ways) -> Result<bool, Memory>
    requires { (named : List NamedWay) × AreWays named ways.old }
    ensures answer { IfOk result (λ answer. (named : List NamedWay) → AreWays named ways.old → (answer ≡ true) ↔ AnyTurns named (spec.step_reads (rule_read rule.now []))) }
    ensures kept { (named : List NamedWay) → AreWays named ways.old → AreWays named ways.new }
{
    let all = step_reads(alloc, rule)?;
    any_turns(alloc, all.items(), ways)
}

fn any_turns(alloc: Global, all: &[Reads], ways: &mut Ways) -> Result<bool, Memory>
    requires { (named : List NamedWay) × AreWays named ways.old }
    ensures answer { IfOk result (λ answer. (named : List NamedWay) → AreWays named ways.old → (answer ≡ true) ↔ AnyTurns named all.now) }
    ensures kept { (named : List NamedWay) → AreWays named ways.old → AreWays named ways.new }
{
    for reads in all {
        if turns(alloc, reads, ways)? {
            return Ok(true);
        }
    }
    Ok(false)
}

fn turns(alloc: Global, reads: &Reads, ways: &mut Ways) -> Result<bool, Memory>
    requires { (named : List NamedWay) × AreWays named ways.old }
    ensures answer { IfOk result (λ answer. (named : List NamedWay) → AreWays named ways.old → (answer ≡ true) ↔ IsTurning named reads.now) }
    ensures kept { (named : List NamedWay) → AreWays named ways.old → AreWays named ways.new }
{
    if reads.others.is_empty() {
        return Ok(false);
    }
    let head = copied(alloc, &reads.head)?;
    let start = number(&mut ways.table, head)?;
    let flags = ways.flags_from(alloc, start)?;
    Ok(any_reached(&ways.table, flags.items(), reads.others.items()))
}

// A predicate once more.
fn copied(alloc: Global, predicate: &Predicate) -> Result<Predicate, Memory>
    ensures { IfOk result (λ copy. copy ≡ predicate.now) }
{
    let name = Listed::from_slice(alloc, predicate.name.items())?;
    Ok(Predicate {
        name,
        count: predicate.count,
    })
}
