// The theory atoms of an instance, one by one.
ghost use Rattle.std.specs.Prelude.{◌≡◌, true, false, List, length, map};
ghost use Rattle.std.specs.List.{AllByRecursion, AllZip};
ghost use Rattle.symbols.specs.Symbol.{Symbol};
ghost use Rattle.ground_model.specs.Members.{IsMember};
ghost use Rattle.program_meaning.specs.Outside.{HasLargeValue};
ghost use Rattle.program_meaning.specs.Read.{ReadTheory, ReadRule};
ghost use Rattle.program_meaning.specs.Said.{place_in};
ghost use Rattle.program_meaning.specs.Substitution.{Value};
ghost use Rattle.program_meaning.specs.Tuples.{theories};
ghost use Rattle.theory_plans.specs.Planned.{IsTheoryPlan};
ghost use Rattle.collected_atoms.specs.Said.{IsAtomIn, IsKnownAtom};
ghost use Rattle.large_atoms.specs.inner.Large.{is_large, is_large_form};

use collected_atoms::CollectedAtom;
use large_values::has_large_value;
use symbols::{Ends, SymbolTable};
use syntax_tree::TheoryName;
use theory_plans::TheoryPlan;

/// Whether one of the theory atoms of a rule has too large a value over the ends, where these are their collected forms
/// under an instance of the rule.
pub fn has_large_atom(
    ends: Ends,
    plans: &[TheoryPlan],
    atoms: &[CollectedAtom],
    symbols: &SymbolTable,
) -> bool
    requires known { AllByRecursion (IsKnownAtom symbols.now) atoms.now }
    requires each { length plans.now ≡ length atoms.now }
    ensures large { result ≡ true → (possible : List Symbol) (rule : ReadRule) (values : List Value) → AllZip (IsTheoryPlan rule) (theories rule) plans.now
        → AllZip (IsAtomIn symbols.now (IsMember possible) rule values) (theories rule) atoms.now
        → (theory : ReadTheory) × IsMember (theories rule) theory × HasLargeValue (IsMember possible) ends rule values theory }
    ensures small { result ≡ false → (possible : List Symbol) (rule : ReadRule) (values : List Value) → AllZip (IsTheoryPlan rule) (theories rule) plans.now
        → AllZip (IsAtomIn symbols.now (IsMember possible) rule values) (theories rule) atoms.now
        → (theory : ReadTheory) → IsMember (theories rule) theory → HasLargeValue (IsMember possible) ends rule values theory → ⊥ }
{
    for place in 0..atoms.len() {
        if is_large_atom(ends, plans[place].theory.name, &atoms[place], symbols) {
            return true;
        }
    }
    false
}

// Whether a theory atom of this name has.
fn is_large_atom(ends: Ends, name: TheoryName, atom: &CollectedAtom, symbols: &SymbolTable) -> bool
    requires { IsKnownAtom symbols.now atom.now }
    ensures { result ≡ is_large_form ends name (map (place_in symbols.now) atom.now.places) }
{
    match name {
        TheoryName::Distinct => is_large_set(ends, atom, symbols),
        TheoryName::Disjoint => is_large_set(ends, atom, symbols),
        TheoryName::Sum => false,
        TheoryName::Diff => false,
        TheoryName::Dom => false,
        TheoryName::Minimize => false,
        TheoryName::Maximize => false,
        TheoryName::Show => false,
        TheoryName::Unknown => false,
    }
}

fn is_large_set(ends: Ends, atom: &CollectedAtom, symbols: &SymbolTable) -> bool
    requires { IsKnownAtom symbols.now atom.now }
    ensures { result ≡ is_large ends (map (place_in symbols.now) atom.now.places) }
{
    has_large_value(ends, atom.places.items(), symbols)
}
