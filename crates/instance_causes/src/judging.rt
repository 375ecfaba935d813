// The theory atoms of an instance, judged.
ghost use Rattle.std.specs.Prelude.{◌≡◌, List, length, map, All, IfOk, IfErr, Some};
ghost use Rattle.std.specs.List.{AllByRecursion};
ghost use Rattle.symbols.specs.Table.{IsFront};
ghost use Rattle.syntax_tree.specs.Outcome.{IsKnown};
ghost use Rattle.ground_model.specs.Members.{IsMember, IsListOf};
ghost use Rattle.program_meaning.specs.Instance.{IsPossible};
ghost use Rattle.program_meaning.specs.Read.{ReadRule};
ghost use Rattle.program_meaning.specs.Said.{value_in};
ghost use Rattle.match_index.specs.Atoms.{IsIndexOf};
ghost use Rattle.row_tests.specs.Judged.{atoms_in};
ghost use Rattle.collected_atoms.specs.Said.{IsKnownAtom};
ghost use Rattle.instance_atoms.specs.Collected.{ArePlansOf, FitsPlans, AreAtomsIn};
ghost use Rattle.outside_laws.specs.Judging.{IsNotOver};
ghost use Rattle.instance_causes.specs.Causes.{IsInside, IsStopAt};

use instance_atoms::collect_atoms;
use large_atoms::has_large_atom;
use match_index::Index;
use std::alloc::Global;
use symbols::{Ends, Listed, SymbolTable};
use syntax_tree::Value;
use theory_ground::{CollectStop, CollectedAtom, OutsideCause};
use theory_plans::TheoryPlan;

/// The collected forms of the theory atoms of an instance whose plans are given, at which nothing outside them is over;
/// or its first cause. The rule's global variables have these values, and the possible atoms are those of the index.
pub fn judge_atoms(
    alloc: Global,
    plans: &[TheoryPlan],
    values: &[Value],
    index: &Index,
    ends: Ends,
    symbols: &mut SymbolTable,
    most: usize,
) -> Result<Listed<CollectedAtom>, CollectStop>
    requires plans { ArePlansOf plans.now (length values.now) }
    requires values { All (λ value. IsKnown (length symbols.old) (Some value)) values.now }
    requires index { IsIndexOf symbols.old index.now }
    ensures collected { IfOk result (λ atoms. FitsPlans plans.now (length values.now) (λ rule. AreAtomsIn symbols.new (IsMember (atoms_in symbols.old index.now)) rule (map (value_in symbols.old) values.now) atoms)) }
    ensures inside { IfOk result (λ atoms. FitsPlans plans.now (length values.now) (λ rule. (rules : List ReadRule) → IsListOf (IsPossible rules) (atoms_in symbols.old index.now)
        → IsNotOver (IsPossible rules) rule (map (value_in symbols.old) values.now) → IsInside rules ends rule (map (value_in symbols.old) values.now))) }
    ensures stop { IfErr result (λ stop. FitsPlans plans.now (length values.now) (λ rule. (rules : List ReadRule) → IsListOf (IsPossible rules) (atoms_in symbols.old index.now)
        → IsNotOver (IsPossible rules) rule (map (value_in symbols.old) values.now) → IsStopAt rules ends rule (map (value_in symbols.old) values.now) most stop)) }
    ensures known { IfOk result (AllByRecursion (IsKnownAtom symbols.new)) }
    ensures kept { IsFront symbols.old symbols.new }
{
    match collect_atoms(alloc, plans, values, index, symbols, most) {
        Ok(atoms) => {
            if has_large_atom(ends, plans, atoms.items(), symbols) {
                return Err(CollectStop::Outside(OutsideCause::TooLarge));
            }
            Ok(atoms)
        }
        Err(stop) => Err(stop),
    }
}
