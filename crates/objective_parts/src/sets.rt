// The sets of tuples of a program's directives.
ghost use Rattle.std.specs.Prelude.{◌≡◌, length, map, List, IfOk};
ghost use Rattle.syntax_tree.specs.declared.literal.TheoryName.TheVariants as name;
ghost use Rattle.program_meaning.specs.Read.{ReadRule};
ghost use Rattle.program_meaning.specs.Ascending.{IsOrderedListOf};
ghost use Rattle.program_meaning.specs.Canonical.{IsDirected};
ghost use Rattle.program_meaning.specs.Said.{place_in};
ghost use Rattle.program_meaning.specs.Theory.{place_cmp};
ghost use Rattle.directed_tuples.specs.Tuples.{HaveTuples, AreKnownTuples};
ghost use Rattle.objective_parts.specs.Sets.{HaveIds};

use crate::gathered::gathered;
use directed_tuples::Directive;
use ordered_tuples::ordered_tuples;
use program_meaning::CollectedPlace;
use std::alloc::Global;
use symbols::{Listed, Memory, SymbolTable};

/// The different tuples of `&minimize`, of `&maximize` and of `&show`, each set in order.
#[derive(Drop)]
pub struct DirectedPlaces {
    pub smaller: Listed<CollectedPlace>,
    pub larger: Listed<CollectedPlace>,
    pub shown: Listed<CollectedPlace>,
}

/// The sets of the tuples that a program's directives have, from those of all their relevant instances;
/// O(n log n) comparisons.
pub fn directed_places(
    alloc: Global,
    directives: Listed<Directive>,
    symbols: &SymbolTable,
) -> Result<DirectedPlaces, Memory>
    requires { AreKnownTuples (length symbols.now) directives }
    ensures smaller { IfOk result (λ made. (rules : List ReadRule) → HaveTuples rules symbols.now directives → IsOrderedListOf place_cmp (IsDirected rules name.Minimize) (map (place_in symbols.now) made.smaller)) }
    ensures larger { IfOk result (λ made. (rules : List ReadRule) → HaveTuples rules symbols.now directives → IsOrderedListOf place_cmp (IsDirected rules name.Maximize) (map (place_in symbols.now) made.larger)) }
    ensures shown { IfOk result (λ made. (rules : List ReadRule) → HaveTuples rules symbols.now directives → IsOrderedListOf place_cmp (IsDirected rules name.Show) (map (place_in symbols.now) made.shown)) }
    ensures known { IfOk result (HaveIds (length symbols.now)) }
{
    let all = gathered(alloc, directives)?;
    let smaller = ordered_tuples(all.smaller, symbols);
    let larger = ordered_tuples(all.larger, symbols);
    let shown = ordered_tuples(all.shown, symbols);
    Ok(DirectedPlaces {
        smaller,
        larger,
        shown,
    })
}
