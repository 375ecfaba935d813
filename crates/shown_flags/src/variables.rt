// Which integer variables are shown.
ghost use Rattle.std.specs.Prelude.{◌≡◌, ◌<◌, ◌||◌, not, List, length, map, IfOk};
ghost use Rattle.std.specs.List.{AllByRecursion, AllZip};
ghost use Rattle.symbols.specs.Table.{symbol_at};
ghost use Rattle.syntax_tree.specs.declared.literal.TheoryName.TheVariants as name;
ghost use Rattle.program_meaning.specs.Read.{ReadRule};
ghost use Rattle.program_meaning.specs.Canonical.{has_directive, IsShownFlag};
ghost use Rattle.symbol_rules.specs.Reading.{HasPlace};
ghost use Rattle.directed_tuples.specs.Tuples.{AreTuplesOf};
ghost use Rattle.shown_flags.specs.inner.Lone.{flag_of};

use crate::lone::lone_variables;
use program_meaning::CollectedPlace;
use std::alloc::Global;
use symbols::{Listed, Memory, SymbolId, SymbolTable};

/// For each integer variable whether it is shown, where `shows` says whether the program has a `&show`, and the
/// tuples are those of its directives `&show`. Linear in them and the table.
pub fn shown_variables(
    alloc: Global,
    shows: bool,
    shown: &[CollectedPlace],
    variables: &[SymbolId],
    symbols: &SymbolTable,
) -> Result<Listed<bool>, Memory>
    requires shown { AllByRecursion (HasPlace (length symbols.now)) shown.now }
    requires variables { AllByRecursion (λ id. id < length symbols.now) variables.now }
    ensures { IfOk result (λ flags. (rules : List ReadRule) → has_directive rules name.Show ≡ shows → AreTuplesOf rules symbols.now name.Show shown.now → AllZip (IsShownFlag rules) (map (symbol_at symbols.now) variables.now) flags) }
{
    symbols.symbols_are_distinct();
    let marks = lone_variables(alloc, symbols.len(), shown)?;
    let made = flags(alloc, shows, &marks, variables)?;
    Ok(made)
}

// Whether a variable is shown.
fn flag(shows: bool, marks: &[bool], id: SymbolId) -> bool
    requires { id < length marks.now }
    ensures { result ≡ (not shows || flag_of marks.now id) }
{
    !shows || marks[id.place()]
}

// The flags of variables.
fn flags(
    alloc: Global,
    shows: bool,
    marks: &[bool],
    variables: &[SymbolId],
) -> Result<Listed<bool>, Memory>
    requires { AllByRecursion (λ id. id < length marks.now) variables.now }
    ensures { IfOk result (λ flags. flags ≡ map (λ id. not shows || flag_of marks.now id) variables.now) }
{
    let mut flags = Listed::new(alloc);
    for id in variables {
        flags.push(flag(shows, marks, *id))?;
    }
    Ok(flags)
}
