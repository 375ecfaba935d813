// The variables of a rule that are unsafe.
ghost use Rattle.std.specs.Prelude.{◌≡◌, [], IfOk, OnOk};
ghost use Rattle.program_meaning.specs.Read.{rule_read};
ghost use Rattle.variable_safety.specs.Unsafe.{AreUnsafe};
ghost use Rattle.variable_safety.specs.inner.Occurring.{global_variables};
ghost use Rattle.variable_safety.specs.inner.Binding.{plain_literals};
ghost use Rattle.variable_safety.specs.inner.Noting.{Notes, IsLoose, IsLooseInRule};

use crate::flags::flags_of;
use crate::given::Given;
use crate::literals::{in_body, in_head};
use crate::noting::{note_body, note_head, note_loose};
use std::alloc::Global;
use symbols::{Listed, Memory};
use syntax_tree::Rule;

/// The flags of the unsafe variables of a rule that is rewritten, whose variables are these in order.
///
/// Linear in the rule but for its elements, each of which looks at all global variables.
pub fn unsafe_variables(alloc: Global, rule: &Rule, order: &[u32]) -> Result<Listed<bool>, Memory>
    ensures { IfOk result (AreUnsafe (rule_read rule.now order.now)) }
{
    if order.is_empty() {
        return Ok(Listed::new(alloc));
    }
    let globals = globals(alloc, rule)?;
    let found = loose_variables(alloc, rule, globals)?;
    let flags = flags_of(alloc, found.items())?;
    Ok(flags)
}

// The global variables of a rule, as often as they occur.
fn globals(alloc: Global, rule: &Rule) -> Result<Listed<u32>, Memory>
    ensures { IfOk result (λ globals. globals ≡ global_variables (rule_read rule.now [])) }
{
    let mut found = Listed::new(alloc);
    in_head(&rule.head, &mut found)?;
    in_body(rule.body.items(), &mut found)?;
    Ok(found)
}

// The variables that the body or the condition of their element does not bind.
fn loose_variables(alloc: Global, rule: &Rule, globals: Listed<u32>) -> Result<Listed<u32>, Memory>
    requires { globals ≡ global_variables (rule_read rule.now []) }
    ensures { IfOk result (λ found. Notes (IsLooseInRule (rule_read rule.now [])) [] found) }
{
    let mut found = Listed::new(alloc);
    note_globals(alloc, rule, globals.items(), &mut found)?;
    let given = Given::new(alloc, globals)?;
    note_head(alloc, &given, &rule.head, &mut found)?;
    note_body(alloc, &given, rule.body.items(), &mut found)?;
    Ok(found)
}

// Notes the global variables that the body does not bind.
fn note_globals(
    alloc: Global,
    rule: &Rule,
    globals: &[u32],
    found: &mut Listed<u32>,
) -> Result<(), Memory>
    ensures { OnOk result (Notes (IsLoose [] globals.now (plain_literals rule.now.body)) found.old found.new) }
{
    let none = Given::new(alloc, Listed::new(alloc))?;
    note_loose(alloc, &none, globals, rule.body.items(), found)?;
    Ok(())
}
