// Which directives a program has.
ghost use Rattle.std.specs.Prelude.{◌≡◌, List, ℕ, length};
ghost use Rattle.std.specs.List.{list_any};
ghost use Rattle.program_meaning.specs.Read.{head_read, rules_read};
ghost use Rattle.program_meaning.specs.Canonical.{has_name, head_directs as head_test, has_directive as directive_test, has_objective as objective_test};
ghost use Rattle.shown_flags.specs.inner.Directives.{directs as statement_test};

use syntax_tree::{Head, Statement, TheoryName};

/// Whether a program has a statement with this directive.
#[tactic(auto, using(crate::proofs::DirectiveLemmas::any_directs))]
pub fn has_directive(statements: &[Statement], name: TheoryName) -> bool
    ensures { (orders : List (List ℕ)) → length orders ≡ length statements.now → result ≡ directive_test (rules_read statements.now orders) name }
{
    any_directs(statements, name)
}

/// Whether it has a `&minimize` or a `&maximize`.
pub fn has_objective(statements: &[Statement]) -> bool
    ensures { (orders : List (List ℕ)) → length orders ≡ length statements.now → result ≡ objective_test (rules_read statements.now orders) }
{
    let smaller = has_directive(statements, TheoryName::Minimize);
    let larger = has_directive(statements, TheoryName::Maximize);
    smaller || larger
}

// Whether one of the statements has the directive.
fn any_directs(statements: &[Statement], name: TheoryName) -> bool
    ensures { result ≡ list_any (statement_test name) statements.now }
{
    for statement in statements {
        if directs(statement, name) {
            return true;
        }
    }
    false
}

// Whether a statement has the directive.
fn directs(statement: &Statement, name: TheoryName) -> bool
    ensures { result ≡ statement_test name statement.now }
{
    match statement {
        Statement::Rule(rule) => head_directs(&rule.head, name),
        Statement::Constant(_, _, _) => false,
        Statement::ShowNothing => false,
        Statement::Show(_, _) => false,
    }
}

// Whether a head has it.
fn head_directs(head: &Head, name: TheoryName) -> bool
    ensures { result ≡ head_test name (head_read head.now) }
{
    match head {
        Head::Nothing => false,
        Head::Atom(_) => false,
        Head::Theory(theory) => is_named(name, theory.name),
        Head::Choice(_) => false,
    }
}

// Whether the directive is the one.
fn is_named(directive: TheoryName, name: TheoryName) -> bool
    ensures { result ≡ has_name directive name }
{
    match directive {
        TheoryName::Minimize => matches!(name, TheoryName::Minimize),
        TheoryName::Maximize => matches!(name, TheoryName::Maximize),
        TheoryName::Show => matches!(name, TheoryName::Show),
        TheoryName::Sum => false,
        TheoryName::Diff => false,
        TheoryName::Distinct => false,
        TheoryName::Disjoint => false,
        TheoryName::Dom => false,
        TheoryName::Unknown => false,
    }
}
