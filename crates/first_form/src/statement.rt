// Statements of the first form.
ghost use Rattle.std.specs.Prelude.{◌≡◌, ◌<◌, List, [], ◌∷◌, length, map, IfOk};
ghost use Rattle.symbols.specs.Table.{symbol_at, IsFront, IsOnce};
ghost use Rattle.first_form.specs.inner.Answered.{Gives};
ghost use Rattle.first_form.specs.Form as form;
ghost use Rattle.first_form.specs.Form.{SymbolRule, States, rule_in, rules_in, AreKnown, HaveKnown};
ghost use Rattle.syntax_tree.specs.declared.statement.Statement.TheVariants.{Rule as RuleStatement};

use crate::stop::FormStop;
use crate::term::atom;
use std::alloc::Global;
use symbols::{Listed, SymbolId, SymbolTable};
use syntax_tree::{Head, Literal, Rule, Statement};

/// How deep argument lists may nest. The argument list of an atom has depth 1.
pub const MAX_DEPTH: usize = 64;

/// How many statements there may be.
pub const MAX_STATEMENTS: usize = 65536;

/// A rule whose head is an atom and whose body is atoms, all by their ids. The body of a fact is empty.
#[derive(Drop)]
pub struct DefiniteStatement {
    pub head: SymbolId,
    pub body: Listed<SymbolId>,
}

/// The rules that statements of the first form state, with their atoms put into the table.
///
/// Linear in the statements; the recursion is at most `MAX_DEPTH` argument lists deep. Where memory runs
/// out, or a statement is of another form, the symbols before it stay in the table.
pub fn read_statements(
    alloc: Global,
    statements: &[Statement],
    symbols: &mut SymbolTable,
) -> Result<Listed<DefiniteStatement>, FormStop>
    // What is read is what the statements state.
    ensures read { IfOk result (λ definite. States statements.now (rules_in symbols.new definite)) }

    // Statements that state rules are read, unless memory runs out.
    ensures other { result ≡ Err FormStop.OtherForm → (rules : List SymbolRule) → ¬ (States statements.now rules) }

    // The ids are of the table, where each earlier id keeps its symbol and no symbol stands twice.
    ensures ids { IfOk result (HaveKnown symbols.new) }
    ensures kept { IsFront symbols.old symbols.new }
    ensures once { IsOnce symbols.old → IsOnce symbols.new }
{
    if statements.len() > MAX_STATEMENTS {
        return Err(FormStop::OtherForm);
    }
    definite_statements(alloc, statements, symbols)
}

// The rules that statements state, however many they are.
fn definite_statements(
    alloc: Global,
    statements: &[Statement],
    symbols: &mut SymbolTable,
) -> Result<Listed<DefiniteStatement>, FormStop>
    ensures read { Gives (rules_in symbols.new) result (form.all_there (map form.rule_of statements.now)) }
    ensures known { IfOk result (HaveKnown symbols.new) }
    ensures kept { IsFront symbols.old symbols.new }
    ensures once { IsOnce symbols.old → IsOnce symbols.new }
{
    let mut found = Listed::new(alloc);
    for statement in statements {
        let item = definite_statement(alloc, statement, symbols)?;
        found.push(item)?;
    }
    Ok(found)
}

// The rule that a statement states.
fn definite_statement(
    alloc: Global,
    statement: &Statement,
    symbols: &mut SymbolTable,
) -> Result<DefiniteStatement, FormStop>
    ensures read { Gives (rule_in symbols.new) result (form.rule_of statement.now) }
    ensures known { IfOk result (λ definite. HaveKnown symbols.new (definite ∷ [])) }
    ensures kept { IsFront symbols.old symbols.new }
    ensures once { IsOnce symbols.old → IsOnce symbols.new }
{
    match statement {
        Statement::Rule(rule) => definite_rule(alloc, rule, symbols),
        _ => Err(FormStop::OtherForm),
    }
}

// The rule that a rule states.
fn definite_rule(
    alloc: Global,
    rule: &Rule,
    symbols: &mut SymbolTable,
) -> Result<DefiniteStatement, FormStop>
    ensures read { Gives (rule_in symbols.new) result (form.rule_of (RuleStatement rule.now)) }
    ensures known { IfOk result (λ definite. HaveKnown symbols.new (definite ∷ [])) }
    ensures kept { IsFront symbols.old symbols.new }
    ensures once { IsOnce symbols.old → IsOnce symbols.new }
{
    let head = head(alloc, &rule.head, symbols)?;
    let body = body(alloc, rule.body.items(), symbols)?;
    if rule.arrow == body.is_empty() {
        return Err(FormStop::OtherForm);
    }
    Ok(DefiniteStatement { head, body })
}

// The atom that a head is.
fn head(alloc: Global, head: &Head, symbols: &mut SymbolTable) -> Result<SymbolId, FormStop>
    ensures read { Gives (symbol_at symbols.new) result (form.head_of head.now) }
    ensures known { IfOk result (λ id. id < length symbols.new) }
    ensures kept { IsFront symbols.old symbols.new }
    ensures once { IsOnce symbols.old → IsOnce symbols.new }
{
    match head {
        Head::Atom(term) => atom(alloc, term, symbols),
        _ => Err(FormStop::OtherForm),
    }
}

// The atoms that literals are.
fn body(
    alloc: Global,
    literals: &[Literal],
    symbols: &mut SymbolTable,
) -> Result<Listed<SymbolId>, FormStop>
    ensures read { Gives (map (symbol_at symbols.new)) result (form.all_there (map form.literal_of literals.now)) }
    ensures known { IfOk result (AreKnown symbols.new) }
    ensures kept { IsFront symbols.old symbols.new }
    ensures once { IsOnce symbols.old → IsOnce symbols.new }
{
    let mut ids = Listed::new(alloc);
    for literal in literals {
        let id = positive(alloc, literal, symbols)?;
        ids.push(id)?;
    }
    Ok(ids)
}

// The atom that a literal is.
fn positive(
    alloc: Global,
    literal: &Literal,
    symbols: &mut SymbolTable,
) -> Result<SymbolId, FormStop>
    ensures read { Gives (symbol_at symbols.new) result (form.literal_of literal.now) }
    ensures known { IfOk result (λ id. id < length symbols.new) }
    ensures kept { IsFront symbols.old symbols.new }
    ensures once { IsOnce symbols.old → IsOnce symbols.new }
{
    match literal {
        Literal::Atom(term, true) => atom(alloc, term, symbols),
        _ => Err(FormStop::OtherForm),
    }
}
