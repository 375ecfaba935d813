// The printed text of statements.
ghost use Rattle.std.specs.Prelude.{◌≡◌, ◌++◌, [], map, codes, decimal, OnOk};
ghost use Rattle.syntax_tree.specs.Printed as text;

use crate::literal_text::{write_condition, write_left, write_literals, write_right, write_theory};
use crate::rule::{Choice, ChoiceElement, Head, Name, Rule};
use crate::statement::Statement;
use crate::term::Term;
use crate::term_text::write_term;
use crate::writing::{mark_before, write_count};
use symbols::{Listed, Memory};

/// Appends the text of a statement, without a line end; after a refusal a part of it may stand there.
///
/// Brackets stand where an operand needs them and nowhere else, and the bounds of a choice always have their relation.
/// A variable with a number that has no name is written `_`. The text is written piece by piece at the list's end, in time
/// linear in it; the recursion is as deep as the statement nests.
pub fn print_statement(statement: &Statement, out: &mut Listed<u8>) -> Result<(), Memory>
    ensures { OnOk result (out.new ≡ out.old ++ text.statement_text statement.now) }
{
    match statement {
        Statement::Rule(rule) => write_rule(rule, out),
        Statement::Constant(name, term, _) => write_constant(name.items(), term, out),
        Statement::ShowNothing => out.append(b"#show."),
        Statement::Show(name, arity) => write_show(name.items(), *arity, out),
    }
}

// Appends the text of a rule.
fn write_rule(rule: &Rule, out: &mut Listed<u8>) -> Result<(), Memory>
    ensures { OnOk result (out.new ≡ out.old ++ text.rule_text rule.now) }
{
    write_head(&rule.head, rule.names.items(), out)?;
    out.append(arrow_text(&rule.head, rule.arrow))?;
    write_literals(rule.body.items(), rule.names.items(), out)?;
    out.append(b".")
}

// Appends the text of a constant's definition.
fn write_constant(name: &[u8], term: &Term, out: &mut Listed<u8>) -> Result<(), Memory>
    ensures { OnOk result (out.new ≡ out.old ++ (codes "#const " ++ name.now ++ codes " = " ++ text.term_text [] term.now ++ codes ".")) }
{
    out.append(b"#const ")?;
    out.append(name)?;
    out.append(b" = ")?;
    write_term(term, &[], out)?;
    out.append(b".")
}

// Appends the text of a predicate that is shown.
fn write_show(name: &[u8], arity: u32, out: &mut Listed<u8>) -> Result<(), Memory>
    ensures { OnOk result (out.new ≡ out.old ++ (codes "#show " ++ name.now ++ codes "/" ++ decimal arity ++ codes ".")) }
{
    out.append(b"#show ")?;
    out.append(name)?;
    out.append(b"/")?;
    write_count(arity, out)?;
    out.append(b".")
}

// What stands between a head and a body.
fn arrow_text(head: &Head, arrow: bool) -> &'static [u8]
    ensures { result.now ≡ text.arrow_text head.now arrow }
{
    match head {
        Head::Nothing => b":- ",
        _ => behind_head(arrow),
    }
}

fn behind_head(arrow: bool) -> &'static [u8]
    ensures { result.now ≡ text.behind_head arrow }
{
    if arrow { b" :- " } else { b"" }
}

// Appends the text of a head.
fn write_head(head: &Head, names: &[Name], out: &mut Listed<u8>) -> Result<(), Memory>
    ensures { OnOk result (out.new ≡ out.old ++ text.head_text names.now head.now) }
{
    match head {
        Head::Nothing => Ok(()),
        Head::Atom(atom) => write_term(atom, names, out),
        Head::Theory(atom) => write_theory(atom, names, out),
        Head::Choice(choice) => write_choice(choice, names, out),
    }
}

// Appends the text of a choice.
fn write_choice(choice: &Choice, names: &[Name], out: &mut Listed<u8>) -> Result<(), Memory>
    ensures { OnOk result (out.new ≡ out.old ++ text.choice_text names.now choice.now) }
{
    write_left(&choice.left, names, out)?;
    out.append(b"{")?;
    write_chosen(choice.elements.items(), names, out)?;
    out.append(b"}")?;
    write_right(&choice.right, names, out)
}

// Appends the texts of a choice's elements, with semicolons between them.
fn write_chosen(
    elements: &[ChoiceElement],
    names: &[Name],
    out: &mut Listed<u8>,
) -> Result<(), Memory>
    ensures { OnOk result (out.new ≡ out.old ++ text.parted (codes "; ") (map (text.chosen_text names.now) elements.now)) }
{
    for (index, element) in elements.iter().enumerate() {
        out.append(mark_before(index, b"; "))?;
        write_choice_element(element, names, out)?;
    }
    Ok(())
}

// Appends the text of an element of a choice.
fn write_choice_element(
    element: &ChoiceElement,
    names: &[Name],
    out: &mut Listed<u8>,
) -> Result<(), Memory>
    ensures { OnOk result (out.new ≡ out.old ++ text.chosen_text names.now element.now) }
{
    write_term(&element.atom, names, out)?;
    write_condition(element.condition.items(), names, out)
}
