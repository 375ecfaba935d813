// The printed text of literals and theory atoms.
ghost use Rattle.std.specs.Prelude.{◌≡◌, ◌++◌, [], map, codes, OnOk};
ghost use Rattle.syntax_tree.specs.Printed as text;

use crate::literal::{Guard, Literal, TheoryAtom, TheoryElement, TheoryName};
use crate::rule::Name;
use crate::term::Term;
use crate::term_text::{write_behind_commas, write_term};
use crate::writing::mark_before;
use symbols::{Listed, Memory, Rel};

// A relation, with a blank on each side.
fn rel_text(rel: Rel) -> &'static [u8]
    ensures { result.now ≡ text.rel_text rel }
{
    match rel {
        Rel::Equal => b" = ",
        Rel::NotEqual => b" != ",
        Rel::Less => b" < ",
        Rel::LessEqual => b" <= ",
        Rel::Greater => b" > ",
        Rel::GreaterEqual => b" >= ",
    }
}

fn not_text(sign: bool) -> &'static [u8]
    ensures { result.now ≡ text.not_text sign }
{
    if sign { b"" } else { b"not " }
}

fn theory_name_text(name: TheoryName) -> &'static [u8]
    ensures { result.now ≡ text.theory_name_text name }
{
    match name {
        TheoryName::Sum => b"sum",
        TheoryName::Diff => b"diff",
        TheoryName::Distinct => b"distinct",
        TheoryName::Disjoint => b"disjoint",
        TheoryName::Dom => b"dom",
        TheoryName::Minimize => b"minimize",
        TheoryName::Maximize => b"maximize",
        TheoryName::Show => b"show",
        TheoryName::Unknown => b"unknown",
    }
}

// Appends what stands to the right of braces.
pub(crate) fn write_right(
    guard: &Option<Guard>,
    names: &[Name],
    out: &mut Listed<u8>,
) -> Result<(), Memory>
    ensures { OnOk result (out.new ≡ out.old ++ text.right_text names.now guard.now) }
{
    match guard {
        None => Ok(()),
        Some(guard) => {
            out.append(rel_text(guard.rel))?;
            write_term(&guard.right, names, out)
        }
    }
}

// Appends what stands to the left of braces.
pub(crate) fn write_left(
    guard: &Option<Guard>,
    names: &[Name],
    out: &mut Listed<u8>,
) -> Result<(), Memory>
    ensures { OnOk result (out.new ≡ out.old ++ text.left_text names.now guard.now) }
{
    match guard {
        None => Ok(()),
        Some(guard) => {
            write_term(&guard.right, names, out)?;
            out.append(rel_text(guard.rel))
        }
    }
}

// Appends the text of a duration, where there is one.
fn write_duration(
    duration: &Option<Term>,
    names: &[Name],
    out: &mut Listed<u8>,
) -> Result<(), Memory>
    ensures { OnOk result (out.new ≡ out.old ++ text.duration_text names.now duration.now) }
{
    match duration {
        None => Ok(()),
        Some(term) => {
            out.append(b"@")?;
            write_term(term, names, out)
        }
    }
}

// Appends the text of a comparison.
fn write_comparison(
    left: &Term,
    rel: Rel,
    right: &Term,
    names: &[Name],
    out: &mut Listed<u8>,
) -> Result<(), Memory>
    ensures { OnOk result (out.new ≡ out.old ++ (text.term_text names.now left.now ++ text.rel_text rel ++ text.term_text names.now right.now)) }
{
    write_term(left, names, out)?;
    out.append(rel_text(rel))?;
    write_term(right, names, out)
}

// Appends the text of an atom, behind `not` where it has no sign.
fn write_atom(atom: &Term, sign: bool, names: &[Name], out: &mut Listed<u8>) -> Result<(), Memory>
    ensures { OnOk result (out.new ≡ out.old ++ (text.not_text sign ++ text.term_text names.now atom.now)) }
{
    out.append(not_text(sign))?;
    write_term(atom, names, out)
}

// Appends the text of a literal.
#[cycle(write_literal)]
fn write_literal(literal: &Literal, names: &[Name], out: &mut Listed<u8>) -> Result<(), Memory>
    ensures { OnOk result (out.new ≡ out.old ++ text.literal_text names.now literal.now) }
{
    match literal {
        Literal::Atom(atom, sign) => write_atom(atom, *sign, names, out),
        Literal::Compare(left, rel, right) => write_comparison(left, *rel, right, names, out),
        Literal::Theory(atom, sign) => write_signed_theory(atom, *sign, names, out),
    }
}

// Appends the text of a theory atom, behind `not` where it has no sign.
#[cycle(write_literal)]
fn write_signed_theory(
    atom: &TheoryAtom,
    sign: bool,
    names: &[Name],
    out: &mut Listed<u8>,
) -> Result<(), Memory>
    ensures { OnOk result (out.new ≡ out.old ++ (text.not_text sign ++ text.theory_text names.now atom.now)) }
{
    out.append(not_text(sign))?;
    write_theory(atom, names, out)
}

// Appends the text of a theory atom.
#[cycle(write_literal)]
pub(crate) fn write_theory(
    atom: &TheoryAtom,
    names: &[Name],
    out: &mut Listed<u8>,
) -> Result<(), Memory>
    ensures { OnOk result (out.new ≡ out.old ++ text.theory_text names.now atom.now) }
{
    out.append(b"&")?;
    out.append(theory_name_text(atom.name))?;
    out.append(b"{")?;
    write_elements(atom.elements.as_slice(), names, out)?;
    out.append(b"}")?;
    write_right(&atom.guard, names, out)
}

// Appends the texts of elements, with semicolons between them.
#[cycle(write_literal)]
fn write_elements(
    elements: &[TheoryElement],
    names: &[Name],
    out: &mut Listed<u8>,
) -> Result<(), Memory>
    ensures { OnOk result (out.new ≡ out.old ++ text.parted (codes ";") (map (text.element_text names.now) elements.now)) }
{
    for (index, element) in elements.iter().enumerate() {
        out.append(mark_before(index, b";"))?;
        write_element(element, names, out)?;
    }
    Ok(())
}

// Appends the text of an element.
#[cycle(write_literal)]
fn write_element(
    element: &TheoryElement,
    names: &[Name],
    out: &mut Listed<u8>,
) -> Result<(), Memory>
    ensures { OnOk result (out.new ≡ out.old ++ text.element_text names.now element.now) }
{
    write_term(&element.first, names, out)?;
    write_duration(&element.duration, names, out)?;
    write_behind_commas(element.rest.items(), names, out)?;
    write_condition(element.condition.as_slice(), names, out)
}

// Appends the text of a condition behind its colon, where there is one.
#[cycle(write_literal)]
pub(crate) fn write_condition(
    literals: &[Literal],
    names: &[Name],
    out: &mut Listed<u8>,
) -> Result<(), Memory>
    ensures { OnOk result (out.new ≡ out.old ++ text.condition_text (map (text.literal_text names.now) literals.now)) }
{
    if literals.is_empty() {
        return Ok(());
    }
    out.append(b" : ")?;
    write_literals(literals, names, out)
}

// Appends the texts of literals, with commas between them.
#[cycle(write_literal)]
pub(crate) fn write_literals(
    literals: &[Literal],
    names: &[Name],
    out: &mut Listed<u8>,
) -> Result<(), Memory>
    ensures { OnOk result (out.new ≡ out.old ++ text.literals_text (map (text.literal_text names.now) literals.now)) }
{
    for (index, literal) in literals.iter().enumerate() {
        out.append(mark_before(index, b", "))?;
        write_literal(literal, names, out)?;
    }
    Ok(())
}
