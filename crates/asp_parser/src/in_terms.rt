// Terms with their constants replaced.
ghost use Rattle.std.specs.Prelude.{◌≡◌, map, IfOk};
ghost use Rattle.std.specs.Option.{option_map};
ghost use Rattle.asp_parser.specs.Replacement as spec;

use crate::constant_table::ConstantTable;
use sqlite_items::{Boxed, Items};
use std::alloc::Global;
use symbols::{Listed, Memory};
use syntax_tree::{Part, Term};

// A copy of a name or a text.
pub(crate) fn copied(alloc: Global, bytes: &Listed<u8>) -> Result<Listed<u8>, Memory>
    ensures { IfOk result (λ copy. copy ≡ bytes.now) }
{
    Listed::from_slice(alloc, bytes.items())
}

// A term with its constants replaced.
#[cycle(in_terms)]
pub(crate) fn replaced(
    alloc: Global,
    term: &Term,
    constants: &ConstantTable,
) -> Result<Term, Memory>
    ensures { IfOk result (λ new. new ≡ spec.replaced constants.now term.now) }
{
    match term {
        Term::Number(n) => Ok(Term::Number(*n)),
        Term::Text(text) => Ok(Term::Text(copied(alloc, text)?)),
        Term::Variable(number) => Ok(Term::Variable(*number)),
        Term::Anonymous => Ok(Term::Anonymous),
        Term::Function(name, args) => named(alloc, name, args.as_slice(), constants),
        Term::Tuple(args) => Ok(Term::Tuple(arguments(alloc, args.as_slice(), constants)?)),
        Term::Sum(parts) => Ok(Term::Sum(replaced_parts(alloc, parts.as_slice(), constants)?)),
        Term::Product(parts) => Ok(Term::Product(replaced_parts(
            alloc,
            parts.as_slice(),
            constants,
        )?)),
        Term::Minus(inner) => Ok(Term::Minus(boxed(alloc, inner.get(), constants)?)),
        Term::Interval(left, right) => {
            let left = boxed(alloc, left.get(), constants)?;
            let right = boxed(alloc, right.get(), constants)?;
            Ok(Term::Interval(left, right))
        }
    }
}

// A term in a box.
#[cycle(in_terms)]
fn boxed(alloc: Global, term: &Term, constants: &ConstantTable) -> Result<Boxed<Term>, Memory>
    ensures { IfOk result (λ new. new ≡ spec.replaced constants.now term.now) }
{
    let term = replaced(alloc, term, constants)?;
    Ok(Boxed::new(alloc, term)?)
}

// A name with arguments, which is a constant's only where there are none.
#[cycle(in_terms)]
fn named(
    alloc: Global,
    name: &Listed<u8>,
    args: &[Term],
    constants: &ConstantTable,
) -> Result<Term, Memory>
    ensures { IfOk result (λ new. new ≡ spec.replaced_name constants.now name.now (map (spec.replaced constants.now) args.now)) }
{
    if args.is_empty() {
        return value_or_name(alloc, name, constants);
    }
    let args = arguments(alloc, args, constants)?;
    Ok(Term::Function(copied(alloc, name)?, args))
}

// A name without arguments, or its value where it is a constant.
fn value_or_name(
    alloc: Global,
    name: &Listed<u8>,
    constants: &ConstantTable,
) -> Result<Term, Memory>
    ensures { IfOk result (λ new. new ≡ spec.value_or_name name.now (spec.value_at constants.now name.now)) }
{
    match constants.value(alloc, name)? {
        Some(term) => Ok(term),
        None => Ok(Term::Function(copied(alloc, name)?, Items::new(alloc))),
    }
}

// Arguments with their constants replaced.
#[cycle(in_terms)]
fn arguments(alloc: Global, args: &[Term], constants: &ConstantTable) -> Result<Items<Term>, Memory>
    ensures { IfOk result (λ new. new ≡ map (spec.replaced constants.now) args.now) }
{
    let mut done = Items::new(alloc);
    for arg in args {
        done.push(replaced(alloc, arg, constants)?)?;
    }
    Ok(done)
}

// The parts of a sum or a product with their constants replaced.
#[cycle(in_terms)]
fn replaced_parts(
    alloc: Global,
    parts: &[Part],
    constants: &ConstantTable,
) -> Result<Items<Part>, Memory>
    ensures { IfOk result (λ new. new ≡ map (spec.replaced_part constants.now) parts.now) }
{
    let mut done = Items::new(alloc);
    for part in parts {
        let term = replaced(alloc, &part.term, constants)?;
        done.push(Part { op: part.op, term })?;
    }
    Ok(done)
}

// An atom with the constants in its arguments replaced; its name stays.
pub(crate) fn replaced_atom(
    alloc: Global,
    atom: &Term,
    constants: &ConstantTable,
) -> Result<Term, Memory>
    ensures { IfOk result (λ new. new ≡ spec.replaced_atom constants.now atom.now) }
{
    match atom {
        Term::Function(name, args) => {
            let args = arguments(alloc, args.as_slice(), constants)?;
            Ok(Term::Function(copied(alloc, name)?, args))
        }
        _ => replaced(alloc, atom, constants),
    }
}

// Terms in a list with their constants replaced.
pub(crate) fn replaced_all(
    alloc: Global,
    terms: &[Term],
    constants: &ConstantTable,
) -> Result<Listed<Term>, Memory>
    ensures { IfOk result (λ new. new ≡ map (spec.replaced constants.now) terms.now) }
{
    let mut done = Listed::new(alloc);
    for term in terms {
        done.push(replaced(alloc, term, constants)?)?;
    }
    Ok(done)
}

// A term that may be there, with its constants replaced.
pub(crate) fn replaced_option(
    alloc: Global,
    term: &Option<Term>,
    constants: &ConstantTable,
) -> Result<Option<Term>, Memory>
    ensures { IfOk result (λ new. new ≡ option_map (spec.replaced constants.now) term.now) }
{
    match term {
        Some(term) => Ok(Some(replaced(alloc, term, constants)?)),
        None => Ok(None),
    }
}
