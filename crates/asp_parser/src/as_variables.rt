// Terms with the constants that stand in them as variables, so that a term's value is had from the values of constants by
// id, and not from the trees of these values, which may be large.
ghost use Rattle.std.specs.Prelude.{◌≡◌, map, IfOk};
ghost use Rattle.asp_parser.specs.ConstantTable as spec;

use crate::constant_table::ConstantTable;
use crate::in_terms::copied;
use sqlite_items::{Boxed, Items};
use std::alloc::Global;
use symbols::{Listed, Memory};
use syntax_tree::{Part, Term};

// A term with its constants as variables. A variable that stands in it gives way to `_`, which has no value either.
#[cycle(as_variables)]
pub(crate) fn as_variables(
    alloc: Global,
    term: &Term,
    constants: &ConstantTable,
) -> Result<Term, Memory>
    ensures { IfOk result (λ new. new ≡ spec.as_variables constants.now term.now) }
{
    match term {
        Term::Number(n) => Ok(Term::Number(*n)),
        Term::Text(text) => Ok(Term::Text(copied(alloc, text)?)),
        Term::Variable(_) => Ok(Term::Anonymous),
        Term::Anonymous => Ok(Term::Anonymous),
        Term::Function(name, args) => named(alloc, name, args.as_slice(), constants),
        Term::Tuple(args) => Ok(Term::Tuple(arguments(alloc, args.as_slice(), constants)?)),
        Term::Sum(parts) => Ok(Term::Sum(in_parts(alloc, parts.as_slice(), constants)?)),
        Term::Product(parts) => Ok(Term::Product(in_parts(alloc, parts.as_slice(), constants)?)),
        Term::Minus(inner) => Ok(Term::Minus(boxed(alloc, inner.get(), constants)?)),
        Term::Interval(left, right) => {
            let left = boxed(alloc, left.get(), constants)?;
            let right = boxed(alloc, right.get(), constants)?;
            Ok(Term::Interval(left, right))
        }
    }
}

// A term in a box.
#[cycle(as_variables)]
fn boxed(alloc: Global, term: &Term, constants: &ConstantTable) -> Result<Boxed<Term>, Memory>
    ensures { IfOk result (λ new. new ≡ spec.as_variables constants.now term.now) }
{
    let term = as_variables(alloc, term, constants)?;
    Ok(Boxed::new(alloc, term)?)
}

// A name with arguments, which is a constant's only where there are none.
#[cycle(as_variables)]
fn named(
    alloc: Global,
    name: &Listed<u8>,
    args: &[Term],
    constants: &ConstantTable,
) -> Result<Term, Memory>
    ensures { IfOk result (λ new. new ≡ spec.name_as_variable constants.now name.now (map (spec.as_variables constants.now) args.now)) }
{
    if args.is_empty() {
        return variable_or_name(alloc, name, constants);
    }
    let args = arguments(alloc, args, constants)?;
    Ok(Term::Function(copied(alloc, name)?, args))
}

// A name without arguments, or the variable that it is where it is a constant.
fn variable_or_name(
    alloc: Global,
    name: &Listed<u8>,
    constants: &ConstantTable,
) -> Result<Term, Memory>
    ensures { IfOk result (λ new. new ≡ spec.variable_or_name name.now (spec.number_at constants.now name.now)) }
{
    match constants.number(name)? {
        Some(number) => Ok(Term::Variable(number)),
        None => Ok(Term::Function(copied(alloc, name)?, Items::new(alloc))),
    }
}

// Arguments with their constants as variables.
#[cycle(as_variables)]
fn arguments(alloc: Global, args: &[Term], constants: &ConstantTable) -> Result<Items<Term>, Memory>
    ensures { IfOk result (λ new. new ≡ map (spec.as_variables constants.now) args.now) }
{
    let mut done = Items::new(alloc);
    for arg in args {
        done.push(as_variables(alloc, arg, constants)?)?;
    }
    Ok(done)
}

// The parts of a sum or a product with their constants as variables.
#[cycle(as_variables)]
fn in_parts(alloc: Global, parts: &[Part], constants: &ConstantTable) -> Result<Items<Part>, Memory>
    ensures { IfOk result (λ new. new ≡ map (spec.part_as_variables constants.now) parts.now) }
{
    let mut done = Items::new(alloc);
    for part in parts {
        let term = as_variables(alloc, &part.term, constants)?;
        done.push(Part { op: part.op, term })?;
    }
    Ok(done)
}
