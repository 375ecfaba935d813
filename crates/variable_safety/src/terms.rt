// The variables of a term.
ghost use Rattle.std.specs.Prelude.{◌≡◌, ◌++◌, map, OnOk};
ghost use Rattle.std.specs.List.{flat_map};
ghost use Rattle.program_meaning.specs.Variables as spec;
ghost use Rattle.variable_safety.specs.inner.Occurring.{joined, variables_in, variables_in_part, outside_in, optional_variables};

use symbols::{Listed, Memory};
use syntax_tree::{Part, Term};

// Puts the variables of a term behind those before them.
#[cycle(in_terms)]
pub(crate) fn variables(term: &Term, found: &mut Listed<u32>) -> Result<(), Memory>
    ensures { OnOk result (found.new ≡ found.old ++ variables_in term.now) }
{
    match term {
        Term::Number(_) => Ok(()),
        Term::Text(_) => Ok(()),
        Term::Variable(number) => {
            found.push(*number)?;
            Ok(())
        }
        Term::Anonymous => Ok(()),
        Term::Function(_, args) => in_arguments(args.as_slice(), found),
        Term::Tuple(args) => in_arguments(args.as_slice(), found),
        Term::Sum(parts) => in_parts(parts.as_slice(), found),
        Term::Product(parts) => in_parts(parts.as_slice(), found),
        Term::Minus(inner) => variables(inner.get(), found),
        Term::Interval(left, right) => {
            variables(left.get(), found)?;
            variables(right.get(), found)?;
            Ok(())
        }
    }
}

#[cycle(in_terms)]
fn in_arguments(args: &[Term], found: &mut Listed<u32>) -> Result<(), Memory>
    ensures { OnOk result (found.new ≡ found.old ++ joined (map variables_in args.now)) }
{
    for arg in args {
        variables(arg, found)?;
    }
    Ok(())
}

#[cycle(in_terms)]
fn in_parts(parts: &[Part], found: &mut Listed<u32>) -> Result<(), Memory>
    ensures { OnOk result (found.new ≡ found.old ++ joined (map variables_in_part parts.now)) }
{
    for part in parts {
        in_part(part, found)?;
    }
    Ok(())
}

#[cycle(in_terms)]
fn in_part(part: &Part, found: &mut Listed<u32>) -> Result<(), Memory>
    ensures { OnOk result (found.new ≡ found.old ++ variables_in_part part.now) }
{
    variables(&part.term, found)
}

// Puts the variables of terms in a list behind those before them.
pub(crate) fn in_terms(terms: &[Term], found: &mut Listed<u32>) -> Result<(), Memory>
    ensures { OnOk result (found.new ≡ found.old ++ flat_map variables_in terms.now) }
{
    for one in terms {
        variables(one, found)?;
    }
    Ok(())
}

// Puts the variables of a term that may be there behind those before them.
pub(crate) fn in_optional(term: &Option<Term>, found: &mut Listed<u32>) -> Result<(), Memory>
    ensures { OnOk result (found.new ≡ found.old ++ optional_variables term.now) }
{
    match term {
        Some(one) => variables(one, found),
        None => Ok(()),
    }
}

// Puts the variables that occur in a term outside arithmetic behind those before them.
#[cycle(outside_terms)]
pub(crate) fn outside(term: &Term, found: &mut Listed<u32>) -> Result<(), Memory>
    ensures { OnOk result (found.new ≡ found.old ++ outside_in term.now) }
{
    match term {
        Term::Number(_) => Ok(()),
        Term::Text(_) => Ok(()),
        Term::Variable(number) => {
            found.push(*number)?;
            Ok(())
        }
        Term::Anonymous => Ok(()),
        Term::Function(_, args) => outside_arguments(args.as_slice(), found),
        Term::Tuple(args) => outside_arguments(args.as_slice(), found),
        Term::Sum(_) => Ok(()),
        Term::Product(_) => Ok(()),
        Term::Minus(_) => Ok(()),
        Term::Interval(_, _) => Ok(()),
    }
}

#[cycle(outside_terms)]
fn outside_arguments(args: &[Term], found: &mut Listed<u32>) -> Result<(), Memory>
    ensures { OnOk result (found.new ≡ found.old ++ joined (map outside_in args.now)) }
{
    for arg in args {
        outside(arg, found)?;
    }
    Ok(())
}

// The number of the variable that a term is, if it is one.
pub(crate) fn plain_variable(term: &Term) -> Option<u32>
    ensures { result ≡ spec.plain_variable term.now }
{
    match term {
        Term::Number(_) => None,
        Term::Text(_) => None,
        Term::Variable(number) => Some(*number),
        Term::Anonymous => None,
        Term::Function(_, _) => None,
        Term::Tuple(_) => None,
        Term::Sum(_) => None,
        Term::Product(_) => None,
        Term::Minus(_) => None,
        Term::Interval(_, _) => None,
    }
}
