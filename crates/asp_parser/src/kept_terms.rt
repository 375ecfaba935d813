// Terms that their constants leave as they are, which need not be made anew.
ghost use Rattle.std.specs.Prelude.{◌≡◌, map, IsTrue};
ghost use Rattle.std.specs.Option.{option_map};
ghost use Rattle.syntax_tree.specs.declared.term.Term.TheVariants.{Function};
ghost use Rattle.asp_parser.specs.Replacement as spec;

use crate::constant_table::ConstantTable;
use symbols::Listed;
use syntax_tree::{Part, Term};

// Whether no constant stands in a term.
#[cycle(kept_terms)]
pub(crate) fn is_kept(term: &Term, constants: &ConstantTable) -> bool
    ensures { IsTrue result → spec.replaced constants.now term.now ≡ term.now }
{
    match term {
        Term::Number(_) => true,
        Term::Text(_) => true,
        Term::Variable(_) => true,
        Term::Anonymous => true,
        Term::Function(name, args) => is_name_kept(name, args.as_slice(), constants),
        Term::Tuple(args) => are_kept(args.as_slice(), constants),
        Term::Sum(parts) => are_parts_kept(parts.as_slice(), constants),
        Term::Product(parts) => are_parts_kept(parts.as_slice(), constants),
        Term::Minus(inner) => is_kept(inner.get(), constants),
        Term::Interval(left, right) => {
            let left = is_kept(left.get(), constants);
            let right = is_kept(right.get(), constants);
            left && right
        }
    }
}

// Whether a name with arguments stays, and each argument.
#[cycle(kept_terms)]
fn is_name_kept(name: &Listed<u8>, args: &[Term], constants: &ConstantTable) -> bool
    ensures { IsTrue result → spec.replaced_name constants.now name.now (map (spec.replaced constants.now) args.now) ≡ Function name.now args.now }
{
    if args.is_empty() {
        return !constants.has(name);
    }
    are_kept(args, constants)
}

// Whether no constant stands in terms.
#[cycle(kept_terms)]
pub(crate) fn are_kept(terms: &[Term], constants: &ConstantTable) -> bool
    ensures { IsTrue result → map (spec.replaced constants.now) terms.now ≡ terms.now }
{
    for term in terms {
        if !is_kept(term, constants) {
            return false;
        }
    }
    true
}

#[cycle(kept_terms)]
fn are_parts_kept(parts: &[Part], constants: &ConstantTable) -> bool
    ensures { IsTrue result → map (spec.replaced_part constants.now) parts.now ≡ parts.now }
{
    for part in parts {
        if !is_kept(&part.term, constants) {
            return false;
        }
    }
    true
}

// Whether no constant stands in the arguments of an atom.
pub(crate) fn is_atom_kept(atom: &Term, constants: &ConstantTable) -> bool
    ensures { IsTrue result → spec.replaced_atom constants.now atom.now ≡ atom.now }
{
    match atom {
        Term::Function(_, args) => are_kept(args.as_slice(), constants),
        _ => is_kept(atom, constants),
    }
}

// Whether no constant stands in a term that may be there.
pub(crate) fn is_option_kept(term: &Option<Term>, constants: &ConstantTable) -> bool
    ensures { IsTrue result → option_map (spec.replaced constants.now) term.now ≡ term.now }
{
    match term {
        Some(term) => is_kept(term, constants),
        None => true,
    }
}
