// The names of theory atoms, and what they ask for.
ghost use Rattle.std.specs.Prelude.{◌≡◌, Some, None};
ghost use Rattle.theory_grammar.specs.TheoryState.{relation_there};
ghost use Rattle.grammar.specs.Check as spec;
ghost use Rattle.grammar.specs.StatementTree.{theory_name as name_of};

use symbols::Rel;
use syntax_tree::{Guard, TheoryName};

// The theory atom of a name.
pub(crate) fn theory_name(name: &[u8]) -> TheoryName
    ensures { result ≡ name_of name.now }
{
    if name == b"sum".as_slice() {
        TheoryName::Sum
    } else if name == b"diff".as_slice() {
        TheoryName::Diff
    } else if name == b"distinct".as_slice() {
        TheoryName::Distinct
    } else if name == b"disjoint".as_slice() {
        TheoryName::Disjoint
    } else if name == b"dom".as_slice() {
        TheoryName::Dom
    } else if name == b"minimize".as_slice() {
        TheoryName::Minimize
    } else if name == b"maximize".as_slice() {
        TheoryName::Maximize
    } else if name == b"show".as_slice() {
        TheoryName::Show
    } else {
        TheoryName::Unknown
    }
}

pub(crate) fn is_unknown(name: TheoryName) -> bool
    ensures { result ≡ spec.is_unknown name }
{
    match name {
        TheoryName::Unknown => true,
        _ => false,
    }
}

pub(crate) fn is_disjoint(name: TheoryName) -> bool
    ensures { result ≡ spec.is_disjoint name }
{
    match name {
        TheoryName::Disjoint => true,
        _ => false,
    }
}

pub(crate) fn is_dom(name: TheoryName) -> bool
    ensures { result ≡ spec.is_dom name }
{
    match name {
        TheoryName::Dom => true,
        _ => false,
    }
}

pub(crate) fn is_diff(name: TheoryName) -> bool
    ensures { result ≡ spec.is_diff name }
{
    match name {
        TheoryName::Diff => true,
        _ => false,
    }
}

// Whether elements have their first place alone.
pub(crate) fn has_one_place(name: TheoryName) -> bool
    ensures { result ≡ spec.has_one_place name }
{
    match name {
        TheoryName::Diff | TheoryName::Dom | TheoryName::Show => true,
        _ => false,
    }
}

pub(crate) fn is_equal(rel: Rel) -> bool
    ensures { result ≡ spec.is_equal rel }
{
    match rel {
        Rel::Equal => true,
        _ => false,
    }
}

// Whether a guard is wrong, by its relation.
pub(crate) fn is_bad_guard(name: TheoryName, guard: Option<Rel>) -> bool
    ensures { result ≡ spec.is_bad_guard name guard }
{
    match guard {
        None => lacks_guard(name),
        Some(rel) => refuses_guard(name, rel),
    }
}

fn lacks_guard(name: TheoryName) -> bool
    ensures { result ≡ spec.is_bad_guard name None }
{
    match name {
        TheoryName::Sum | TheoryName::Diff | TheoryName::Dom => true,
        _ => false,
    }
}

fn refuses_guard(name: TheoryName, rel: Rel) -> bool
    ensures { result ≡ spec.is_bad_guard name (Some rel) }
{
    match name {
        TheoryName::Sum | TheoryName::Diff | TheoryName::Unknown => false,
        TheoryName::Dom => !is_equal(rel),
        _ => true,
    }
}

// The relation of a guard.
pub(crate) fn relation_of(guard: &Option<Guard>) -> Option<Rel>
    ensures { result ≡ relation_there guard.now }
{
    match guard {
        Some(guard) => Some(guard.rel),
        None => None,
    }
}
