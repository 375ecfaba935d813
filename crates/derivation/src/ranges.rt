// Whether a line is one of the grammar: the ranges of its numbers, and the order of its lists.
ghost use Rattle.std.specs.Prelude.{◌≡◌, ◌^◌, nat_lt};
ghost use Rattle.literals.specs.Nogoods.{kind_of, index_of, is_before};
ghost use Rattle.derivation.specs.Spelling as spelled;
ghost use Rattle.derivation.specs.declared.line.Line.TheVariants as line;

use crate::line::Line;
use literals::Lit;

// Whether the number counts something from 1 on.
#[inline]
fn is_number(number: u32) -> bool
    ensures { result ≡ spelled.is_number number }
{
    number >= 1
}

// Whether the number is an id.
#[inline]
fn is_id(number: u64) -> bool
    ensures { result ≡ spelled.is_id number }
{
    number >= 1
}

// Whether the number counts something from 0 on, as each of 32 bits does.
#[inline]
fn is_count(_number: u32) -> bool
    ensures { result ≡ spelled.is_count _number }
{
    true
}

// Whether the number counts answers, as each of 64 bits does.
#[inline]
fn is_amount(_number: u64) -> bool
    ensures { result ≡ nat_lt _number (2 ^ 64) }
{
    true
}

// Whether the number is a value, as each of 32 bits is.
#[inline]
fn is_value(_number: i32) -> bool
    ensures { result ≡ spelled.is_value _number }
{
    true
}

// Whether the number is a cost, as each of 128 bits is.
#[inline]
fn is_cost(_number: i128) -> bool
    ensures { result ≡ spelled.is_cost _number }
{
    true
}

// Whether the number is an end of a window.
fn is_window_end(number: i64) -> bool
    ensures { result ≡ spelled.is_window_end number }
{
    number != i64::MIN
}

// Whether the number is an end of every variable.
fn is_domain_end(number: i32) -> bool
    ensures { result ≡ spelled.is_domain_end number }
{
    -1_073_741_823 <= number && number <= 1_073_741_823
}

// Which kind of literal it is, in the order of a nogood.
#[inline]
fn kind(lit: Lit) -> u8
    ensures { result ≡ kind_of lit }
{
    match lit {
        Lit::Atom(..) => 0,
        Lit::Body(..) => 1,
        Lit::Constraint(..) => 2,
        Lit::AtMost(..) | Lit::AtLeast(..) => 3,
    }
}

// Where it stands among the literals of its kind.
#[inline]
fn index(lit: Lit) -> u64
    ensures { result ≡ index_of lit }
{
    match lit {
        Lit::Atom(n, sign) | Lit::Body(n, sign) | Lit::Constraint(n, sign) => 2 * u64::from(n)
            + u64::from(!sign),
        Lit::AtMost(x, _) => 2 * u64::from(x),
        Lit::AtLeast(x, _) => 2 * u64::from(x) + 1,
    }
}

// Whether `a` stands before `b`.
#[inline]
fn before(a: Lit, b: Lit) -> bool
    ensures { result ≡ is_before a b }
{
    kind(a) < kind(b) || kind(a) == kind(b) && index(a) < index(b)
}

// Whether the literal may stand in a list.
#[inline]
fn is_listed(lit: Lit) -> bool
    ensures { result ≡ spelled.is_listed lit }
{
    match lit {
        Lit::Atom(n, _) | Lit::Body(n, _) | Lit::Constraint(n, _) => is_number(n),
        Lit::AtMost(x, k) => is_number(x) && -1_073_741_824 <= k && k <= 1_073_741_823,
        Lit::AtLeast(x, k) => is_number(x) && -1_073_741_823 <= k && k <= 1_073_741_824,
    }
}

// Whether each literal may stand in a list, and behind the one before it.
fn lits_follow(last: Lit, lits: &[Lit]) -> bool
    ensures { result ≡ spelled.lits_follow last lits.now }
{
    let mut last = last;
    for l in lits {
        if !before(last, *l) {
            return false;
        }
        if !is_listed(*l) {
            return false;
        }
        last = *l;
    }
    true
}

// Whether the literals are a list of a line.
fn are_lits(lits: &[Lit]) -> bool
    ensures { result ≡ spelled.are_lits lits.now }
{
    match lits {
        [] => true,
        [first, rest @ ..] => is_listed(*first) && lits_follow(*first, rest),
    }
}

// Whether the numbers ascend from 1 on.
fn ascend(numbers: &[u32]) -> bool
    ensures { result ≡ spelled.ascend 0 numbers.now }
{
    let mut last = 0;
    for n in numbers {
        if last >= *n {
            return false;
        }
        last = *n;
    }
    true
}

// Whether the variables ascend from 1 on.
fn values_ascend(values: &[(u32, i32)]) -> bool
    ensures { result ≡ spelled.values_ascend 0 values.now }
{
    let mut last = 0;
    for (x, k) in values {
        if last >= *x {
            return false;
        }
        if !is_value(*k) {
            return false;
        }
        last = *x;
    }
    true
}

// Whether each is a literal and an id.
fn are_pivots(pivots: &[(Lit, u64)]) -> bool
    ensures { result ≡ spelled.are_pivots pivots.now }
{
    for (lit, id) in pivots {
        if !is_listed(*lit) {
            return false;
        }
        if !is_id(*id) {
            return false;
        }
    }
    true
}

// Whether the header has the one version, and its numbers are in their ranges.
fn is_header(version: u8, min: i32, max: i32, limit: u64) -> bool
    ensures { result ≡ spelled.is_line (line.Header version min max limit) }
{
    version == 1
        && is_domain_end(min)
        && is_domain_end(max)
        && min <= max
        && 1 <= limit
        && limit <= 4_194_304
}

// Whether the line is one of the grammar.
pub(crate) fn is_line(line: &Line) -> bool
    ensures { result ≡ spelled.is_line line.now }
{
    match line {
        Line::Header(version, min, max, limit) => is_header(*version, *min, *max, *limit),
        Line::Sum(c, lits) => is_count(*c) && are_lits(lits.items()),
        Line::Distinct(c, a, b, lits) => is_number(*c)
            && is_window_end(*a)
            && is_window_end(*b)
            && are_lits(lits.items()),
        Line::Window(c, a, b, lits) => is_number(*c)
            && is_window_end(*a)
            && is_window_end(*b)
            && are_lits(lits.items()),
        Line::Pair(c, i, j, lits) => is_number(*c)
            && is_number(*i)
            && is_number(*j)
            && are_lits(lits.items()),
        Line::Loop(atoms, lits) => !atoms.is_empty()
            && ascend(atoms.items())
            && are_lits(lits.items()),
        Line::Hole(c, lits) => is_count(*c) && are_lits(lits.items()),
        Line::Learned(id, pivots, lits) => is_id(*id)
            && are_pivots(pivots.items())
            && are_lits(lits.items()),
        Line::Answer(atoms, values) => ascend(atoms.items()) && values_ascend(values.items()),
        Line::Better(cost, atoms, values) => is_cost(*cost)
            && ascend(atoms.items())
            && values_ascend(values.items()),
        Line::EndNone => true,
        Line::EndAll(n) => is_amount(*n),
        Line::EndBest(cost) => is_cost(*cost),
    }
}
