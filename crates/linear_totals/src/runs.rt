// The sums of the coefficients of each variable.
ghost use Rattle.std.specs.Prelude.{◌≡◌, ◌<◌, ◌≤◌, ◌+◌, ◌^◌, ◌↔◌, ℕ, pos, true, Some, unsigned_abs, All, IfSome, IsTrue};
ghost use Rattle.std.specs.Ordering.{nat_cmp};
ghost use Rattle.ground_model.specs.Sound.{is_small as small, coefficient};
ghost use Rattle.linear_totals.specs.inner.Sums.{Climb, next_run, are_small_runs, run_in, IsNext};

use crate::constants::is_small;
use std::cmp::Ordering;
use symbols::SymbolId;

// The pairs of one variable so far: their sum.
#[derive(Clone, Copy)]
struct Run {
    variable: SymbolId,
    sum: i128,
}

// Whether the coefficients of each variable have a small sum.
pub(crate) fn has_small_sums(all: Vec<(SymbolId, i64)>) -> bool
    requires { All (λ pair. IsTrue (small pair.1)) all.items }
    ensures { IsTrue result ↔ ((x : ℕ) → small (coefficient x all.items) ≡ true) }
{
    let mut sorted = all;
    sorted.sort_unstable_by(|a, b| compare(a.0, b.0));
    has_small_runs(&sorted)
}

fn compare(one: SymbolId, other: SymbolId) -> Ordering
    ensures { result ≡ nat_cmp one other }
{
    one.place().cmp(&other.place())
}

// The same where pairs of one variable stand together.
fn has_small_runs(sorted: &[(SymbolId, i64)]) -> bool
    requires climb { Climb sorted.now }
    requires small { All (λ pair. IsTrue (small pair.1)) sorted.now }
    ensures { IsTrue result ↔ ((x : ℕ) → small (coefficient x sorted.now) ≡ true) }
{
    if sorted.is_empty() {
        return true;
    }
    run_from(sorted[0].0, sorted)
}

// The same from a first variable on.
fn run_from(first: SymbolId, sorted: &[(SymbolId, i64)]) -> bool
    requires { All (λ pair. IsTrue (small pair.1)) sorted.now }
    ensures { result ≡ are_small_runs (Some (first, pos 0)) sorted.now }
{
    let mut run = Run {
        variable: first,
        sum: 0,
    };
    for place in 0..sorted.len() {
        match with_pair(run, sorted[place]) {
            Some(next) => run = next,
            None => return false,
        }
    }
    is_small(run.sum)
}

// A run with one pair more, or a new run where the last one has a small sum.
fn with_pair(run: Run, pair: (SymbolId, i64)) -> Option<Run>
    requires sum { unsigned_abs run.sum < 2 ^ 126 }
    requires pair { IsTrue (small pair.1) }
    ensures next { IsNext result (next_run (run_in run) pair) }
    ensures size { IfSome result (λ next. unsigned_abs next.sum ≤ unsigned_abs run.sum + 2 ^ 62) }
{
    if pair.0 == run.variable {
        return Some(Run {
            variable: run.variable,
            sum: run.sum + pair.1 as i128,
        });
    }
    if is_small(run.sum) {
        return Some(Run {
            variable: pair.0,
            sum: pair.1 as i128,
        });
    }
    None
}
