// Levels of literals.
ghost use Rattle.std.specs.Prelude.{◌≡◌};
ghost use Rattle.std.specs.List.{AllByRecursion};
ghost use Rattle.trail.specs.Assignment.{Names};
ghost use Rattle.conflict_analysis.specs.Levels as level;
ghost use Rattle.conflict_analysis.specs.inner.Runs.{highest_but};

use literals::Lit;
use trail::Trail;

// The level of the entry by which the literal became true, 0 where the ends imply it.
fn level_on(trail: &Trail, lit: Lit) -> usize
    requires { Names trail.now.shape lit }
    ensures { result ≡ level.level_on trail.now lit }
{
    match trail.since(lit) {
        Some(place) => trail.entry(place).level,
        None => 0,
    }
}

/// The greatest level of the literals, 0 where there is none.
pub(crate) fn highest(trail: &Trail, lits: &[Lit]) -> usize
    requires { AllByRecursion (Names trail.now.shape) lits.now }
    ensures { result ≡ level.highest trail.now lits.now }
{
    let mut most = 0;
    for lit in lits {
        let level = level_on(trail, *lit);
        if most < level {
            most = level;
        }
    }
    most
}

/// The greatest level of the literals that are not of the level `high`.
pub(crate) fn next_highest(trail: &Trail, lits: &[Lit], high: usize) -> usize
    requires { AllByRecursion (Names trail.now.shape) lits.now }
    ensures { result ≡ highest_but trail.now high lits.now }
{
    let mut most = 0;
    for lit in lits {
        let level = level_on(trail, *lit);
        if level != high && most < level {
            most = level;
        }
    }
    most
}
