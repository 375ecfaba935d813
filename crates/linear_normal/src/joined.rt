// Pairs of variables and coefficients, joined by variable.
ghost use Rattle.std.specs.Prelude.{◌≡◌, ◌++◌, ℕ, true, length, IfOk, OnOk};
ghost use Rattle.std.specs.List.{AllByRecursion};
ghost use Rattle.ground_model.specs.Sizes.{IsSoundPair};
ghost use Rattle.ground_model.specs.Sound.{is_small, coefficient as coefficient_of};
ghost use Rattle.linear_normal.specs.inner.Sums.{Climbs, nonzero_pairs, kept_pair};

use std::alloc::Global;
use symbols::{Listed, Memory};

// One pair for each variable, in order, whose coefficients do not sum to 0, with their sum.
pub(crate) fn joined(
    alloc: Global,
    variables: usize,
    pairs: Vec<(u32, i64)>,
) -> Result<Listed<(u32, i64)>, Memory>
    requires pairs { AllByRecursion (IsSoundPair variables) pairs.items }
    requires small { (x : ℕ) → is_small (coefficient_of x pairs.items) ≡ true }
    ensures { IfOk result (λ found. found ≡ nonzero_pairs variables (λ x. coefficient_of x pairs.items)) }
{
    let mut sorted = pairs;
    sorted.sort_unstable();
    join_sorted(alloc, variables, &sorted)
}

// The same where no variable is below the one before.
fn join_sorted(
    alloc: Global,
    variables: usize,
    sorted: &[(u32, i64)],
) -> Result<Listed<(u32, i64)>, Memory>
    requires climbs { Climbs 1 variables sorted.now }
    requires small { (x : ℕ) → is_small (coefficient_of x sorted.now) ≡ true }
    ensures { IfOk result (λ found. found ≡ nonzero_pairs variables (λ x. coefficient_of x sorted.now)) }
{
    let mut found = Listed::new(alloc);
    let mut variable = 0;
    let mut sum = 0;
    for (next, coefficient) in sorted {
        if *next == variable {
            sum += i128::from(*coefficient);
        } else {
            keep(&mut found, variable, sum)?;
            variable = *next;
            sum = i128::from(*coefficient);
        }
    }
    keep(&mut found, variable, sum)?;
    Ok(found)
}

// Adds a variable with its sum, unless that is 0.
fn keep(found: &mut Listed<(u32, i64)>, variable: u32, sum: i128) -> Result<(), Memory>
    requires { is_small sum ≡ true }
    ensures { OnOk result (found.new ≡ found.old ++ kept_pair (variable, sum)) }
{
    if sum == 0 {
        return Ok(());
    }
    found.push((variable, sum as i64))
}
