// Ranges in order.
ghost use Rattle.std.specs.Prelude.{◌≡◌};
ghost use Rattle.ground_model.specs.Members.{IsMember};
ghost use Rattle.program_meaning.specs.Ascending.{IsOrderedListOf};
ghost use Rattle.interval_sets.specs.Ranges.{range_cmp};

use std::cmp::Ordering;
use symbols::Listed;

/// The different ones of these ranges in order; O(n log n) comparisons.
pub fn distinct_ranges(all: Vec<(i32, i32)>) -> Listed<(i32, i32)>
    ensures { IsOrderedListOf range_cmp (IsMember all.items) result }
{
    let mut ranges = all;
    ranges.sort_unstable_by(|a, b| compare_ranges(*a, *b));
    ranges.dedup_by(|a, b| compare_ranges(*a, *b).is_eq());
    Listed::from_vec(ranges)
}

// How a range stands to another: by first ends, then by second ones.
fn compare_ranges(left: (i32, i32), right: (i32, i32)) -> Ordering
    ensures { result ≡ range_cmp left right }
{
    left.0.cmp(&right.0).then(left.1.cmp(&right.1))
}
