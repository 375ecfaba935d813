// Sets of integers.
ghost use Rattle.std.specs.Prelude.{IsTrue};
ghost use Rattle.ground_model.specs.Intervals.{are_parted};

use symbols::Listed;

/// A finite set of integers, as closed intervals.
///
/// No interval is empty, they ascend, and each begins at least 2 above the end of the one before: equal
/// sets have equal lists.
#[derive(Debug, PartialEq, Eq, Hash, Drop)]
pub struct IntSet {
    pub intervals: Listed<(i32, i32)>,
    pub ghost parted: { IsTrue (are_parted intervals) },
}
