// The ends of every integer variable.
ghost use Rattle.std.specs.Prelude.{◌≡◌, ◌≤ℤ◌, pos, negsuc};

use crate::limits::{MAX_END, MIN_END};

/// The least and the greatest value of every integer variable.
///
/// Both lie from -1073741823 to 1073741823, so that one more and one less fit a literal's number.
#[derive(Clone, Copy, Debug, PartialEq, Eq)]
pub struct Ends {
    pub min: i32,
    pub max: i32,
    pub ghost low: { negsuc 1073741822 ≤ℤ min },
    pub ghost ordered: { min ≤ℤ max },
    pub ghost high: { max ≤ℤ pos 1073741823 },
}

impl Ends {
    /// The widest ends that there are, -1073741823 and 1073741823.
    pub fn widest() -> Ends
        ensures min { result.min ≡ negsuc 1073741822 }
        ensures max { result.max ≡ pos 1073741823 }
    {
        Ends {
            min: MIN_END,
            max: MAX_END,
        }
    }
}
