// A live nogood.
use literals::Nogood;

// A nogood that a line may name by its id.
#[derive(Debug, Drop)]
pub(crate) struct Live {
    pub(crate) id: u128,
    pub(crate) nogood: Nogood,
    // It stays live; any other is live up to the next `r` line.
    pub(crate) is_held: bool,
    // It is that of an `r` line.
    pub(crate) is_learned: bool,
}
