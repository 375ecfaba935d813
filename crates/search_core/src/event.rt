// What a search answers.
use ground_model::Answer;

/// What a search came to.
#[derive(Debug, Drop)]
pub enum Event {
    /// A constraint stable model that was not given before.
    Answer(Answer),
    /// No model remains.
    Exhausted,
}

/// Why a search stopped.
#[derive(Clone, Copy, Debug, PartialEq, Eq)]
pub enum Stop {
    /// The conflict of the limit's number left a nogood that is not empty, or no id below 2^64 is left for the next line.
    Limit,
    /// Memory could not be had.
    Memory,
}
