// How a call of a propagator ends.
use literals::Reason;

/// What a propagator says of a trail.
#[derive(Debug, Drop)]
pub enum Outcome {
    /// Nothing is left to say.
    Quiet,
    /// The trail grew.
    Narrowed,
    /// All literals of the reason are true.
    Conflict(Reason),
}
