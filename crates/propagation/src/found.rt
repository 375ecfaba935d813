// How propagation ends.
use conflict_analysis::Start;

/// How propagation ended.
#[derive(Debug, Drop)]
pub enum Found {
    /// Nothing is left to propagate.
    Calm,
    /// All literals of the nogood are true.
    Conflict(Start),
}
