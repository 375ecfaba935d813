// What a propagator waits for.

/// What a propagator looks at on a trail.
#[derive(Clone, Copy, Debug, PartialEq, Eq)]
pub enum Touch {
    /// The lower and the upper bound of the variable.
    Bounds(u32),
    /// The truth of the constraint.
    Truth(u32),
}
