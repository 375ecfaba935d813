// What a term is as a whole.

/// What a term is as a whole, parentheses around an interval aside.
#[derive(Clone, Copy, Debug, PartialEq, Eq)]
pub enum Shape {
    /// Its words are those of an atom.
    Atom,
    /// It is an interval, or one in parentheses.
    Interval,
    Other,
}
