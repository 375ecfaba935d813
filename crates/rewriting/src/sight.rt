// What has a place in a rule's text.

/// What has a place in a rule's text: a variable by its number, where those made for `_` and for intervals that
/// are arguments are numbered behind the named ones, or an atom.
#[derive(Clone, Copy, Debug, PartialEq, Eq)]
pub enum Sight {
    Variable(u32),
    Anonymous(u32),
    Interval(u32),
    Atom,
}
