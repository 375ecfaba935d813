// Terms as they are written.
use sqlite_items::{Boxed, Items};
use symbols::Listed;

/// How a part joins the parts before it.
#[derive(Clone, Copy, Debug, PartialEq, Eq)]
pub enum Op {
    Plus,
    Minus,
    Times,
    Divide,
    Remainder,
}

/// A term. `is_term` of `specs/Tree.antt` says which of them are trees of a text: each call that takes or
/// gives a term asks or promises it.
#[cycle(term)]
#[derive(Drop)]
pub enum Term {
    Number(i32),
    /// The bytes of a string, without its quotes and with its escapes undone.
    Text(Listed<u8>),
    /// By its number, from 1.
    Variable(u32),
    /// `_`
    Anonymous,
    /// A name and its arguments; an identifier has none.
    Function(Listed<u8>, Items<Term>),
    Tuple(Items<Term>),
    /// Parts with `Plus` or `Minus`, from the left; the first has `Plus`.
    Sum(Items<Part>),
    /// Parts with `Times`, `Divide` or `Remainder`, from the left; the first has `Times`.
    Product(Items<Part>),
    Minus(Boxed<Term>),
    /// From the left end to the right.
    Interval(Boxed<Term>, Boxed<Term>),
}

/// A part of a sum or a product.
#[cycle(term)]
#[derive(Drop)]
pub struct Part {
    pub op: Op,
    pub term: Term,
}
