// What elements and guards come to.
use program_meaning::{CollectedPlace, SymbolLinear};

/// What a linear term of a theory atom comes to where nothing in it is over.
#[derive(Debug, Drop)]
pub enum JudgedTerm {
    NotLinear,
    /// A part does not lie strictly between -2^62 and 2^62.
    Large,
    Form(SymbolLinear),
}

/// What an element of a theory atom comes to where nothing in its places is over.
#[derive(Debug, Drop)]
pub enum JudgedElement {
    NotLinear,
    /// A part of its first place does not lie strictly between -2^62 and 2^62.
    Large,
    /// A further place is undefined, or in `&dom` an end.
    Nothing,
    Tuple(CollectedPlace),
    /// The two ends of an element of `&dom`, of which the first may be the greater.
    Range(i32, i32),
}

/// Why there is no answer.
#[derive(Clone, Copy, Debug, PartialEq, Eq)]
pub enum ElementStop {
    /// A place is over.
    Over,
    Memory,
}
