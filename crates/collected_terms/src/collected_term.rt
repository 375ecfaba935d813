// What is found of a linear term.
use program_meaning::SymbolLinear;

/// A term as it is collected.
#[derive(Debug, Drop)]
pub struct CollectedTerm {
    /// An argument in it is undefined.
    pub undefined: bool,
    /// An argument or a variable of the rule in it is over.
    pub over: bool,
    pub form: LinearForm,
}

/// The linear form of a term.
#[derive(Debug, Drop)]
pub enum LinearForm {
    /// It has none.
    NotLinear,
    /// A part is too large: a coefficient or a constant that does not lie strictly between -2^62 and 2^62.
    /// Then it is only told whether the term holds an integer variable.
    Large(bool),
    /// Its integer variables with their coefficients, and its constant.
    Small(SymbolLinear),
}
