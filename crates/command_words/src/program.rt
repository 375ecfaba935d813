//! The two programs.

/// Whose words are read.
#[derive(Clone, Copy)]
pub enum Program {
    Solver,
    Checker,
}
