//! Terms and theory atoms, read from the tokens of a text.
//!
//! `parse_term` and `parse_theory` read on while a term or a theory atom of the grammar can continue, and give the
//! tree of what was read with its variables, or the first place where none continues. A failed check inside is
//! given beside the tree, so that it hides no later syntax error. The readers under them, by words from 0, are there
//! for whole statements. Stands on `grammar` for what words derive, and on `indexmap` for the table that finds a
//! variable by its name.
#![tactic(auto)]

mod comparison;
mod condition;
mod element;
mod fault;
mod leaf;
mod names;
mod parse;
mod places;
mod read_term;
mod seen;
mod signs;
mod term;
mod theory;
mod theory_names;
mod words;

pub use comparison::{compared, judged_term};
pub use condition::{atom, given, positive};
pub use fault::{ParseCause, ParseFault, ParseStop, Stop};
pub use names::Names;
pub use parse::{MAX_DEPTH, ParsedTerm, parse_term};
pub use places::{Place, give_starts};
pub use read_term::ReadTerm;
pub use seen::Seen;
pub use signs::relation;
pub use theory::{
    AtomParts, ParsedTheory, atom_parts, first_failing, parse_theory, sooner_if, sooner_term,
};
pub use words::{begins, begins_term, is_not};
