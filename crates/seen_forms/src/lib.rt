//! In the tree of a statement is seen what is seen in its form.
//!
//! Variables, `_`, intervals that are arguments, and atoms stand in a rule's tree as they stand in its text. All
//! functions are laws, which do nothing. Stands on `grammar` and `rewriting`.
#![tactic(auto)]

mod laws;

pub use laws::trees_show_what_forms_show;
