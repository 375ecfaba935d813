//! Laws of the input nogoods of a ground program.
//!
//! Each literal of an input nogood is well formed and names something of the program or of its numbering, and
//! is no bound; that a domain, a distinct or a disjoint constraint is true stands in none of them. A search
//! that holds the input nogoods needs them. Stands on `completion` and `numbering_laws`.
#![tactic(auto)]

mod laws;

pub use laws::inputs_are_named;
