//! Small ground programs as texts, for tests.
//!
//! `program_of` reads statements with a full stop after each, of words with blanks between them. Atoms and
//! variables are named first; after that a literal of atom 2 is `a2` or `~a2`, and a term of variable 1 with
//! the coefficient -3 is `-3*1`. A word that says nothing is a number 0, which no program holds.
//!
//! | Statement | What it says |
//! |---|---|
//! | `atoms a b.`, `hidden c.`, `variables x.` | atoms that are shown and not shown, and variables |
//! | `ends 0 9.` | the least and the greatest value of a variable; the widest where it is left out |
//! | `a1 :- ~a2 a3.`, `:- a1.` | an atom and nothing as a head |
//! | `a1 :- sum 2*1 -1*2 5 <=3.` | a sum of terms and a constant, compared with a number, as a body |
//! | `sum 1*1 !=3.`, `dom 1 2 1.`, `distinct 1*1 1*2.`, `disjoint 1*1@2 1*2@3.` | theory atoms as heads; a duration stands after `@` |
//! | `choose >=1 <=1 a1 a2/~a1.` | a choice between two bounds, `-` for none; a condition stands after `/` |
//! | `minimize 5*1.`, `maximize 1*2.` | the objective |
//!
//! Stands on `symbols`, `ground_model` and `ground_parts`.
#![tactic(auto)]

mod heads;
mod statements;
mod terms;

pub use statements::program_of;
