//! The lines of a derivation: the text that says why a program has no answer, no other answer, or no
//! better one.
//!
//! Each line has one spelling: fields parted by one blank, numbers in decimal with no leading zero and
//! no `+`, lists in the order of a nogood. `read_line` takes exactly the spellings, and `write_line` writes
//! them. Stands on `symbols`, `literals` and `itoa`.
#![tactic(auto)]

mod fields;
mod items;
mod kinds;
mod laws;
mod line;
mod lists;
mod numbers;
mod ranges;
mod read;
mod write;

pub use laws::{derivations_are_read_in_one_way, lines_end_in_nogoods, spellings_are_apart};
pub use line::{Line, LineStop};
pub use read::read_line;
pub use write::write_line;
