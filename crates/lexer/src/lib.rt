//! The tokens of a text, or the first place where it has none.
//!
//! A text is parted into tokens, the longest taken at each place, with blanks and comments alone
//! between them. Stands on `symbols` for `Listed` and `Memory`.
#![tactic(auto)]

mod bytes;
mod checking;
mod comment;
mod law;
mod lexeme;
mod mark;
mod name;
mod number;
mod place;
mod reading;
mod string;
mod token;
mod word;

pub use checking::first_fault;
pub use law::one_answer;
pub use place::line_column;
pub use reading::tokens;
pub use token::{LexCause, LexFault, LexStop, Token, TokenKind};
