// Whether a text has tokens.
ghost use Rattle.std.specs.Prelude.{List, IsNone, IfSome};
ghost use Rattle.lexer.specs.declared.token.Token.{Token};
ghost use Rattle.lexer.specs.Parts.{IsParted, IsTokenisation};
ghost use Rattle.lexer.specs.Faults.{IsFirstFault, IsStopped};

use crate::lexeme::next_lexeme;
use crate::token::{LexCause, LexFault};
use std::str::from_utf8;

// The first place where no part of a text stands, if there is one.
fn first_stop(text: &[u8]) -> Option<LexFault>
    ensures parted { IsNone result → (tokens : List Token) × IsParted text.now tokens }
    ensures stopped { IfSome result (IsStopped text.now) }
{
    let mut rest = text;
    while !rest.is_empty() {
        let at = text.len() - rest.len();
        match next_lexeme(rest) {
            Ok(lexeme) => rest = rest.split_at(lexeme.length()).1,
            Err(fault) => {
                return Some(LexFault {
                    at: at + fault.at,
                    cause: fault.cause,
                });
            }
        }
    }
    None
}

/// The first fault of a text, or none where it has a tokenisation: each text has one of the two. Time is linear in
/// the text, and no memory is taken.
pub fn first_fault(text: &[u8]) -> Option<LexFault>
    ensures tokens { IsNone result → (tokens : List Token) × IsTokenisation text.now tokens }
    ensures fault { IfSome result (IsFirstFault text.now) }
{
    match from_utf8(text) {
        Ok(_) => first_stop(text),
        Err(error) => Some(LexFault {
            at: error.valid_up_to(),
            cause: LexCause::NotUtf8,
        }),
    }
}
