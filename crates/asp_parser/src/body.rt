// Bodies. Places are those of words.
ghost use Rattle.std.specs.Prelude.{◌≤◌, length};
ghost use Rattle.grammar.specs.Spelled.{AreTokens};
ghost use Rattle.asp_parser.specs.StatementState.{Taken, literals_class, body_class};

use crate::kept::Kept;
use crate::literal::literal;
use crate::words::{begins_literal, separates};
use lexer::Token;
use std::alloc::Global;
use symbols::Listed;
use syntax_tree::Literal;
use theory_grammar::Stop;

// One literal or more, with `,` or `;` between them.
fn literals(
    alloc: Global,
    text: &[u8],
    tokens: &[Token],
    at: usize,
    kept: &mut Kept,
) -> Result<(Listed<Literal>, usize), Stop>
    requires tokens { AreTokens text.now tokens.now }
    requires at { at ≤ length tokens.now }
    ensures { Taken literals_class text.now tokens.now at kept.old kept.new result }
{
    let mut found = Listed::new(alloc);
    let (first, mut next) = match literal(alloc, text, tokens, at, kept) {
        Ok(read) => read,
        Err(stop) => return Err(stop),
    };
    match found.push(first) {
        Ok(()) => {}
        Err(_) => return Err(Stop::Memory),
    }
    'turns: while separates(text, tokens, next) {
        match literal(alloc, text, tokens, next + 1, kept) {
            Ok((item, after)) => match found.push(item) {
                Ok(()) => next = after,
                Err(_) => return Err(Stop::Memory),
            },
            Err(stop) => return Err(stop),
        }
    }
    Ok((found, next))
}

// The body at a place, which may have no literal.
pub(crate) fn body(
    alloc: Global,
    text: &[u8],
    tokens: &[Token],
    at: usize,
    kept: &mut Kept,
) -> Result<(Listed<Literal>, usize), Stop>
    requires tokens { AreTokens text.now tokens.now }
    requires at { at ≤ length tokens.now }
    ensures { Taken body_class text.now tokens.now at kept.old kept.new result }
{
    if !begins_literal(text, tokens, at) {
        return Ok((Listed::new(alloc), at));
    }
    literals(alloc, text, tokens, at, kept)
}
