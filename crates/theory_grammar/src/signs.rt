// The signs of sums and products.
ghost use Rattle.std.specs.Prelude.{◌≡◌, ◌<◌, length, IfSome};
ghost use Rattle.grammar.specs.Spelled.{AreTokens};
ghost use Rattle.grammar.specs.Word.{words_at};
ghost use Rattle.grammar.specs.Word as word;
ghost use Rattle.grammar.specs.Term as spec;
ghost use Rattle.grammar.specs.Theory.{relation as relation_there};
ghost use Rattle.grammar.specs.Tree.{multiplying_op, adding_op};
ghost use Rattle.grammar.specs.Reading.{sign_at};
ghost use Rattle.theory_grammar.specs.State.{op_by};

use grammar::{Mark, WordKind, word_at};
use lexer::Token;
use symbols::Rel;
use syntax_tree::Op;

// The sign of a product at a place.
pub(crate) fn multiplying(text: &[u8], tokens: &[Token], at: usize) -> Option<Op>
    requires { AreTokens text.now tokens.now }
    ensures is { result ≡ op_by multiplying_op (sign_at spec.multiplying (words_at text.now tokens.now at)) }
    ensures within { IfSome result (λ op. at < length tokens.now) }
{
    match word_at(text, tokens, at) {
        Some(WordKind::Mark(mark)) => multiplying_op(mark),
        _ => None,
    }
}

fn multiplying_op(mark: Mark) -> Option<Op>
    ensures { result ≡ op_by multiplying_op (spec.multiplying (word.mark mark)) }
{
    match mark {
        Mark::Times => Some(Op::Times),
        Mark::Divide => Some(Op::Divide),
        Mark::Remainder => Some(Op::Remainder),
        _ => None,
    }
}

// The sign of a sum at a place.
pub(crate) fn adding(text: &[u8], tokens: &[Token], at: usize) -> Option<Op>
    requires { AreTokens text.now tokens.now }
    ensures is { result ≡ op_by adding_op (sign_at spec.adding (words_at text.now tokens.now at)) }
    ensures within { IfSome result (λ op. at < length tokens.now) }
{
    match word_at(text, tokens, at) {
        Some(WordKind::Mark(mark)) => adding_op(mark),
        _ => None,
    }
}

fn adding_op(mark: Mark) -> Option<Op>
    ensures { result ≡ op_by adding_op (spec.adding (word.mark mark)) }
{
    match mark {
        Mark::Plus => Some(Op::Plus),
        Mark::Minus => Some(Op::Minus),
        _ => None,
    }
}

/// The relation at a place.
pub fn relation(text: &[u8], tokens: &[Token], at: usize) -> Option<Rel>
    requires { AreTokens text.now tokens.now }
    ensures is { result ≡ sign_at relation_there (words_at text.now tokens.now at) }
    ensures within { IfSome result (λ rel. at < length tokens.now) }
{
    match word_at(text, tokens, at) {
        Some(WordKind::Mark(mark)) => relation_of(mark),
        _ => None,
    }
}

fn relation_of(mark: Mark) -> Option<Rel>
    ensures { result ≡ relation_there (word.mark mark) }
{
    match mark {
        Mark::Equal => Some(Rel::Equal),
        Mark::NotEqual => Some(Rel::NotEqual),
        Mark::Less => Some(Rel::Less),
        Mark::LessEqual => Some(Rel::LessEqual),
        Mark::Greater => Some(Rel::Greater),
        Mark::GreaterEqual => Some(Rel::GreaterEqual),
        _ => None,
    }
}
