// What comes next at a place.
ghost use Rattle.std.specs.Prelude.{◌≡◌, ◌<◌, ℕ, List, length, IsTrue};
ghost use Rattle.std.specs.Option.{is_some};
ghost use Rattle.grammar.specs.Spelled.{AreTokens, word_by};
ghost use Rattle.grammar.specs.Statement.{separating};
ghost use Rattle.grammar.specs.Word.{words_at};
ghost use Rattle.grammar.specs.Reading.{starts_next, sign_at};
ghost use Rattle.grammar.specs.TheoryReading.{is_name as is_name_there};
ghost use Rattle.grammar.specs.StatementReading as spec;

use grammar::{Mark, WordKind, is_mark, word_at};
use lexer::Token;
use theory_grammar::{begins, relation};

// Whether a name comes next.
pub(crate) fn is_name(text: &[u8], tokens: &[Token], at: usize) -> bool
    requires { AreTokens text.now tokens.now }
    ensures is { result ≡ starts_next is_name_there (words_at text.now tokens.now at) }
    ensures within { IsTrue result → at < length tokens.now }
{
    match word_at(text, tokens, at) {
        Some(kind) => names(kind),
        None => false,
    }
}

fn names(kind: WordKind) -> bool
    ensures { (bytes : List ℕ) → result ≡ is_name_there (word_by kind bytes) }
{
    match kind {
        WordKind::Name => true,
        _ => false,
    }
}

// Whether a literal begins with what comes next.
#[tactic(auto, using(crate::proofs::WordLaws::literal_begins))]
pub(crate) fn begins_literal(text: &[u8], tokens: &[Token], at: usize) -> bool
    requires { AreTokens text.now tokens.now }
    ensures { result ≡ starts_next spec.begins_literal (words_at text.now tokens.now at) }
{
    is_mark(text, tokens, at, Mark::And) || begins(text, tokens, at)
}

// Whether `,` or `;` comes next.
#[tactic(auto, using(crate::proofs::WordLaws::separates_is))]
pub(crate) fn separates(text: &[u8], tokens: &[Token], at: usize) -> bool
    requires { AreTokens text.now tokens.now }
    ensures is { result ≡ is_some (sign_at separating (words_at text.now tokens.now at)) }
    ensures within { IsTrue result → at < length tokens.now }
{
    is_mark(text, tokens, at, Mark::Comma) || is_mark(text, tokens, at, Mark::Semicolon)
}

// Whether what comes next stands behind a left bound.
#[tactic(auto, using(crate::proofs::WordLaws::bounding_is))]
pub(crate) fn is_bounding(text: &[u8], tokens: &[Token], at: usize) -> bool
    requires { AreTokens text.now tokens.now }
    ensures { result ≡ starts_next spec.is_bounding (words_at text.now tokens.now at) }
{
    relation(text, tokens, at).is_some() || is_mark(text, tokens, at, Mark::OpenBrace)
}
