// What comes next at a place.
ghost use Rattle.std.specs.Prelude.{◌≡◌, ℕ, List};
ghost use Rattle.grammar.specs.Spelled.{AreTokens, word_by};
ghost use Rattle.grammar.specs.Word.{words_at};
ghost use Rattle.grammar.specs.Reading.{starts_next};
ghost use Rattle.grammar.specs.TheoryReading as spec;

use grammar::{Mark, WordKind, word_at};
use lexer::Token;

/// Whether `not` comes next.
pub fn is_not(text: &[u8], tokens: &[Token], at: usize) -> bool
    requires { AreTokens text.now tokens.now }
    ensures { result ≡ starts_next spec.is_negation (words_at text.now tokens.now at) }
{
    match word_at(text, tokens, at) {
        Some(kind) => denies(kind),
        None => false,
    }
}

fn denies(kind: WordKind) -> bool
    ensures { (bytes : List ℕ) → result ≡ spec.is_negation (word_by kind bytes) }
{
    match kind {
        WordKind::Not => true,
        _ => false,
    }
}

/// Whether a term begins with what comes next.
pub fn begins_term(text: &[u8], tokens: &[Token], at: usize) -> bool
    requires { AreTokens text.now tokens.now }
    ensures { result ≡ starts_next spec.begins_term (words_at text.now tokens.now at) }
{
    match word_at(text, tokens, at) {
        Some(kind) => opens_term(kind),
        None => false,
    }
}

fn opens_term(kind: WordKind) -> bool
    ensures { (bytes : List ℕ) → result ≡ spec.begins_term (word_by kind bytes) }
{
    match kind {
        WordKind::Number
        | WordKind::Text
        | WordKind::Name
        | WordKind::Variable
        | WordKind::Anonymous => true,
        WordKind::Not | WordKind::Const | WordKind::Show => false,
        WordKind::Mark(mark) => opens_by(mark),
    }
}

fn opens_by(mark: Mark) -> bool
    ensures { result ≡ spec.begins_by mark }
{
    match mark {
        Mark::Minus | Mark::Open => true,
        _ => false,
    }
}

/// Whether a condition begins with what comes next.
pub fn begins(text: &[u8], tokens: &[Token], at: usize) -> bool
    requires { AreTokens text.now tokens.now }
    ensures { result ≡ starts_next spec.begins (words_at text.now tokens.now at) }
{
    match word_at(text, tokens, at) {
        Some(kind) => denies(kind) || opens_term(kind),
        None => false,
    }
}
