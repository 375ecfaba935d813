// The statements of a text.
ghost use Rattle.std.specs.Prelude.{◌≡◌, ◌+◌, ◌≤◌, ◌<◌, length, IfOk, IfErr, IsTrue};
ghost use Rattle.std.specs.List.{AllByRecursion};
ghost use Rattle.grammar.specs.Spelled.{AreTokens};
ghost use Rattle.syntax_tree.specs.Statements.{is_statement};
ghost use Rattle.theory_grammar.specs.Kept.{place_of};
ghost use Rattle.asp_parser.specs.Parsed.{FoundText, NoText, IsStop};
ghost use Rattle.asp_parser.specs.TextState as spec;

use crate::fault::{TextCause, TextFault, TextStop, check_cause, lex_cause};
use crate::kept::Kept;
use crate::statement::{Draft, form};
use crate::variables::sooner_crowded;
use lexer::{LexStop, Token, line_column, tokens};
use std::alloc::Global;
use symbols::{Listed, Memory};
use syntax_tree::{Rule, Statement};
use theory_grammar::{Seen, Stop, give_starts};

// A fault at a byte.
fn fault_at(text: &[u8], at: usize, cause: TextCause) -> TextStop
    requires { at ≤ length text.now }
    ensures { result ≡ spec.fault_there text.now at cause }
{
    let (line, column) = line_column(text, at);
    TextStop::Fault(TextFault {
        line,
        column,
        cause,
    })
}

// A fault at a word, or at the end of the text.
fn fault_at_word(text: &[u8], tokens: &[Token], at: usize, cause: TextCause) -> TextStop
    requires { AreTokens text.now tokens.now }
    ensures { result ≡ spec.fault_there text.now (place_of text.now tokens.now at) cause }
{
    if at < tokens.len() {
        fault_at(text, tokens[at].start, cause)
    } else {
        fault_at(text, text.len(), cause)
    }
}

// The refusal of a statement that is not read.
fn stopped(text: &[u8], tokens: &[Token], stop: Stop) -> TextStop
    requires { AreTokens text.now tokens.now }
    ensures { result ≡ spec.stopped text.now tokens.now stop }
{
    match stop {
        Stop::Expected(at) => fault_at_word(text, tokens, at, TextCause::Expected),
        Stop::TooDeep(at) => fault_at_word(text, tokens, at, TextCause::TooDeep),
        Stop::Memory => TextStop::Memory,
    }
}

// The statement of a form that was read from a word on.
fn statement(
    alloc: Global,
    tokens: &[Token],
    at: usize,
    form: Draft,
    seen: Seen,
) -> Result<Statement, Memory>
    requires { at + 1 < length tokens.now }
    ensures { IfOk result (λ made. made ≡ spec.drafted tokens.now at seen form) }
{
    match form {
        Draft::Rule(head, body, arrow) => {
            let mut places = Listed::new(alloc);
            places.push(tokens[at].start)?;
            give_starts(&mut places, seen.places)?;
            Ok(Statement::Rule(Rule {
                head,
                body,
                arrow,
                names: seen.names.into_list(),
                places,
            }))
        }
        Draft::Constant(name, term) => { Ok(Statement::Constant(name, term, tokens[at + 1].start)) }
        Draft::ShowNothing => Ok(Statement::ShowNothing),
        Draft::Show(name, arity) => Ok(Statement::Show(name, arity)),
    }
}

// The statement at a word in which no check fails, and the place behind it.
fn checked(
    alloc: Global,
    text: &[u8],
    tokens: &[Token],
    at: usize,
) -> Result<(Statement, usize), TextStop>
    requires tokens { AreTokens text.now tokens.now }
    requires at { at ≤ length tokens.now }
    ensures { spec.Checked text.now tokens.now at result }
{
    let mut kept = Kept::new(alloc);
    let (read, next) = match form(alloc, text, tokens, at, &mut kept) {
        Ok(read) => read,
        Err(stop) => return Err(stopped(text, tokens, stop)),
    };
    if let Some(failing) = sooner_crowded(kept.first(), kept.seen.places.items()) {
        return Err(fault_at_word(text, tokens, failing.at, check_cause(failing.check)));
    }
    match statement(alloc, tokens, at, read, kept.seen) {
        Ok(made) => Ok((made, next)),
        Err(_) => Err(TextStop::Memory),
    }
}

// The statements of words.
fn statements(alloc: Global, text: &[u8], tokens: &[Token]) -> Result<Listed<Statement>, TextStop>
    requires { AreTokens text.now tokens.now }
    ensures { spec.ReadAll text.now tokens.now result }
{
    let mut found = Listed::new(alloc);
    let mut at = 0;
    'turns: while at < tokens.len() {
        match checked(alloc, text, tokens, at) {
            Ok((made, next)) => match found.push(made) {
                Ok(()) => at = next,
                Err(_) => return Err(TextStop::Memory),
            },
            Err(stop) => return Err(stop),
        }
    }
    Ok(found)
}

/// The statements of a text, in order, or its first fault: that of lexing, or of the first statement that is
/// none or in which a check fails. Within a statement a place where none goes on comes before a failed check.
///
/// Time is linear in the text.
pub fn parse(alloc: Global, text: &[u8]) -> Result<Listed<Statement>, TextStop>
    // What is read are the statements of the text, in which no check fails, as trees that keep the rules on trees.
    ensures found { IfOk result (FoundText text.now) }
    ensures trees { IfOk result (λ statements. AllByRecursion (λ statement. IsTrue (is_statement statement)) statements) }

    // Where there are such statements, they are read, unless memory runs out.
    ensures only { NoText text.now result }

    // A fault is the first one, at its place and with its cause.
    ensures fault { IfErr result (IsStop text.now) }
{
    match tokens(alloc, text) {
        Ok(tokens) => statements(alloc, text, tokens.items()),
        Err(LexStop::Fault(fault)) => Err(fault_at(text, fault.at, lex_cause(fault.cause))),
        Err(LexStop::Memory) => Err(TextStop::Memory),
    }
}
