//! The form of each word: options with their values, FILEs, and nothing else.
ghost use Rattle.std.specs.Prelude.{◌≡◌, ◌==◌, None, is_some, map, string_bytes};
ghost use Rattle.command_words.specs.Words.{is_plain, is_file, is_option, is_attached, pieces_from};
ghost use Rattle.command_words.specs.Forms.{options_of, after_any, after_word, may_end};

use crate::program::Program;

/// What the next word may be.
#[derive(Clone, Copy)]
pub enum Expected {
    /// An option, a FILE or `--`.
    Any,
    /// The value of the option before it.
    Value,
    /// A FILE, `--` having stood.
    File,
}

/// Whether the word is not empty and does not begin with `-`.
fn is_plain(word: &str) -> bool
    ensures { result ≡ is_plain word.now }
{
    match word.as_bytes() {
        [] => false,
        [first, ..] => *first != b'-',
    }
}

/// Whether the word is a FILE before `--`.
fn is_file(word: &str) -> bool
    ensures { result ≡ is_file word.now }
{
    word == "-" || is_plain(word)
}

/// Whether the word is an option of the program.
fn is_option(program: Program, word: &str) -> bool
    ensures { result ≡ is_option (options_of program) word.now }
{
    match program {
        Program::Solver => {
            word == "-n"
                || word == "--conflicts"
                || word == "--min-int"
                || word == "--max-int"
                || word == "--ground-limit"
                || word == "--proof"
        }
        Program::Checker => word == "--min-int" || word == "--max-int",
    }
}

/// Whether the word is an option of two dashes with its value behind `=`.
fn is_attached(program: Program, word: &str) -> bool
    ensures { result ≡ is_attached (options_of program) word.now }
{
    match word.split_once('=') {
        Some((option, value)) => option.starts_with("--")
            && is_option(program, option)
            && !value.is_empty(),
        None => false,
    }
}

/// What may follow a word that is no value, or nothing where it has none of the forms.
fn after_any(program: Program, word: &str) -> Option<Expected>
    ensures { result ≡ after_any (options_of program) word.now }
{
    if word == "--" {
        Some(Expected::File)
    } else if is_option(program, word) {
        Some(Expected::Value)
    } else if is_attached(program, word) || is_file(word) {
        Some(Expected::Any)
    } else {
        None
    }
}

/// What may follow the word, or nothing where it is not what was expected.
fn after_word(program: Program, expected: Expected, word: &str) -> Option<Expected>
    ensures { result ≡ after_word (options_of program) expected word.now }
{
    match expected {
        Expected::Any => after_any(program, word),
        Expected::Value if is_plain(word) => Some(Expected::Any),
        Expected::File if !word.is_empty() => Some(Expected::File),
        _ => None,
    }
}

/// Whether the words may end here.
fn may_end(expected: Expected) -> bool
    ensures { result ≡ may_end expected }
{
    match expected {
        Expected::Value => false,
        Expected::Any | Expected::File => true,
    }
}

/// Whether each word has the form that its place asks for.
pub fn have_form(program: Program, words: &[String]) -> bool
    ensures { result ≡ is_some (pieces_from (options_of program) None (map string_bytes words.now)) }
{
    let mut expected = Expected::Any;
    for word in words {
        match after_word(program, expected, word.as_str()) {
            Some(next) => expected = next,
            None => return false,
        }
    }
    may_end(expected)
}
