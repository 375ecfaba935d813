// The words of the command: the names of inputs.
ghost use Rattle.std.specs.Prelude.{◌≡◌, ◌<◌, Some, length, slice_get};
ghost use Rattle.std.specs.List.{list_all};
ghost use Rattle.std.specs.String.{string_bytes};
ghost use Rattle.clingcon_app.specs.Words.{are_files as are_files_there, is_file, names_of};

// How many inputs there may be.
const MOST_NAMES: usize = 65536;

/// Whether each word is the name of an input, and there are not too many.
pub(crate) fn are_files(words: &[String]) -> bool
    ensures { result ≡ are_files_there words.now }
{
    words.len() <= MOST_NAMES && are_names(words)
}

fn are_names(words: &[String]) -> bool
    ensures { result ≡ list_all (λ word. is_file (string_bytes word)) words.now }
{
    words
        .iter()
        .all(|word| names_file(word.as_str().as_bytes()))
}

/// How many inputs there are: `-` is the one where there is no word.
pub(crate) fn count_of(words: &[String]) -> usize
    ensures { result ≡ length (names_of words.now) }
{
    if words.is_empty() { 1 } else { words.len() }
}

/// The name of the input with a number, from 0.
pub(crate) fn name_at(words: &[String], at: usize) -> &str
    requires { at < length (names_of words.now) }
    ensures { slice_get (names_of words.now) at ≡ Some result.now }
{
    if words.is_empty() {
        "-"
    } else {
        words[at].as_str()
    }
}

fn names_file(word: &[u8]) -> bool
    ensures { result ≡ is_file word.now }
{
    match word {
        [] => false,
        [_] => true,
        [first, ..] => *first != b'-',
    }
}
