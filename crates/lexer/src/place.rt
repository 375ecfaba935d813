// Lines and columns.
ghost use Rattle.std.specs.Prelude.{◌≡◌, ◌≤◌, ◌+◌, length, take};
ghost use Rattle.std.specs.List.{suffix_len};
ghost use Rattle.lexer.specs.Places.{is_in_line, line_of, column_of};

// How many bytes stand between the last line feed before a place and it.
fn since_line_feed(text: &[u8], at: usize) -> usize
    requires { at ≤ length text.now }
    ensures { result ≡ suffix_len is_in_line (take at text.now) }
{
    let mut start = at;
    while start > 0 && text[start - 1] != b'\n' {
        start -= 1;
    }
    at - start
}

/// The line and the column of a byte of a text, or of its end. Both count from 1, columns in bytes.
/// A line feed ends a line, and nothing else does. Time is linear in `at`.
pub fn line_column(text: &[u8], at: usize) -> (usize, usize)
    requires { at ≤ length text.now }
    ensures line { result.0 ≡ line_of text.now at }
    ensures column { result.1 ≡ column_of text.now at }
{
    let feeds = text[..at].iter().filter(|byte| **byte == b'\n').count();
    (feeds + 1, since_line_feed(text, at) + 1)
}
