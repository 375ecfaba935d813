// The marks of the grammar.
ghost use Rattle.std.specs.Prelude.{◌≡◌, ◌==◌};
ghost use Rattle.grammar.specs.Word as spec;

/// A mark.
#[derive(Clone, Copy, Debug, PartialEq, Eq)]
pub enum Mark {
    /// `.`
    Dot,
    /// `..`
    Dots,
    /// `,`
    Comma,
    /// `;`
    Semicolon,
    /// `:`
    Colon,
    /// `:-`
    Arrow,
    /// `(`
    Open,
    /// `)`
    Close,
    /// `{`
    OpenBrace,
    /// `}`
    CloseBrace,
    /// `+`
    Plus,
    /// `-`
    Minus,
    /// `*`
    Times,
    /// `/`
    Divide,
    /// `\`
    Remainder,
    /// `@`
    At,
    /// `&`
    And,
    /// `=`
    Equal,
    /// `!=`
    NotEqual,
    /// `<`
    Less,
    /// `<=`
    LessEqual,
    /// `>`
    Greater,
    /// `>=`
    GreaterEqual,
}

impl Mark {
    // Marks are told apart by number.
    fn number(self) -> u8
        ensures { result ≡ spec.mark_number self }
    {
        match self {
            Mark::Dot => 0,
            Mark::Dots => 1,
            Mark::Comma => 2,
            Mark::Semicolon => 3,
            Mark::Colon => 4,
            Mark::Arrow => 5,
            Mark::Open => 6,
            Mark::Close => 7,
            Mark::OpenBrace => 8,
            Mark::CloseBrace => 9,
            Mark::Plus => 10,
            Mark::Minus => 11,
            Mark::Times => 12,
            Mark::Divide => 13,
            Mark::Remainder => 14,
            Mark::At => 15,
            Mark::And => 16,
            Mark::Equal => 17,
            Mark::NotEqual => 18,
            Mark::Less => 19,
            Mark::LessEqual => 20,
            Mark::Greater => 21,
            Mark::GreaterEqual => 22,
        }
    }

    /// Whether two marks are the same.
    pub fn is(self, other: Mark) -> bool
        ensures { result ≡ (spec.mark_number self == spec.mark_number other) }
    {
        self.number() == other.number()
    }
}

// The mark of one byte.
fn short_mark(byte: u8) -> Mark
    ensures { result ≡ spec.short_mark byte }
{
    match byte {
        b'.' => Mark::Dot,
        b',' => Mark::Comma,
        b';' => Mark::Semicolon,
        b':' => Mark::Colon,
        b'(' => Mark::Open,
        b')' => Mark::Close,
        b'{' => Mark::OpenBrace,
        b'}' => Mark::CloseBrace,
        b'+' => Mark::Plus,
        b'-' => Mark::Minus,
        b'*' => Mark::Times,
        b'/' => Mark::Divide,
        b'\\' => Mark::Remainder,
        b'@' => Mark::At,
        b'&' => Mark::And,
        b'=' => Mark::Equal,
        b'<' => Mark::Less,
        _ => Mark::Greater,
    }
}

// The mark of two bytes, which its first byte tells.
fn long_mark(byte: u8) -> Mark
    ensures { result ≡ spec.long_mark byte }
{
    match byte {
        b'.' => Mark::Dots,
        b':' => Mark::Arrow,
        b'!' => Mark::NotEqual,
        b'<' => Mark::LessEqual,
        _ => Mark::GreaterEqual,
    }
}

// The mark with these bytes.
pub(crate) fn mark_of(bytes: &[u8]) -> Mark
    ensures { result ≡ spec.mark_of bytes.now }
{
    match bytes {
        [] => Mark::Dot,
        [byte] => short_mark(*byte),
        [byte, ..] => long_mark(*byte),
    }
}
