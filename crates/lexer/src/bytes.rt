// Classes of bytes, and runs of one class.
ghost use Rattle.std.specs.Prelude.{◌≡◌};
ghost use Rattle.std.specs.List.{prefix_len};
ghost use Rattle.lexer.specs.Bytes.{is_blank, is_digit, is_lower, is_upper, is_underscore, is_name_byte, is_name_first};

pub(crate) fn is_blank(byte: u8) -> bool
    ensures { result ≡ is_blank byte }
{
    byte == b' ' || byte == b'\t' || byte == b'\r' || byte == b'\n'
}

pub(crate) fn is_digit(byte: u8) -> bool
    ensures { result ≡ is_digit byte }
{
    b'0' <= byte && byte <= b'9'
}

pub(crate) fn is_lower(byte: u8) -> bool
    ensures { result ≡ is_lower byte }
{
    b'a' <= byte && byte <= b'z'
}

pub(crate) fn is_upper(byte: u8) -> bool
    ensures { result ≡ is_upper byte }
{
    b'A' <= byte && byte <= b'Z'
}

// Whether a name may begin with it.
pub(crate) fn is_name_first(byte: u8) -> bool
    ensures { result ≡ is_name_first byte }
{
    is_lower(byte) || is_upper(byte) || byte == b'_'
}

// Whether it may stand in a name.
fn is_name_byte(byte: u8) -> bool
    ensures { result ≡ is_name_byte byte }
{
    is_lower(byte) || is_upper(byte) || is_digit(byte) || byte == b'_' || byte == b'\''
}

// How many bytes at the front are underscores.
pub(crate) fn underscores(rest: &[u8]) -> usize
    ensures { result ≡ prefix_len is_underscore rest.now }
{
    rest.iter().take_while(|byte| **byte == b'_').count()
}

// How many bytes at the front are digits.
pub(crate) fn digits(rest: &[u8]) -> usize
    ensures { result ≡ prefix_len is_digit rest.now }
{
    rest.iter().take_while(|byte| is_digit(**byte)).count()
}

// How many bytes at the front may stand in a name.
pub(crate) fn name_bytes(rest: &[u8]) -> usize
    ensures { result ≡ prefix_len is_name_byte rest.now }
{
    rest.iter().take_while(|byte| is_name_byte(**byte)).count()
}
