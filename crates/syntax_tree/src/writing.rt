// Bytes that the printed texts are made of.
ghost use Rattle.std.specs.Prelude.{◌≡◌, ◌++◌, ◌==◌, [], codes, decimal, drop, if◌then◌else◌, OnOk};
ghost use Rattle.std.specs.Fmt.{signed_decimal};
ghost use Rattle.symbols.specs.Text.{byte_text, quoted};

use itoa::Buffer;
use symbols::{Listed, Memory};

// What stands before an item of a row: nothing before the first, and a mark before a further one.
pub(crate) fn mark_before<'a>(index: usize, mark: &'a [u8]) -> &'a [u8]
    ensures { result.now ≡ (if index == 0 then [] else mark.now) }
{
    if index == 0 { b"" } else { mark }
}

// Appends a number in decimal.
pub(crate) fn write_signed(n: i32, out: &mut Listed<u8>) -> Result<(), Memory>
    ensures { OnOk result (out.new ≡ out.old ++ signed_decimal n) }
{
    let mut buffer = Buffer::new();
    out.append(buffer.format(n).as_bytes())
}

// Appends a count in decimal.
pub(crate) fn write_count(n: u32, out: &mut Listed<u8>) -> Result<(), Memory>
    ensures { OnOk result (out.new ≡ out.old ++ decimal n) }
{
    let mut buffer = Buffer::new();
    out.append(buffer.format(n).as_bytes())
}

// Appends a text in quotes.
pub(crate) fn write_quoted(text: &[u8], out: &mut Listed<u8>) -> Result<(), Memory>
    ensures { OnOk result (out.new ≡ out.old ++ (codes "\"" ++ quoted text.now ++ codes "\"")) }
{
    out.append(b"\"")?;
    for byte in text {
        write_byte(*byte, out)?;
    }
    out.append(b"\"")
}

// Appends a byte as it stands between quotes.
fn write_byte(byte: u8, out: &mut Listed<u8>) -> Result<(), Memory>
    ensures { OnOk result (out.new ≡ out.old ++ byte_text byte) }
{
    match byte {
        b'\\' => out.append(b"\\\\"),
        b'"' => out.append(b"\\\""),
        b'\n' => out.append(b"\\n"),
        _ => out.push(byte),
    }
}
