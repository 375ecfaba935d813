// The lines of refusals.
ghost use Rattle.std.specs.Prelude.{◌≡◌, IfOk};
ghost use Rattle.inputs.specs.Sizes as sizes;
ghost use Rattle.inputs.specs.Texts as spec;

use asp_parser::{TextCause, TextFault};
use itoa::Buffer;
use lexer::line_column;
use std::alloc::Global;
use symbols::{Listed, Memory};

fn cause_text(cause: TextCause) -> &'static str
    ensures { result.now ≡ spec.cause_text cause }
{
    match cause {
        TextCause::NotUtf8 => "not UTF-8",
        TextCause::OpenString => "string is not closed",
        TextCause::OpenComment => "comment is not closed",
        TextCause::BadCharacter => "unexpected character",
        TextCause::NumberTooLarge => "number above 2147483647",
        TextCause::Expected => "syntax error",
        TextCause::TooDeep => "nesting above 64",
        TextCause::UnknownTheory => "unknown theory atom",
        TextCause::WrongPlace => "theory atom not allowed here",
        TextCause::BadGuard => "guard not allowed here",
        TextCause::BadTerm => "term not allowed here",
        TextCause::TooManyVariables => "more than 64 variables",
    }
}

/// The line of a refusal at a place of a text: `NAME:LINE:COLUMN: error: WHY`, with a line feed.
pub fn line_at(
    alloc: Global,
    name: &str,
    line: usize,
    column: usize,
    why: &[u8],
) -> Result<Listed<u8>, Memory>
    ensures { IfOk result (λ printed. printed ≡ spec.line_at name.now line column why.now) }
{
    let mut printed = Listed::from_slice(alloc, name.as_bytes())?;
    let mut buffer = Buffer::new();
    printed.push(b':')?;
    printed.append(buffer.format(line).as_bytes())?;
    printed.push(b':')?;
    printed.append(buffer.format(column).as_bytes())?;
    printed.append(b": error: ")?;
    printed.append(why)?;
    printed.push(b'\n')?;
    Ok(printed)
}

/// The line of a text's fault.
pub(crate) fn fault_line(alloc: Global, name: &str, fault: TextFault) -> Result<Listed<u8>, Memory>
    ensures { IfOk result (λ printed. printed ≡ spec.line_at name.now fault.line fault.column (spec.cause_text fault.cause)) }
{
    line_at(
        alloc,
        name,
        fault.line,
        fault.column,
        cause_text(fault.cause).as_bytes(),
    )
}

/// The line of a constant that may not be, whose name begins at this byte.
pub(crate) fn constant_line(
    alloc: Global,
    name: &str,
    text: &[u8],
    place: usize,
) -> Result<Listed<u8>, Memory>
    ensures { IfOk result (λ printed. printed ≡ spec.constant_line name.now text.now place) }
{
    let (line, column) = line_column(text, place.min(text.len()));
    line_at(alloc, name, line, column, b"constant not allowed")
}

/// The line of a text that is too large: `NAME: error: text too large`, with a line feed.
pub fn too_large_line(alloc: Global, name: &str) -> Result<Listed<u8>, Memory>
    ensures { IfOk result (λ printed. printed ≡ sizes.too_large_line name.now) }
{
    let mut printed = Listed::from_slice(alloc, name.as_bytes())?;
    printed.append(b": error: text too large\n")?;
    Ok(printed)
}

/// The line of a program with more ground instances than its limit: `error: ground limit, COUNT instances`, with a
/// line feed.
pub fn count_line(alloc: Global, count: u64) -> Result<Listed<u8>, Memory>
    ensures { IfOk result (λ printed. printed ≡ sizes.count_line count) }
{
    let mut printed = Listed::from_slice(alloc, b"error: ground limit, ")?;
    let mut buffer = Buffer::new();
    printed.append(buffer.format(count).as_bytes())?;
    printed.append(b" instances\n")?;
    Ok(printed)
}
