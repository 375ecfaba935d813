// Lines read.
ghost use Rattle.std.specs.Prelude.{◌≡◌, IfOk, IsTrue, ◌↔◌};
ghost use Rattle.literals.specs.Nogoods.{IsNogood};
ghost use Rattle.derivation.specs.Lists.{lits_of};
ghost use Rattle.derivation.specs.Spelling.{spelling, IsLine};
ghost use Rattle.derivation.specs.declared.line.Line.{Line as LineValue};
ghost use Rattle.derivation.specs.Reading.{reading};

use crate::kinds::line_at;
use crate::line::{Line, LineStop};
use crate::ranges::is_line;
use crate::write::spelled;
use std::alloc::Global;
use symbols::Memory;

/// Reads a line, given without its line feed.
///
/// Takes linear time, and memory for the line and its spelling: what is read is written again, and taken
/// only where the two are the same bytes.
pub fn read_line(alloc: Global, bytes: &[u8]) -> Result<Line, LineStop>
    // What is read is a line with this spelling, and there is no other.
    ensures read { IfOk result (λ line. IsLine line × (bytes.now ≡ spelling line)) }
    ensures only { IfOk result (λ line. (other : LineValue) → IsLine other → bytes.now ≡ spelling other → other ≡ line) }

    // Its literals are sorted, and of two bounds on one side of a variable there is one alone.
    ensures nogood { IfOk result (λ line. IsNogood (lits_of line)) }

    // Bytes that spell a line are read, unless memory runs out.
    ensures bad { result ≡ Err LineStop.BadLine → (line : LineValue) → IsLine line → ¬ (bytes.now ≡ spelling line) }
{
    let Some(line) = line_at(alloc, bytes)? else {
        return Err(LineStop::BadLine);
    };
    if !is_line(&line) {
        return Err(LineStop::BadLine);
    }
    if !is_spelling(alloc, &line, bytes)? {
        return Err(LineStop::BadLine);
    }
    Ok(line)
}

// Whether the bytes are the spelling of the line.
fn is_spelling(alloc: Global, line: &Line, bytes: &[u8]) -> Result<bool, Memory>
    ensures { IfOk result (λ same. IsTrue same ↔ (bytes.now ≡ spelling line.now)) }
{
    let text = spelled(alloc, line, bytes.len())?;
    Ok(bytes == text.items())
}
