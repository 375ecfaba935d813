// Texts in which every rule is fine.
ghost use Rattle.std.specs.Prelude.{◌≡◌, ◌<◌, ◌^◌, length, map, IfOk, IfErr};
ghost use Rattle.syntax_tree.specs.declared.statement.Program.{Program as WrittenProgram};
ghost use Rattle.inputs.specs.Texts.{IsProgram};
ghost use Rattle.refusals.specs.Sites.{AreRewritten};
ghost use Rattle.fine_texts.specs.Fine.{AreFineTexts, IsTextStop};
ghost use Rattle.fine_texts.specs.inner.Judged.{HasTrees, IsRefusedWith};

use inputs::{ProgramStop, program_of_texts};
use refusals::failure_line;
use rewriting::{RewrittenProgram, rewrite};
use safety::first_failure;
use std::alloc::Global;
use symbols::{Listed, Memory};

/// Why texts have no program in which every rule is fine.
#[derive(Drop)]
pub enum TextStop {
    /// They are refused with this line.
    Refused(Listed<u8>),
    /// Memory could not be had.
    Memory,
}

// The program of texts, rewritten.
fn rewritten_program(
    alloc: Global,
    names: &[&str],
    texts: &[Listed<u8>],
) -> Result<RewrittenProgram, TextStop>
    requires named { length texts.now ≡ length names.now }
    requires few { length texts.now < 2 ^ 32 }
    ensures rewritten { IfOk result (HasTrees texts.now) }
    ensures refused { IfErr result (IsTextStop (map (λ name. name.now) names.now) texts.now) }
{
    let program = match program_of_texts(alloc, names, texts) {
        Ok(program) => program,
        Err(ProgramStop::Refused(line)) => return Err(TextStop::Refused(line)),
        Err(ProgramStop::Memory) => return Err(TextStop::Memory),
    };
    match rewrite(alloc, program) {
        Ok(program) => Ok(program),
        Err(_) => Err(TextStop::Memory),
    }
}

// A refusal with this line, where memory could be had for it.
fn refused(line: Result<Listed<u8>, Memory>) -> TextStop
    ensures { IsRefusedWith line result }
{
    match line {
        Ok(line) => TextStop::Refused(line),
        Err(_) => TextStop::Memory,
    }
}

/// The program of texts, rewritten, where every rule is fine, or the line of the first refusal. The texts stand under
/// the names, which are those that refusals show.
pub fn fine_program(
    alloc: Global,
    names: &[&str],
    texts: &[Listed<u8>],
) -> Result<RewrittenProgram, TextStop>
    requires named { length texts.now ≡ length names.now }
    requires few { length texts.now < 2 ^ 32 }
    ensures fine { IfOk result (AreFineTexts texts.now) }
    ensures refused { IfErr result (IsTextStop (map (λ name. name.now) names.now) texts.now) }
{
    let program = match rewritten_program(alloc, names, texts) {
        Ok(program) => program,
        Err(stop) => return Err(stop),
    };
    match first_failure(alloc, &program) {
        Ok(None) => Ok(program),
        Ok(Some(found)) => Err(refused(failure_line(alloc, names, texts, &program, found))),
        Err(_) => Err(TextStop::Memory),
    }
}
