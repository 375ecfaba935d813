// From the texts of a program to what is printed for them.
ghost use Rattle.std.specs.Prelude.{◌≡◌, ◌<◌, ◌^◌, ◌++◌, length, IfOk};
ghost use Rattle.symbols.specs.Table.{IsOnce};
ghost use Rattle.first_form.specs.Form.{HaveKnown, rules_in};
ghost use Rattle.clingcon_app.specs.Words.{names_of};
ghost use Rattle.clingcon_app.specs.Stops.{IsJudged, IsVerdict};
ghost use Rattle.clingcon_app.specs.Printed.{PrintsAnswer, satisfiable};

use crate::grounding::program_of;
use crate::parsing::{ProgramStop, program_of_texts};
use first_form::{DefiniteStatement, FormStop, read_statements};
use ground_model::{definite_answer, write_answer};
use std::alloc::Global;
use symbols::{Listed, Memory, SymbolTable};
use syntax_tree::Program;

/// What is printed for texts.
#[derive(Drop)]
pub(crate) enum Verdict {
    /// The block of the one answer of their program.
    Answer(Listed<u8>),
    /// The line of the first refusal.
    Refused(Listed<u8>),
    /// Their program is not of the first form.
    NotBuilt,
}

/// What is printed for the texts of the inputs that the words name.
pub(crate) fn verdict_of(
    alloc: Global,
    words: &[String],
    texts: &[Listed<u8>],
) -> Result<Verdict, Memory>
    requires named { length texts.now ≡ length (names_of words.now) }
    requires few { length texts.now < 2 ^ 32 }
    ensures { IfOk result (IsVerdict (names_of words.now) texts.now) }
{
    match program_of_texts(alloc, words, texts) {
        Ok(program) => judged(alloc, &program),
        Err(ProgramStop::Refused(line)) => Ok(Verdict::Refused(line)),
        Err(ProgramStop::Memory) => Err(Memory),
    }
}

// What is printed for a program whose constants are replaced.
fn judged(alloc: Global, program: &Program) -> Result<Verdict, Memory>
    ensures { IfOk result (IsJudged program.now) }
{
    let mut symbols = SymbolTable::new(alloc)?;
    match read_statements(alloc, program.statements.items(), &mut symbols) {
        Ok(statements) => {
            let block = block_of(alloc, symbols, statements.items())?;
            Ok(Verdict::Answer(block))
        }
        Err(FormStop::OtherForm) => Ok(Verdict::NotBuilt),
        Err(FormStop::Memory) => Err(Memory),
    }
}

// The block of the one answer of statements.
fn block_of(
    alloc: Global,
    symbols: SymbolTable,
    statements: &[DefiniteStatement],
) -> Result<Listed<u8>, Memory>
    requires once { IsOnce symbols }
    requires known { HaveKnown symbols statements.now }
    ensures { IfOk result (λ block. PrintsAnswer (rules_in symbols statements.now) (block ++ satisfiable)) }
{
    let program = program_of(alloc, symbols, statements)?;
    let answer = definite_answer(alloc, &program)?;
    let mut block = Listed::new(alloc);
    write_answer(alloc, &program, &answer, 1, &mut block)?;
    Ok(block)
}
