// The program of texts.
ghost use Rattle.std.specs.Prelude.{◌≡◌, ◌<◌, ◌^◌, ◌++◌, length, map, replicate, OnOk, IfOk, IfErr, IsTrue};
ghost use Rattle.syntax_tree.specs.Statements.{is_program};
ghost use Rattle.inputs.specs.Texts.{IsProgram, IsWritten};
ghost use Rattle.inputs.specs.Stops.{IsRefusal};
ghost use Rattle.inputs.specs.inner.Written.{IsFirstFault, IsRefusalWith};

use crate::names::name_at;
use crate::refusing::{constant_line, fault_line};
use asp_parser::{ConstantStop, TextFault, TextStop, parse, replace_constants};
use std::alloc::Global;
use symbols::{Listed, Memory};
use syntax_tree::{Program, Statement};

/// Why texts have no program.
#[derive(Drop)]
pub enum ProgramStop {
    /// They are refused with this line.
    Refused(Listed<u8>),
    /// Memory could not be had.
    Memory,
}

// Why texts have no statements.
#[derive(Clone, Copy, Debug, PartialEq, Eq)]
enum WrittenStop {
    // The text with this number, from 0, has this fault.
    Fault(usize, TextFault),
    Memory,
}

// Moves statements behind others.
fn move_behind(
    alloc: Global,
    from: Listed<Statement>,
    into: &mut Listed<Statement>,
) -> Result<(), Memory>
    ensures { OnOk result (into.new ≡ into.old ++ from) }
{
    let mut from = from;
    let mut turned = Listed::new(alloc);
    while let Some(statement) = from.pop() {
        turned.push(statement)?;
    }
    while let Some(statement) = turned.pop() {
        into.push(statement)?;
    }
    Ok(())
}

// Adds the statements of a text, with its number.
#[tactic(auto, using(crate::proofs::StatementLemmas::repeated))]
fn add_statements(
    alloc: Global,
    parsed: Listed<Statement>,
    number: u32,
    program: &mut Program,
) -> Result<(), Memory>
    ensures statements { OnOk result (program.new.statements ≡ program.old.statements ++ parsed) }
    ensures files { OnOk result (program.new.files ≡ program.old.files ++ replicate (length parsed) number) }
{
    for _ in 0..parsed.len() {
        program.files.push(number)?;
    }
    move_behind(alloc, parsed, &mut program.statements)
}

// The statements of all texts, with the numbers of their texts.
fn written(alloc: Global, texts: &[Listed<u8>]) -> Result<Program, WrittenStop>
    requires { length texts.now < 2 ^ 32 }
    ensures written { IfOk result (IsWritten texts.now) }
    ensures tree { IfOk result (λ program. IsTrue (is_program program)) }
    ensures fault { IfErr result (IsFirstFault texts.now) }
{
    let mut program = Program {
        statements: Listed::new(alloc),
        files: Listed::new(alloc),
    };
    for at in 0..texts.len() {
        let parsed = match parse(alloc, texts[at].items()) {
            Ok(parsed) => parsed,
            Err(TextStop::Fault(fault)) => return Err(WrittenStop::Fault(at, fault)),
            Err(TextStop::Memory) => return Err(WrittenStop::Memory),
        };
        match add_statements(alloc, parsed, at as u32, &mut program) {
            Ok(()) => {}
            Err(_) => return Err(WrittenStop::Memory),
        }
    }
    Ok(program)
}

/// The program of texts, with its constants replaced, or the line of the first refusal. The texts stand under
/// the names, which are those that refusals show.
pub fn program_of_texts(
    alloc: Global,
    names: &[&str],
    texts: &[Listed<u8>],
) -> Result<Program, ProgramStop>
    requires named { length texts.now ≡ length names.now }
    requires few { length texts.now < 2 ^ 32 }
    ensures program { IfOk result (IsProgram texts.now) }
    ensures tree { IfOk result (λ program. IsTrue (is_program program)) }
    ensures refused { IfErr result (IsRefusal (map (λ name. name.now) names.now) texts.now) }
{
    let program = match written(alloc, texts) {
        Ok(program) => program,
        Err(WrittenStop::Fault(at, fault)) => {
            return Err(refused(fault_line(alloc, name_at(names, at), fault)));
        }
        Err(WrittenStop::Memory) => return Err(ProgramStop::Memory),
    };
    match replace_constants(alloc, program) {
        Ok(program) => Ok(program),
        Err(ConstantStop::BadConstant(file, place)) => {
            let at = file as usize;
            Err(refused(constant_line(alloc, name_at(names, at), texts[at].items(), place)))
        }
        Err(ConstantStop::Memory) => Err(ProgramStop::Memory),
    }
}

// A refusal with this line, where memory could be had for it.
fn refused(line: Result<Listed<u8>, Memory>) -> ProgramStop
    ensures { IsRefusalWith line result }
{
    match line {
        Ok(line) => ProgramStop::Refused(line),
        Err(_) => ProgramStop::Memory,
    }
}
