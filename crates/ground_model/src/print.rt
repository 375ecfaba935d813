// The printed text of an answer.
ghost use Rattle.std.specs.Prelude.{◌≡◌, ◌++◌, length, map, filter, drop, reverse, codes, decimal, IsTrue, OnOk, OnErr, IfOk};
ghost use Rattle.std.specs.Fmt.{signed_decimal};
ghost use Rattle.std.specs.List.{AllByRecursion};
ghost use Rattle.symbols.specs.Text.{symbol_text};
ghost use Rattle.ground_model.specs.Answers.{IsNumbered, AreAtomsOf, IsValuation};
ghost use Rattle.ground_model.specs.inner.Ordered.{spaced};
ghost use Rattle.ground_model.specs.Printed.{name_of, is_shown, atom_entry, variable_entry, entries, cost_line, block};
ghost use Rattle.ground_model.specs.Sound.{are_known};

use crate::answer::Answer;
use crate::cost::objective;
use crate::flags::flagged;
use crate::order::ordered;
use crate::program::GroundProgram;
use itoa::Buffer;
use std::alloc::Global;
use symbols::{Listed, Memory, SymbolId, SymbolTable};

/// Appends the block of an answer with its number, or leaves the list as it was.
///
/// The block is `Answer: ` with the number, the line of what is shown, and with an objective the line
/// `Cost: ` with its value. It takes linear time where the program's atoms and variables stand in symbol order.
pub fn write_answer(
    alloc: Global,
    program: &GroundProgram,
    answer: &Answer,
    number: u64,
    out: &mut Listed<u8>,
) -> Result<(), Memory>
    requires atoms { AreAtomsOf program.now answer.now.atoms }
    requires values { IsValuation program.now answer.now.values }
    ensures ok { OnOk result (out.new ≡ out.old ++ block program.now answer.now number) }
    ensures err { OnErr result (out.new ≡ out.old) }
{
    let line = spaced_line(alloc, program, answer)?;
    let text = whole_block(alloc, program, answer, number, line.items())?;
    out.append(text.items())
}

// The block of an answer, given its line with a blank before each entry.
#[tactic(auto, using(crate::proofs::PrintLemmas::joined))]
fn whole_block(
    alloc: Global,
    program: &GroundProgram,
    answer: &Answer,
    number: u64,
    line: &[u8],
) -> Result<Listed<u8>, Memory>
    requires values { IsValuation program.now answer.now.values }
    requires line { line.now ≡ spaced (entries program.now answer.now) }
    ensures { IfOk result (λ text. text ≡ block program.now answer.now number) }
{
    let mut text = Listed::new(alloc);
    push_heading(&mut text, number)?;
    push_line(&mut text, line)?;
    push_cost_line(&mut text, program, answer)?;
    Ok(text)
}

// Adds the first line of a block.
fn push_heading(text: &mut Listed<u8>, number: u64) -> Result<(), Memory>
    ensures { OnOk result (text.new ≡ text.old ++ codes "Answer: " ++ decimal number ++ codes "\n") }
{
    let mut buffer = Buffer::new();
    text.append(b"Answer: ")?;
    text.append(buffer.format(number).as_bytes())?;
    text.push(b'\n')
}

// Adds a line whose entries each have a blank before them, without the first blank.
fn push_line(text: &mut Listed<u8>, line: &[u8]) -> Result<(), Memory>
    ensures { OnOk result (text.new ≡ text.old ++ drop 1 line.now ++ codes "\n") }
{
    if !line.is_empty() {
        text.append(&line[1..])?;
    }
    text.push(b'\n')
}

// Adds the line of the objective, if there is one.
fn push_cost_line(
    text: &mut Listed<u8>,
    program: &GroundProgram,
    answer: &Answer,
) -> Result<(), Memory>
    requires { IsValuation program.now answer.now.values }
    ensures { OnOk result (text.new ≡ text.old ++ cost_line program.now answer.now) }
{
    if program.has_objective {
        push_cost(text, objective(program, answer))
    } else {
        Ok(())
    }
}

// Adds the line of a cost.
fn push_cost(text: &mut Listed<u8>, cost: i128) -> Result<(), Memory>
    ensures { OnOk result (text.new ≡ text.old ++ codes "Cost: " ++ signed_decimal cost ++ codes "\n") }
{
    let mut buffer = Buffer::new();
    text.append(b"Cost: ")?;
    text.append(buffer.format(cost).as_bytes())?;
    text.push(b'\n')
}

// The shown atoms and then the shown variables with their values, each in symbol order and after a blank.
fn spaced_line(
    alloc: Global,
    program: &GroundProgram,
    answer: &Answer,
) -> Result<Listed<u8>, Memory>
    requires atoms { AreAtomsOf program.now answer.now.atoms }
    requires values { IsValuation program.now answer.now.values }
    ensures { IfOk result (λ line. line ≡ spaced (entries program.now answer.now)) }
{
    let mut line = Listed::new(alloc);
    let shown = shown_numbers(alloc, program.shown_atoms.items(), answer.atoms.items())?;
    let atoms = ordered(alloc, &program.symbols, program.atoms.items(), shown)?;
    push_atoms(program, atoms, &mut line)?;
    let shown = flagged(alloc, program.shown_variables.items())?;
    let variables = ordered(alloc, &program.symbols, program.variables.items(), shown)?;
    push_variables(program, answer.values.items(), variables, &mut line)?;
    Ok(line)
}

// The shown ones among numbers.
#[tactic(auto, using(crate::proofs::OrderedLemmas::property_append))]
fn shown_numbers(alloc: Global, flags: &[bool], numbers: &[u32]) -> Result<Listed<u32>, Memory>
    requires { AllByRecursion (IsNumbered (length flags.now)) numbers.now }
    ensures shown { IfOk result (λ list. list ≡ filter (is_shown flags.now) numbers.now) }
    ensures same { IfOk result (λ list. AllByRecursion (IsNumbered (length flags.now)) list) }
{
    let mut list = Listed::new(alloc);
    for number in numbers {
        if flags[*number as usize - 1] {
            list.push(*number)?;
        }
    }
    Ok(list)
}

// Adds a blank and the symbol of an atom or a variable.
#[tactic(auto, using(crate::proofs::OrderedLemmas::known_at))]
fn push_name(
    symbols: &SymbolTable,
    ids: &[SymbolId],
    number: u32,
    line: &mut Listed<u8>,
) -> Result<(), Memory>
    requires known { IsTrue (are_known (length symbols.now) ids.now) }
    requires number { IsNumbered (length ids.now) number }
    ensures { OnOk result (line.new ≡ line.old ++ codes " " ++ symbol_text (name_of symbols.now ids.now number)) }
{
    line.push(b' ')?;
    symbols.write_symbol(ids[number as usize - 1], line)
}

// Adds the atoms of a stack, from its top on.
#[tactic(auto, using(crate::proofs::PrintLemmas::popped, crate::proofs::OrderedLemmas::property_front, crate::proofs::OrderedLemmas::property_back))]
fn push_atoms(program: &GroundProgram, atoms: Vec<u32>, line: &mut Listed<u8>) -> Result<(), Memory>
    requires { AllByRecursion (IsNumbered (length program.now.atoms)) atoms.items }
    ensures { OnOk result (line.new ≡ line.old ++ spaced (map (atom_entry program.now) (reverse atoms.items))) }
{
    let mut left = atoms;
    while let Some(atom) = left.pop() {
        push_name(&program.symbols, program.atoms.items(), atom, line)?;
    }
    Ok(())
}

// Adds a variable with its value.
fn push_variable(
    program: &GroundProgram,
    values: &[i32],
    variable: u32,
    line: &mut Listed<u8>,
) -> Result<(), Memory>
    requires number { IsNumbered (length program.now.variables) variable }
    requires values { length values.now ≡ length program.now.variables }
    ensures { OnOk result (line.new ≡ line.old ++ codes " " ++ (variable_entry program.now values.now variable).1) }
{
    let mut buffer = Buffer::new();
    push_name(&program.symbols, program.variables.items(), variable, line)?;
    line.push(b'=')?;
    line.append(buffer.format(values[variable as usize - 1]).as_bytes())
}

// Adds the variables of a stack with their values, from its top on.
#[tactic(auto, using(crate::proofs::PrintLemmas::popped, crate::proofs::OrderedLemmas::property_front, crate::proofs::OrderedLemmas::property_back))]
fn push_variables(
    program: &GroundProgram,
    values: &[i32],
    variables: Vec<u32>,
    line: &mut Listed<u8>,
) -> Result<(), Memory>
    requires variables { AllByRecursion (IsNumbered (length program.now.variables)) variables.items }
    requires values { length values.now ≡ length program.now.variables }
    ensures { OnOk result (line.new ≡ line.old ++ spaced (map (variable_entry program.now values.now) (reverse variables.items))) }
{
    let mut left = variables;
    while let Some(variable) = left.pop() {
        push_variable(program, values, variable, line)?;
    }
    Ok(())
}
