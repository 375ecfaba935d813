// The constants of a program, and the program with them replaced.
ghost use Rattle.std.specs.Prelude.{◌≡◌, ◌<◌, Some, None, length, map, IsTrue, IfOk, IfErr, OnOk, All, if◌then◌else◌};
ghost use Rattle.syntax_tree.specs.Tree.{is_term};
ghost use Rattle.syntax_tree.specs.Statements.{is_statement, is_program};
ghost use Rattle.asp_parser.specs.Replacement as spec;
ghost use Rattle.asp_parser.specs.Constants.{IsReplaced, IsStop, constants_of, symbol_of, with_constant, with_statement};
ghost use Rattle.asp_parser.specs.ConstantTable.{AreTrees, AreWorthThemselves, IsSetBy, IsStopAt};

use crate::as_variables::as_variables;
use crate::constant_table::ConstantTable;
use crate::in_rules::changed;
use std::alloc::Global;
use symbols::{Listed, Memory};
use syntax_tree::{Program, Statement, Term};

/// Why constants are not replaced.
#[derive(Clone, Copy, Debug, PartialEq, Eq)]
pub enum ConstantStop {
    /// The first constant that may not be defined so: the number of its text, and where its name begins
    /// there, in bytes from 0.
    BadConstant(u32, usize),
    /// Memory could not be had.
    Memory,
}

/// The program with its constants replaced; a refusal drops it.
///
/// The statements that define them stay as they are. A value is put in as it is: what it holds is not
/// replaced again. A term with a variable, `_` or an interval has no value, so it may not be a constant's.
/// A constant's term is evaluated over the values of the constants before it, which share what they have in
/// common. The work is linear in the program and in the values that are put into rules, each as a tree of its
/// own there, so that it may be exponential in the text where a value doubles from constant to constant; a
/// rule in which no constant stands is not made anew. The recursion is as deep as terms nest.
pub fn replace_constants(alloc: Global, program: Program) -> Result<Program, ConstantStop>
    requires { IsTrue (is_program program) }
    ensures replaced { IfOk result (IsReplaced program) }
    ensures tree { IfOk result (λ new. IsTrue (is_program new)) }
    ensures bad { IfErr result (IsStop program.statements program.files) }
{
    match defined(alloc, program.statements.items(), program.files.items()) {
        Ok(constants) => match with_constants(alloc, program, &constants) {
            Ok(program) => Ok(program),
            Err(Memory) => Err(ConstantStop::Memory),
        },
        Err(stop) => Err(stop),
    }
}

// The program with these constants replaced.
fn with_constants(
    alloc: Global,
    program: Program,
    constants: &ConstantTable,
) -> Result<Program, Memory>
    ensures statements { IfOk result (λ new. new.statements ≡ map (spec.replaced_statement constants.now) program.statements) }
    ensures files { IfOk result (λ new. new.files ≡ program.files) }
{
    let Program { statements, files } = program;
    let statements = replaced_statements(alloc, statements, constants)?;
    Ok(Program { statements, files })
}

// The constants of statements, or the first that may not be.
fn defined(
    alloc: Global,
    statements: &[Statement],
    files: &[u32],
) -> Result<ConstantTable, ConstantStop>
    requires trees { All (λ statement. IsTrue (is_statement statement)) statements.now }
    requires files { length files.now ≡ length statements.now }
    ensures defined { IfOk result (λ constants. constants_of statements.now ≡ Some constants) }
    ensures trees { IfOk result AreTrees }
    ensures bad { IfErr result (IsStop statements.now files.now) }
{
    let mut constants = match ConstantTable::new(alloc) {
        Ok(constants) => constants,
        Err(Memory) => return Err(ConstantStop::Memory),
    };
    for at in 0..statements.len() {
        match add_statement(alloc, &statements[at], files[at], &mut constants) {
            Ok(()) => {}
            Err(stop) => return Err(stop),
        }
    }
    Ok(constants)
}

// Adds the constant of a statement, where it defines one.
fn add_statement(
    alloc: Global,
    statement: &Statement,
    file: u32,
    constants: &mut ConstantTable,
) -> Result<(), ConstantStop>
    requires tree { IsTrue (is_statement statement.now) }
    requires trees { AreTrees constants.old }
    requires values { AreWorthThemselves constants.old }
    ensures defined { OnOk result (with_statement constants.old statement.now ≡ Some constants.new) }
    ensures trees { OnOk result (AreTrees constants.new) }
    ensures values { OnOk result (AreWorthThemselves constants.new) }
    ensures bad { IfErr result (IsStopAt constants.old statement.now file) }
{
    match statement {
        Statement::Constant(name, term, place) => {
            match add_constant(alloc, name, term, constants) {
                Ok(true) => Ok(()),
                Ok(false) => Err(ConstantStop::BadConstant(file, *place)),
                Err(Memory) => Err(ConstantStop::Memory),
            }
        }
        _ => Ok(()),
    }
}

// Adds a constant, unless it may not be.
fn add_constant(
    alloc: Global,
    name: &Listed<u8>,
    term: &Term,
    constants: &mut ConstantTable,
) -> Result<bool, Memory>
    requires tree { IsTrue (is_term term.now) }
    requires values { AreWorthThemselves constants.old }
    ensures { IfOk result (λ good. with_constant constants.old name.now (spec.value_at constants.old name.now) (symbol_of constants.old term.now) ≡ (if good then Some constants.new else None)) }
{
    let term = as_variables(alloc, term, constants)?;
    constants.define(alloc, name, &term)
}

// Statements with their constants replaced.
fn replaced_statements(
    alloc: Global,
    statements: Listed<Statement>,
    constants: &ConstantTable,
) -> Result<Listed<Statement>, Memory>
    ensures { IfOk result (λ new. new ≡ map (spec.replaced_statement constants.now) statements) }
{
    let mut statements = statements;
    for at in 0..statements.len() {
        replace_at(alloc, &mut statements, at, constants)?;
    }
    Ok(statements)
}

// Replaces the constants of one statement.
fn replace_at(
    alloc: Global,
    statements: &mut Listed<Statement>,
    at: usize,
    constants: &ConstantTable,
) -> Result<(), Memory>
    requires { at < length statements.old }
    ensures { OnOk result (IsSetBy (spec.replaced_statement constants.now) statements.old at statements.new) }
{
    match changed(alloc, &statements.items()[at], constants)? {
        Some(new) => {
            statements.set(at, new);
            Ok(())
        }
        None => Ok(()),
    }
}
