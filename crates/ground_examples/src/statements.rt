// Programs.
use crate::heads::head;
use crate::terms::{body, tuples};
use ground_model::{GroundProgram, GroundRule};
use ground_parts::GroundParts;
use std::alloc::Global;
use symbols::{Ends, Listed, Memory, SymbolId, SymbolTable};

// The parts of the empty program.
fn empty(alloc: Global) -> Result<GroundParts, Memory> {
    Ok(GroundParts {
        ends: Ends::widest(),
        atoms: Listed::new(alloc),
        variables: Listed::new(alloc),
        rules: Listed::new(alloc),
        has_objective: false,
        smaller: Listed::new(alloc),
        larger: Listed::new(alloc),
        shown_atoms: Listed::new(alloc),
        shown_variables: Listed::new(alloc),
        symbols: SymbolTable::new(alloc)?,
    })
}

// Adds the symbols of names, each with a flag.
fn add_names(
    symbols: &mut SymbolTable,
    ids: &mut Listed<SymbolId>,
    flags: &mut Listed<bool>,
    names: &[&str],
    flag: bool,
) -> Result<(), Memory> {
    for name in names {
        ids.push(symbols.identifier(name)?)?;
        flags.push(flag)?;
    }
    Ok(())
}

// The ends of two words, the widest where they are none.
fn ends(min: &str, max: &str) -> Ends {
    let min: i32 = min.parse().unwrap_or(0);
    let max: i32 = max.parse().unwrap_or(0);
    if -1_073_741_823 <= min && min <= max && max <= 1_073_741_823 {
        Ends { min, max }
    } else {
        Ends::widest()
    }
}

// Adds a rule.
fn add_rule(
    alloc: Global,
    parts: &mut GroundParts,
    words: &[&str],
    literals: &str,
) -> Result<(), Memory> {
    let literals: Vec<&str> = literals.split_whitespace().collect(alloc)?;
    let body = body(alloc, literals.as_slice())?;
    let head = head(alloc, words)?;
    parts.rules.push(GroundRule { body, head })
}

// Adds what a statement says.
fn add_statement(alloc: Global, parts: &mut GroundParts, statement: &str) -> Result<(), Memory> {
    let (start, literals) = statement.split_once(":-").unwrap_or((statement, ""));
    let words: Vec<&str> = start.split_whitespace().collect(alloc)?;
    match words.as_slice() {
        ["atoms", names @ ..] => add_names(
            &mut parts.symbols,
            &mut parts.atoms,
            &mut parts.shown_atoms,
            names,
            true,
        ),
        ["hidden", names @ ..] => add_names(
            &mut parts.symbols,
            &mut parts.atoms,
            &mut parts.shown_atoms,
            names,
            false,
        ),
        ["variables", names @ ..] => add_names(
            &mut parts.symbols,
            &mut parts.variables,
            &mut parts.shown_variables,
            names,
            true,
        ),
        ["ends", min, max] => {
            parts.ends = ends(min, max);
            Ok(())
        }
        ["minimize", terms @ ..] => {
            parts.has_objective = true;
            parts.smaller = tuples(alloc, terms)?;
            Ok(())
        }
        ["maximize", terms @ ..] => {
            parts.has_objective = true;
            parts.larger = tuples(alloc, terms)?;
            Ok(())
        }
        rule => add_rule(alloc, parts, rule, literals),
    }
}

/// The program of a text, `None` where it makes none.
///
/// Takes linear time, and memory for the program.
pub fn program_of(alloc: Global, text: &str) -> Result<Option<GroundProgram>, Memory> {
    let mut parts = empty(alloc)?;
    for statement in text.split('.') {
        if !statement.trim().is_empty() {
            add_statement(alloc, &mut parts, statement)?;
        }
    }
    parts.checked(alloc)
}
