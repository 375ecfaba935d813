// The symbols that terms are.
ghost use Rattle.std.specs.Prelude.{◌≡◌, ◌<◌, ◌≤◌, [], length, map, true, false, IfOk, IfSome, IfNone};
ghost use Rattle.symbols.specs.Symbol.{arguments as spec_arguments, deepest};
ghost use Rattle.symbols.specs.Table.{symbol_at, IsFront, IsOnce};
ghost use Rattle.syntax_tree.specs.Tree.{is_name};
ghost use Rattle.syntax_tree.specs.declared.term.Term.TheVariants.{Function};
ghost use Rattle.first_form.specs.inner.Answered.{Gives};
ghost use Rattle.first_form.specs.Form as form;
ghost use Rattle.first_form.specs.Form.{AreKnown};

use crate::statement::MAX_DEPTH;
use crate::stop::FormStop;
use std::alloc::Global;
use symbols::{Listed, SymbolId, SymbolStop, SymbolTable};
use syntax_tree::Term;

/// The symbol of an atom.
pub(crate) fn atom(
    alloc: Global,
    term: &Term,
    symbols: &mut SymbolTable,
) -> Result<SymbolId, FormStop>
    ensures read { Gives (symbol_at symbols.new) result (form.atom_of term.now) }
    ensures known { IfOk result (λ id. id < length symbols.new) }
    ensures kept { IsFront symbols.old symbols.new }
    ensures once { IsOnce symbols.old → IsOnce symbols.new }
{
    match term {
        Term::Function(name, args) => function(
            alloc,
            name.items(),
            args.as_slice(),
            symbols,
            MAX_DEPTH,
        ),
        _ => Err(FormStop::OtherForm),
    }
}

// The symbol of a term whose argument lists nest at most `depth` deep.
#[cycle(symbol)]
fn symbol(
    alloc: Global,
    term: &Term,
    symbols: &mut SymbolTable,
    depth: usize,
) -> Result<SymbolId, FormStop>
    requires { depth ≤ 64 }
    ensures read { Gives (symbol_at symbols.new) result (form.symbol_within depth term.now) }
    ensures known { IfOk result (λ id. id < length symbols.new) }
    ensures kept { IsFront symbols.old symbols.new }
    ensures once { IsOnce symbols.old → IsOnce symbols.new }
{
    match term {
        Term::Number(n) => number(*n, symbols),
        Term::Function(name, args) => function(
            alloc,
            name.items(),
            args.as_slice(),
            symbols,
            depth,
        ),
        _ => Err(FormStop::OtherForm),
    }
}

// The symbol of a name with arguments.
#[cycle(symbol)]
fn function(
    alloc: Global,
    name: &[u8],
    args: &[Term],
    symbols: &mut SymbolTable,
    depth: usize,
) -> Result<SymbolId, FormStop>
    requires { depth ≤ 64 }
    ensures read { Gives (symbol_at symbols.new) result (form.symbol_within depth (Function name.now args.now)) }
    ensures known { IfOk result (λ id. id < length symbols.new) }
    ensures kept { IsFront symbols.old symbols.new }
    ensures once { IsOnce symbols.old → IsOnce symbols.new }
{
    let Some(name) = name_of(name) else {
        return Err(FormStop::OtherForm);
    };
    if args.is_empty() {
        return identifier(name, symbols);
    }
    if depth == 0 {
        return Err(FormStop::OtherForm);
    }
    match arguments(alloc, args, symbols, depth - 1) {
        Ok(ids) => applied(name, ids.items(), symbols),
        Err(stop) => Err(stop),
    }
}

// The symbols of arguments.
#[cycle(symbol)]
fn arguments(
    alloc: Global,
    args: &[Term],
    symbols: &mut SymbolTable,
    depth: usize,
) -> Result<Listed<SymbolId>, FormStop>
    requires { depth ≤ 64 }
    ensures read { Gives (map (symbol_at symbols.new)) result (form.all_there (map (form.symbol_within depth) args.now)) }
    ensures known { IfOk result (AreKnown symbols.new) }
    ensures kept { IsFront symbols.old symbols.new }
    ensures once { IsOnce symbols.old → IsOnce symbols.new }
{
    let mut ids = Listed::new(alloc);
    for arg in args {
        let id = symbol(alloc, arg, symbols, depth)?;
        ids.push(id)?;
    }
    Ok(ids)
}

// The symbol of a number.
fn number(n: i32, symbols: &mut SymbolTable) -> Result<SymbolId, FormStop>
    ensures read { Gives (symbol_at symbols.new) result (form.number n) }
    ensures known { IfOk result (λ id. id < length symbols.new) }
    ensures kept { IsFront symbols.old symbols.new }
    ensures once { IsOnce symbols.old → IsOnce symbols.new }
{
    if n < 0 {
        return Err(FormStop::OtherForm);
    }
    match symbols.number(n) {
        Ok(id) => Ok(id),
        Err(_) => Err(FormStop::Memory),
    }
}

// The symbol of a name alone.
fn identifier(name: &str, symbols: &mut SymbolTable) -> Result<SymbolId, FormStop>
    ensures read { IfOk result (λ id. symbol_at symbols.new id ≡ form.named name.now []) }
    ensures other { result ≡ Err FormStop.OtherForm → ⊥ }
    ensures known { IfOk result (λ id. id < length symbols.new) }
    ensures kept { IsFront symbols.old symbols.new }
    ensures once { IsOnce symbols.old → IsOnce symbols.new }
{
    match symbols.identifier(name) {
        Ok(id) => Ok(id),
        Err(_) => Err(FormStop::Memory),
    }
}

// The symbol of a name with these arguments.
fn applied(name: &str, args: &[SymbolId], symbols: &mut SymbolTable) -> Result<SymbolId, FormStop>
    requires some { args.now ≡ [] → ⊥ }
    requires known { AreKnown symbols.old args.now }
    requires shallow { deepest (spec_arguments (map (symbol_at symbols.old) args.now)) ≤ 64 }
    ensures read { IfOk result (λ id. symbol_at symbols.new id ≡ form.named name.now (map (symbol_at symbols.old) args.now)) }
    ensures other { result ≡ Err FormStop.OtherForm → ⊥ }
    ensures known { IfOk result (λ id. id < length symbols.new) }
    ensures kept { IsFront symbols.old symbols.new }
    ensures once { IsOnce symbols.old → IsOnce symbols.new }
{
    match symbols.function(name, args) {
        Ok(id) => Ok(id),
        Err(SymbolStop::Memory) => Err(FormStop::Memory),
        Err(SymbolStop::TooDeep) => unreachable!(),
    }
}

// The text that a name is.
fn name_of(name: &[u8]) -> Option<&str>
    ensures same { IfSome result (λ text. text.now ≡ name.now) }
    ensures some { IfSome result (λ text. is_name name.now ≡ true) }
    ensures none { IfNone result (is_name name.now ≡ false) }
{
    if name.is_empty() {
        return None;
    }
    match std::str::from_utf8(name) {
        Ok(text) => Some(text),
        Err(_) => None,
    }
}
