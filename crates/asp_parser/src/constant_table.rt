// The constants so far, found by their names.
ghost use Rattle.std.specs.Prelude.{◌≡◌, ◌+◌, ◌<◌, ℕ, List, [], ◌∷◌, ◌++◌, length, is_some, Some, None, All, IsTrue, IfOk, OnOk, OnErr, IfSome, if◌then◌else◌};
ghost use Rattle.std.specs.Map.{lookup};
ghost use Rattle.std.specs.Option.{option_map};
ghost use Rattle.std.specs.Str.{bytes_eq};
ghost use Rattle.symbols.specs.Symbol.{Symbol};
ghost use Rattle.symbols.specs.Table.{symbol_at, IsFront};
ghost use Rattle.syntax_tree.specs.Tree.{is_term};
ghost use Rattle.syntax_tree.specs.declared.binding.Value.TheVariants.{Symbol as SymbolValue};
ghost use Rattle.syntax_tree.specs.Outcome.{IsKnown, bound_in, outcome_of};
ghost use Rattle.syntax_tree.specs.Value.{value_of};
ghost use Rattle.asp_parser.specs.Replacement as spec;
ghost use Rattle.asp_parser.specs.Constants.{symbol_in, with_constant};
ghost use Rattle.asp_parser.specs.ConstantTable.{number_at, number_in, worth_of};

use crate::constant_term::term_of;
use indexmap::IndexMap;
use std::alloc::Global;
use std::marker::Model;
use symbols::{Listed, Memory, SymbolId, SymbolTable};
use syntax_tree::{Binding, Term, Value, evaluate};

// Constants with their values. Clauses see them as a list, in the order in which they were defined.
#[derive(Drop)]
pub(crate) struct ConstantTable {
    values: IndexMap<Listed<u8>, SymbolId>,
    // The same values as those of variables, the first constant's that of variable 1.
    binding: Binding,
    symbols: SymbolTable,
}

impl Model for ConstantTable {
    ghost use Rattle.std.specs.Coded.{coded_list, coded_ℕ, coded×};
    ghost use Rattle.symbols.specs.SymbolCode.{symbol_code};
    ghost use Rattle.asp_parser.specs.Replacement.{Constants};
    ghost use Rattle.asp_parser.specs.ConstantTable.{constants_in, IsTable};
    ghost use Rattle.std.specs.Prelude.{length};

    ghost Value = { Constants };

    ghost coded = { coded_list (coded× (coded_list coded_ℕ) symbol_code) };

    ghost view = { λ table. constants_in table.symbols table.values.entries };

    ghost invariant = { λ table. IsTable (length table.symbols) table.binding.values table.values.entries };
}

impl ConstantTable {
    // No constants.
    pub(crate) fn new(alloc: Global) -> Result<ConstantTable, Memory>
        ensures { IfOk result (λ table. table ≡ []) }
    {
        Ok(ConstantTable {
            values: IndexMap::new(alloc),
            binding: Binding {
                values: Listed::new(alloc),
            },
            symbols: SymbolTable::new(alloc)?,
        })
    }

    // Whether a name is a constant.
    pub(crate) fn has(&self, name: &Listed<u8>) -> bool
        ensures { result ≡ is_some (spec.value_at self.now name.now) }
    {
        is_constant(&self.values, name)
    }

    // The value of a name as a term, where it is a constant.
    pub(crate) fn value(&self, alloc: Global, name: &Listed<u8>) -> Result<Option<Term>, Memory>
        ensures { IfOk result (λ term. term ≡ option_map spec.term_of (spec.value_at self.now name.now)) }
    {
        match id_of(&self.values, name) {
            Some(id) => Ok(Some(term_of(alloc, &self.symbols, id)?)),
            None => Ok(None),
        }
    }

    // The number of a name as a variable, where it is a constant. More constants than numbers are more than memory
    // can hold.
    pub(crate) fn number(&self, name: &Listed<u8>) -> Result<Option<u32>, Memory>
        ensures { IfOk result (λ number. number ≡ number_at self.now name.now) }
    {
        number_of(&self.values, name)
    }

    // Adds a constant whose term, with the constants before it as variables, is this one, unless it may not be.
    pub(crate) fn define(
        &mut self,
        alloc: Global,
        name: &Listed<u8>,
        term: &Term,
    ) -> Result<bool, Memory>
        requires { IsTrue (is_term term.now) }
        ensures { IfOk result (λ good. with_constant self.old name.now (spec.value_at self.old name.now) (symbol_in (value_of (worth_of self.old) term.now)) ≡ (if good then Some self.new else None)) }
    {
        if is_constant(&self.values, name) {
            return Ok(false);
        }
        match symbol_of(alloc, term, &self.binding, &mut self.symbols)? {
            Some(id) => {
                add(alloc, &mut self.values, &mut self.binding.values, name, id)?;
                Ok(true)
            }
            None => Ok(false),
        }
    }
}

// The id of a name's value, where it is a constant.
fn id_of(values: &IndexMap<Listed<u8>, SymbolId>, name: &Listed<u8>) -> Option<SymbolId>
    ensures { result ≡ lookup (bytes_eq name.now) values.now.entries }
{
    match values.get(name) {
        Some(id) => Some(*id),
        None => None,
    }
}

// Whether a name is a constant.
fn is_constant(values: &IndexMap<Listed<u8>, SymbolId>, name: &Listed<u8>) -> bool
    ensures { result ≡ is_some (lookup (bytes_eq name.now) values.now.entries) }
{
    values.contains_key(name)
}

// The number of a name as a variable, where it is a constant.
fn number_of(
    values: &IndexMap<Listed<u8>, SymbolId>,
    name: &Listed<u8>,
) -> Result<Option<u32>, Memory>
    ensures { IfOk result (λ number. number ≡ number_in values.now.entries name.now) }
{
    match values.get_index_of(name) {
        Some(place) => Ok(Some(numbered(place)?)),
        None => Ok(None),
    }
}

// The number of a place.
fn numbered(place: usize) -> Result<u32, Memory>
    ensures { IfOk result (λ number. number ≡ place + 1) }
{
    match u32::try_from(place) {
        Ok(place) => place.checked_add(1).ok_or(Memory),
        Err(_) => Err(Memory),
    }
}

// Adds a name that is no constant yet, and its value as that of a variable, or leaves both as they were.
fn add(
    alloc: Global,
    values: &mut IndexMap<Listed<u8>, SymbolId>,
    bound: &mut Listed<Option<Value>>,
    name: &Listed<u8>,
    id: SymbolId,
) -> Result<(), Memory>
    requires { lookup (bytes_eq name.now) values.old.entries ≡ None }
    ensures ok { OnOk result (values.new.entries ≡ values.old.entries ++ (name.now, id) ∷ []) }
    ensures bound { OnOk result (bound.new ≡ bound.old ++ Some (SymbolValue id) ∷ []) }
    ensures err { OnErr result ((values.new.entries ≡ values.old.entries) × (bound.new ≡ bound.old)) }
{
    bound.push(Some(Value::Symbol(id)))?;
    match insert(alloc, values, name, id) {
        Ok(()) => Ok(()),
        Err(stop) => {
            let _ = bound.pop();
            Err(stop)
        }
    }
}

// Adds a name that is no constant yet.
fn insert(
    alloc: Global,
    values: &mut IndexMap<Listed<u8>, SymbolId>,
    name: &Listed<u8>,
    id: SymbolId,
) -> Result<(), Memory>
    requires { lookup (bytes_eq name.now) values.old.entries ≡ None }
    ensures ok { OnOk result (values.new.entries ≡ values.old.entries ++ (name.now, id) ∷ []) }
    ensures err { OnErr result (values.new.entries ≡ values.old.entries) }
{
    let name = Listed::from_slice(alloc, name.items())?;
    values.insert(name, id)?;
    Ok(())
}

// The symbol that a term is worth, where its variables have these values.
fn symbol_of(
    alloc: Global,
    term: &Term,
    binding: &Binding,
    symbols: &mut SymbolTable,
) -> Result<Option<SymbolId>, Memory>
    requires term { IsTrue (is_term term.now) }
    requires binding { All (IsKnown (length symbols.old)) binding.now.values }
    ensures value { IfOk result (λ id. option_map (symbol_at symbols.new) id ≡ symbol_in (value_of (bound_in symbols.old binding.now.values) term.now)) }
    ensures known { IfOk result (λ id. IfSome id (λ n. n < length symbols.new)) }
    ensures kept { IsFront symbols.old symbols.new }
{
    match evaluate(alloc, term, binding, symbols) {
        Ok(value) => Ok(id_in(value)),
        Err(stop) => Err(stop),
    }
}

// The symbol that an answer is, if it is one.
fn id_in(value: Option<Value>) -> Option<SymbolId>
    ensures value { (symbols : List Symbol) → option_map (symbol_at symbols) result ≡ symbol_in (outcome_of symbols value) }
    ensures known { (size : ℕ) → IsKnown size value → IfSome result (λ id. id < size) }
{
    match value {
        Some(value) => id_of_value(value),
        None => None,
    }
}

fn id_of_value(value: Value) -> Option<SymbolId>
    ensures value { (symbols : List Symbol) → option_map (symbol_at symbols) result ≡ symbol_in (outcome_of symbols (Some value)) }
    ensures known { (size : ℕ) → IsKnown size (Some value) → IfSome result (λ id. id < size) }
{
    match value {
        Value::Symbol(id) => Some(id),
        Value::Over => None,
    }
}
