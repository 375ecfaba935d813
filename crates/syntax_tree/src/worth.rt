// The value of a term, whose numbers stand outside the table until a function takes them.
ghost use Rattle.std.specs.Prelude.{◌≡◌, ◌<◌, ℕ, List, [], ◌∷◌, ◌++◌, length, map, fold, slice_index_or, IfOk, IsTrue, All};
ghost use Rattle.symbols.specs.Symbol.{Symbol, Number, Identifier, Text};
ghost use Rattle.symbols.specs.Table.{IsFront, IsOnce, symbol_at, applied as applied_at};
ghost use Rattle.std.specs.Str.{is_utf8};
ghost use Rattle.syntax_tree.specs.Tree.{is_term, is_part};
ghost use Rattle.syntax_tree.specs.Outcome.{IsSymbol, IsOver, IsKnown, bound_in, outcome_of};
ghost use Rattle.syntax_tree.specs.Value as spec;
ghost use Rattle.syntax_tree.specs.Value.{AreSymbols};
ghost use Rattle.syntax_tree.specs.inner.Worth as held;

use crate::amount::{Amount, combined};
use crate::binding::{Binding, Value};
use crate::term::{Op, Part, Term};
use std::alloc::Global;
use symbols::{Listed, Memory, SymbolId, SymbolStop, SymbolTable, SymbolView};

// A symbol of the table, or what arithmetic gives.
#[derive(Clone, Copy, Debug, PartialEq, Eq)]
pub(crate) enum Worth {
    Plain(Amount),
    Symbol(SymbolId),
}

// The arguments of a function.
#[derive(Drop)]
pub(crate) enum Places {
    Ids(Listed<SymbolId>),
    Over,
    Undefined,
}

// The value as an operand.
pub(crate) fn operand(worth: Worth, symbols: &SymbolTable) -> Amount
    requires { held.IsHeld (length symbols.now) worth }
    ensures { result ≡ spec.operand (held.outcome symbols.now worth) }
{
    match worth {
        Worth::Plain(amount) => amount,
        Worth::Symbol(id) => match symbols.view(id) {
            SymbolView::Number(n) => Amount::Number(n),
            _ => Amount::Undefined,
        },
    }
}

// The parts so far with one more.
fn joined(so_far: Option<Worth>, op: Op, next: Worth, symbols: &SymbolTable) -> Worth
    requires so_far { held.IsOptionHeld (length symbols.now) so_far }
    requires next { held.IsHeld (length symbols.now) next }
    ensures value { held.outcomes symbols.now (Some result) ≡ spec.joined (held.outcomes symbols.now so_far) (op, held.outcome symbols.now next) }
    ensures known { held.IsHeld (length symbols.now) result }
{
    match so_far {
        None => next,
        Some(total) => Worth::Plain(combined(op, operand(total, symbols), operand(next, symbols))),
    }
}

// The value at a place, none past the end.
fn value_at(values: &[Option<Value>], place: usize) -> Option<Value>
    ensures { result ≡ slice_index_or values.now place None }
{
    if place < values.len() {
        values[place]
    } else {
        None
    }
}

// The value of a variable, none where it is not bound.
fn bound(binding: &Binding, number: u32) -> Option<Value>
    ensures { result ≡ held.bound_at binding.now.values number }
{
    if number == 0 {
        return None;
    }
    value_at(binding.values.items(), number as usize - 1)
}

// The worth of a variable's value, undefined where it is not bound.
fn worth_of(value: Option<Value>) -> Worth
    ensures value { (symbols : List Symbol) → held.outcome symbols result ≡ outcome_of symbols value }
    ensures known { (size : ℕ) → IsKnown size value → held.IsHeld size result }
{
    match value {
        Some(value) => worth_of_value(value),
        None => Worth::Plain(Amount::Undefined),
    }
}

fn worth_of_value(value: Value) -> Worth
    ensures value { (symbols : List Symbol) → held.outcome symbols result ≡ outcome_of symbols (Some value) }
    ensures known { (size : ℕ) → IsKnown size (Some value) → held.IsHeld size result }
{
    match value {
        Value::Symbol(id) => Worth::Symbol(id),
        Value::Over => Worth::Plain(Amount::Over),
    }
}

// The value with the other sign.
fn negated(worth: Worth, symbols: &SymbolTable) -> Worth
    requires { held.IsHeld (length symbols.now) worth }
    ensures value { (table : List Symbol) → held.outcome table result ≡ spec.negated (held.outcome symbols.now worth) }
    ensures known { (size : ℕ) → held.IsHeld size result }
{
    Worth::Plain(combined(Op::Minus, Amount::Number(0), operand(worth, symbols)))
}

// The text that UTF-8 bytes are.
fn text_of(bytes: &[u8]) -> &str
    requires { IsTrue (is_utf8 bytes.now) }
    ensures { result.now ≡ bytes.now }
{
    match std::str::from_utf8(bytes) {
        Ok(text) => text,
        Err(_) => unreachable!(),
    }
}

// The value of a name alone.
fn identifier(name: &[u8], symbols: &mut SymbolTable) -> Result<Worth, Memory>
    requires { IsTrue (is_utf8 name.now) }
    ensures value { IfOk result (λ w. held.outcome symbols.new w ≡ IsSymbol (Identifier name.now)) }
    ensures known { IfOk result (held.IsHeld (length symbols.new)) }
    ensures kept { IsFront symbols.old symbols.new }
    ensures once { IsOnce symbols.old → IsOnce symbols.new }
{
    match symbols.identifier(text_of(name)) {
        Ok(id) => Ok(Worth::Symbol(id)),
        Err(stop) => Err(stop),
    }
}

// The value of a string.
fn text(text: &[u8], symbols: &mut SymbolTable) -> Result<Worth, Memory>
    requires { IsTrue (is_utf8 text.now) }
    ensures value { IfOk result (λ w. held.outcome symbols.new w ≡ IsSymbol (Text text.now)) }
    ensures known { IfOk result (held.IsHeld (length symbols.new)) }
    ensures kept { IsFront symbols.old symbols.new }
    ensures once { IsOnce symbols.old → IsOnce symbols.new }
{
    match symbols.text(text_of(text)) {
        Ok(id) => Ok(Worth::Symbol(id)),
        Err(stop) => Err(stop),
    }
}

// The value of a name with these arguments.
fn applied(name: &str, args: &[SymbolId], symbols: &mut SymbolTable) -> Result<Worth, Memory>
    requires args { All (λ id. id < length symbols.old) args.now }
    requires named { args.now ≡ [] → name.now ≡ [] }
    ensures value { IfOk result (λ w. held.outcome symbols.new w ≡ spec.shallow (applied_at symbols.old name.now args.now)) }
    ensures known { IfOk result (held.IsHeld (length symbols.new)) }
    ensures kept { IsFront symbols.old symbols.new }
    ensures once { IsOnce symbols.old → IsOnce symbols.new }
{
    match symbols.function(name, args) {
        Ok(id) => Ok(Worth::Symbol(id)),
        Err(SymbolStop::TooDeep) => Ok(Worth::Plain(Amount::Over)),
        Err(SymbolStop::Memory) => Err(Memory),
    }
}

// The places so far where an argument is over.
fn with_over(so_far: Places) -> Places
    ensures value { (symbols : List Symbol) → held.gathered symbols result ≡ spec.with_argument (held.gathered symbols so_far) IsOver }
    ensures known { (size : ℕ) → held.AreHeld size result }
{
    match so_far {
        Places::Undefined => Places::Undefined,
        _ => Places::Over,
    }
}

// The places so far with one more.
fn with_id(so_far: Places, id: SymbolId) -> Result<Places, Memory>
    ensures value { IfOk result (λ p. (symbols : List Symbol) → held.gathered symbols p ≡ spec.with_argument (held.gathered symbols so_far) (IsSymbol (symbol_at symbols id))) }
    ensures known { IfOk result (λ p. (size : ℕ) → held.AreHeld size so_far → id < size → held.AreHeld size p) }
{
    match so_far {
        Places::Undefined => Ok(Places::Undefined),
        Places::Over => Ok(Places::Over),
        Places::Ids(ids) => with_place(ids, id),
    }
}

// The places with one more.
fn with_place(mut ids: Listed<SymbolId>, id: SymbolId) -> Result<Places, Memory>
    ensures { IfOk result (λ p. p ≡ Places.Ids (ids ++ id ∷ [])) }
{
    match ids.push(id) {
        Ok(()) => Ok(Places::Ids(ids)),
        Err(stop) => Err(stop),
    }
}

// The places so far with a number.
fn with_number(so_far: Places, n: i32, symbols: &mut SymbolTable) -> Result<Places, Memory>
    requires { held.AreHeld (length symbols.old) so_far }
    ensures value { IfOk result (λ p. held.gathered symbols.new p ≡ spec.with_argument (held.gathered symbols.old so_far) (IsSymbol (Number n))) }
    ensures known { IfOk result (held.AreHeld (length symbols.new)) }
    ensures kept { IsFront symbols.old symbols.new }
    ensures once { IsOnce symbols.old → IsOnce symbols.new }
{
    match symbols.number(n) {
        Ok(id) => with_id(so_far, id),
        Err(stop) => Err(stop),
    }
}

// The places so far with the worth of one argument more.
fn with_argument(so_far: Places, next: Worth, symbols: &mut SymbolTable) -> Result<Places, Memory>
    requires so_far { held.AreHeld (length symbols.old) so_far }
    requires next { held.IsHeld (length symbols.old) next }
    ensures value { IfOk result (λ p. held.gathered symbols.new p ≡ spec.with_argument (held.gathered symbols.old so_far) (held.outcome symbols.old next)) }
    ensures known { IfOk result (held.AreHeld (length symbols.new)) }
    ensures kept { IsFront symbols.old symbols.new }
    ensures once { IsOnce symbols.old → IsOnce symbols.new }
{
    match next {
        Worth::Plain(amount) => with_amount(so_far, amount, symbols),
        Worth::Symbol(id) => with_id(so_far, id),
    }
}

// The places so far with what arithmetic gives.
fn with_amount(so_far: Places, next: Amount, symbols: &mut SymbolTable) -> Result<Places, Memory>
    requires { held.AreHeld (length symbols.old) so_far }
    ensures value { IfOk result (λ p. held.gathered symbols.new p ≡ spec.with_argument (held.gathered symbols.old so_far) (spec.plain next)) }
    ensures known { IfOk result (held.AreHeld (length symbols.new)) }
    ensures kept { IsFront symbols.old symbols.new }
    ensures once { IsOnce symbols.old → IsOnce symbols.new }
{
    match next {
        Amount::Number(n) => with_number(so_far, n, symbols),
        Amount::Over => Ok(with_over(so_far)),
        Amount::Undefined => Ok(Places::Undefined),
    }
}

// The parts so far as the value of them all.
fn finished(so_far: Option<Worth>) -> Worth
    ensures value { (symbols : List Symbol) → held.outcome symbols result ≡ spec.some_outcome (held.outcomes symbols so_far) }
    ensures known { (size : ℕ) → held.IsOptionHeld size so_far → held.IsHeld size result }
{
    match so_far {
        Some(total) => total,
        None => Worth::Plain(Amount::Undefined),
    }
}

// The value of a term.
#[cycle(value)]
pub(crate) fn value_of(
    alloc: Global,
    term: &Term,
    binding: &Binding,
    symbols: &mut SymbolTable,
) -> Result<Worth, Memory>
    requires term { IsTrue (is_term term.now) }
    requires binding { All (IsKnown (length symbols.old)) binding.now.values }
    ensures value { IfOk result (λ w. held.outcome symbols.new w ≡ spec.value_of (bound_in symbols.old binding.now.values) term.now) }
    ensures known { IfOk result (held.IsHeld (length symbols.new)) }
    ensures kept { IsFront symbols.old symbols.new }
    ensures once { IsOnce symbols.old → IsOnce symbols.new }
{
    match term {
        Term::Number(n) => Ok(Worth::Plain(Amount::Number(*n))),
        Term::Text(bytes) => text(bytes.items(), symbols),
        Term::Variable(number) => Ok(worth_of(bound(binding, *number))),
        Term::Anonymous => Ok(Worth::Plain(Amount::Undefined)),
        Term::Function(name, args) => function(
            alloc,
            name.items(),
            args.as_slice(),
            binding,
            symbols,
        ),
        Term::Tuple(args) => nested(alloc, "", args.as_slice(), binding, symbols),
        Term::Sum(parts) => from_left(alloc, parts.as_slice(), binding, symbols),
        Term::Product(parts) => from_left(alloc, parts.as_slice(), binding, symbols),
        Term::Minus(inner) => match value_of(alloc, inner.get(), binding, symbols) {
            Ok(inner) => Ok(negated(inner, symbols)),
            Err(stop) => Err(stop),
        },
        Term::Interval(_, _) => Ok(Worth::Plain(Amount::Undefined)),
    }
}

// The value of a name with arguments, which is an identifier where there are none.
#[cycle(value)]
fn function(
    alloc: Global,
    name: &[u8],
    args: &[Term],
    binding: &Binding,
    symbols: &mut SymbolTable,
) -> Result<Worth, Memory>
    requires name { IsTrue (is_utf8 name.now) }
    requires args { All (λ arg. IsTrue (is_term arg)) args.now }
    requires binding { All (IsKnown (length symbols.old)) binding.now.values }
    ensures value { IfOk result (λ w. held.outcome symbols.new w ≡ spec.named name.now (map (spec.value_of (bound_in symbols.old binding.now.values)) args.now)) }
    ensures known { IfOk result (held.IsHeld (length symbols.new)) }
    ensures kept { IsFront symbols.old symbols.new }
    ensures once { IsOnce symbols.old → IsOnce symbols.new }
{
    if args.is_empty() {
        return identifier(name, symbols);
    }
    nested(alloc, text_of(name), args, binding, symbols)
}

// The value of a function or a tuple.
#[cycle(value)]
fn nested(
    alloc: Global,
    name: &str,
    args: &[Term],
    binding: &Binding,
    symbols: &mut SymbolTable,
) -> Result<Worth, Memory>
    requires named { args.now ≡ [] → name.now ≡ [] }
    requires args { All (λ arg. IsTrue (is_term arg)) args.now }
    requires binding { All (IsKnown (length symbols.old)) binding.now.values }
    ensures value { IfOk result (λ w. held.outcome symbols.new w ≡ spec.nested name.now (map (spec.value_of (bound_in symbols.old binding.now.values)) args.now)) }
    ensures known { IfOk result (held.IsHeld (length symbols.new)) }
    ensures kept { IsFront symbols.old symbols.new }
    ensures once { IsOnce symbols.old → IsOnce symbols.new }
{
    match arguments(alloc, args, binding, symbols) {
        Ok(places) => finished_function(name, places, symbols),
        Err(stop) => Err(stop),
    }
}

// The value of a name with arguments at these places.
fn finished_function(name: &str, args: Places, symbols: &mut SymbolTable) -> Result<Worth, Memory>
    requires args { held.AreHeld (length symbols.old) args }
    requires named { held.gathered symbols.old args ≡ AreSymbols [] → name.now ≡ [] }
    ensures value { IfOk result (λ w. held.outcome symbols.new w ≡ spec.applied_to name.now (held.gathered symbols.old args)) }
    ensures known { IfOk result (held.IsHeld (length symbols.new)) }
    ensures kept { IsFront symbols.old symbols.new }
    ensures once { IsOnce symbols.old → IsOnce symbols.new }
{
    match args {
        Places::Ids(ids) => applied(name, ids.items(), symbols),
        Places::Over => Ok(Worth::Plain(Amount::Over)),
        Places::Undefined => Ok(Worth::Plain(Amount::Undefined)),
    }
}

// The places of arguments.
#[cycle(value)]
fn arguments(
    alloc: Global,
    args: &[Term],
    binding: &Binding,
    symbols: &mut SymbolTable,
) -> Result<Places, Memory>
    requires args { All (λ arg. IsTrue (is_term arg)) args.now }
    requires binding { All (IsKnown (length symbols.old)) binding.now.values }
    ensures value { IfOk result (λ p. held.gathered symbols.new p ≡ fold spec.with_argument (AreSymbols []) (map (spec.value_of (bound_in symbols.old binding.now.values)) args.now)) }
    ensures known { IfOk result (held.AreHeld (length symbols.new)) }
    ensures kept { IsFront symbols.old symbols.new }
    ensures once { IsOnce symbols.old → IsOnce symbols.new }
{
    let mut so_far = Places::Ids(Listed::new(alloc));
    for arg in args {
        let next = value_of(alloc, arg, binding, symbols)?;
        so_far = with_argument(so_far, next, symbols)?;
    }
    Ok(so_far)
}

// The value of a sum or a product.
#[cycle(value)]
fn from_left(
    alloc: Global,
    parts: &[Part],
    binding: &Binding,
    symbols: &mut SymbolTable,
) -> Result<Worth, Memory>
    requires parts { All (λ part. IsTrue (is_part part).1) parts.now }
    requires binding { All (IsKnown (length symbols.old)) binding.now.values }
    ensures value { IfOk result (λ w. held.outcome symbols.new w ≡ spec.from_left (map (spec.part_value (bound_in symbols.old binding.now.values)) parts.now)) }
    ensures known { IfOk result (held.IsHeld (length symbols.new)) }
    ensures kept { IsFront symbols.old symbols.new }
    ensures once { IsOnce symbols.old → IsOnce symbols.new }
{
    let mut so_far = None;
    for part in parts {
        let next = value_of(alloc, &part.term, binding, symbols)?;
        so_far = Some(joined(so_far, part.op, next, symbols));
    }
    Ok(finished(so_far))
}
