// The order of symbols: `compare`, and the laws of the order.
ghost use Rattle.std.specs.Prelude.{◌≡◌, ◌<◌, length};
ghost use Rattle.std.specs.Ordering.{ordering_reverse};
ghost use Rattle.std.specs.declared.cmp.Ordering.TheVariants.{Less, Equal};
ghost use Rattle.symbols.specs.Symbol.{Symbol};
ghost use Rattle.symbols.specs.Order.{symbol_cmp};
ghost use Rattle.symbols.specs.Table.{IsOnce, symbol_at};
ghost use Rattle.symbols.specs.inner.Layer.{AreBelow, shown, symbols_of, args_in, kind_of, heads_cmp, first_apart};
ghost use Rattle.symbols.specs.inner.Layers.{AreLayers, layers_of};

use crate::layers::Layers;
use crate::symbol_id::SymbolId;
use crate::symbol_view::SymbolView;
use crate::table::SymbolTable;
use std::cmp::Ordering;

impl SymbolTable {
    /// How a symbol stands to another.
    ///
    /// Equal ids are equal at once, and of two lists of arguments only the first two that differ are
    /// looked into, so the work is linear in the names and the arguments on one path down.
    pub fn compare(&self, a: SymbolId, b: SymbolId) -> Ordering
        requires a { a < length self.now }
        requires b { b < length self.now }
        ensures { result ≡ symbol_cmp (symbol_at self.now a) (symbol_at self.now b) }
    {
        compare_places(&self.layers, a.place(), b.place())
    }
}

/// The order of symbols is total, and only a symbol is level with itself. This call does nothing: its
/// clauses are laws that callers may use.
pub fn symbols_are_ordered()
    ensures level { (a b : Symbol) → symbol_cmp a b ≡ Equal → a ≡ b }
    ensures itself { (a : Symbol) → symbol_cmp a a ≡ Equal }
    ensures reverse { (a b : Symbol) → symbol_cmp b a ≡ ordering_reverse (symbol_cmp a b) }
    ensures less { (a b c : Symbol) → symbol_cmp a b ≡ Less → symbol_cmp b c ≡ Less → symbol_cmp a c ≡ Less }
{}

// How the symbol at a place stands to that at another.
fn compare_places(layers: &Layers, a: usize, b: usize) -> Ordering
    requires layers { AreLayers layers.now }
    requires before { AreBelow 0 (layers_of layers.now) }
    requires once { IsOnce (symbols_of (layers_of layers.now)) }
    requires a { a < length (layers_of layers.now) }
    requires b { b < length (layers_of layers.now) }
    ensures { result ≡ symbol_cmp (symbol_at (symbols_of (layers_of layers.now)) a) (symbol_at (symbols_of (layers_of layers.now)) b) }
{
    if a == b {
        return Ordering::Equal;
    }
    let first = layers.view(a);
    let second = layers.view(b);
    match compare_heads(first, second) {
        Ordering::Equal => match ids_apart(args_of(first), args_of(second)) {
            Some((x, y)) => compare_places(layers, x.place(), y.place()),
            None => Ordering::Equal,
        },
        other => other,
    }
}

// How a layer stands to another, but for the arguments themselves.
fn compare_heads(a: SymbolView, b: SymbolView) -> Ordering
    ensures { result ≡ heads_cmp (shown a.entry) (shown b.entry) }
{
    match (a, b) {
        (SymbolView::Number(m), SymbolView::Number(n)) => m.cmp(&n),
        (SymbolView::Identifier(m), SymbolView::Identifier(n)) => m.cmp(n),
        (SymbolView::Text(m), SymbolView::Text(n)) => m.cmp(n),
        (SymbolView::Function(m, xs), SymbolView::Function(n, ys)) => {
            xs.len().cmp(&ys.len()).then(m.cmp(n))
        }
        _ => kind(a).cmp(&kind(b)),
    }
}

// Where a layer's kind stands in the order.
fn kind(layer: SymbolView) -> u8
    ensures { result ≡ kind_of (shown layer.entry) }
{
    match layer {
        SymbolView::Number(_) => 0,
        SymbolView::Identifier(_) => 1,
        SymbolView::Text(_) => 2,
        SymbolView::Function(_, _) => 3,
    }
}

// The arguments of a function or a tuple, and none of other layers.
fn args_of(layer: SymbolView<'_>) -> &[SymbolId]
    ensures { result.now ≡ args_in (shown layer.entry) }
{
    match layer {
        SymbolView::Function(_, args) => args,
        _ => &[],
    }
}

// The first two ids at one place that differ.
fn ids_apart(xs: &[SymbolId], ys: &[SymbolId]) -> Option<(SymbolId, SymbolId)>
    requires { length xs.now ≡ length ys.now }
    ensures { result ≡ first_apart xs.now ys.now }
{
    for (place, x) in xs.iter().enumerate() {
        if *x != ys[place] {
            return Some((*x, ys[place]));
        }
    }
    None
}
