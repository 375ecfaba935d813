// The table of symbols: each symbol stands in it once, and its place is its id.
ghost use Rattle.std.specs.Prelude.{◌≡◌, ◌<◌, ◌≤◌, ◌+◌, ◌^◌, [], length, Some, slice_get, OnOk, OnErr, IfOk, All};
ghost use Rattle.symbols.specs.Symbol.{depth, Number, Identifier, Text};
ghost use Rattle.symbols.specs.Table.{IsFront, IsOnce, applied};
ghost use Rattle.symbols.specs.inner.Layer.{symbols_of, symbol_of, shown, IsBelow, IsTable, deepest_at};
ghost use Rattle.symbols.specs.inner.Layers.{AreLayers, layers_of};

use crate::layers::Layers;
use crate::limits::{MAX_DEPTH, MAX_SYMBOLS};
use crate::memory::Memory;
use crate::symbol_id::SymbolId;
use crate::symbol_stop::SymbolStop;
use crate::symbol_view::SymbolView;
use std::alloc::Global;
use std::marker::Model;

/// Symbols, each of them once. Clauses see the table as the list of its symbols, where an id is a place.
///
/// A symbol is found or made in time linear in its name and its arguments. A table holds at most
/// 4,294,967,295 symbols: one more is answered as a want of memory.
#[derive(Debug, Drop)]
pub struct SymbolTable {
    pub(crate) alloc: Global,
    pub(crate) layers: Layers,
    pub(crate) depths: Vec<u16>,
}

impl Model for SymbolTable {
    ghost use Rattle.std.specs.Prelude.{List};
    ghost use Rattle.std.specs.Coded.{coded_list};
    ghost use Rattle.symbols.specs.Symbol.{Symbol};
    ghost use Rattle.symbols.specs.SymbolCode.{symbol_code};

    ghost Value = { List Symbol };

    ghost coded = { coded_list symbol_code };

    ghost use Rattle.symbols.specs.inner.Layer.{symbols_of, IsTable};
    ghost use Rattle.symbols.specs.inner.Layers.{layers_of, AreLayers};

    ghost view = { λ table. symbols_of (layers_of table.layers) };

    ghost invariant = { λ table. AreLayers table.layers × IsTable (layers_of table.layers) table.depths.items };
}

impl SymbolTable {
    /// The empty table.
    pub fn new(alloc: Global) -> Result<SymbolTable, Memory>
        ensures { IfOk result (λ table. table ≡ []) }
    {
        Ok(SymbolTable {
            alloc,
            layers: Layers::new(alloc),
            depths: Vec::new(alloc),
        })
    }

    /// How many symbols there are.
    pub fn len(&self) -> usize
        ensures length { result ≡ length self.now }
        ensures few { result < 2 ^ 32 }
    {
        self.layers.len()
    }

    /// No symbol stands twice, so ids are equal exactly where their symbols are. This call does nothing:
    /// its clause is a law that callers may use, of every table.
    pub fn symbols_are_distinct(&self)
        ensures { IsOnce self.now }
    {
        let _ = &self.layers;
    }

    /// The id of a number.
    pub fn number(&mut self, n: i32) -> Result<SymbolId, Memory>
        ensures id { IfOk result (λ id. slice_get self.new id ≡ Some (Number n)) }
        ensures kept { OnOk result (IsFront self.old self.new) }
        ensures once { IsOnce self.new }
        ensures err { OnErr result (self.new ≡ self.old) }
    {
        place_in(
            self.alloc,
            &mut self.layers,
            &mut self.depths,
            SymbolView::Number(n),
            0,
        )
    }

    /// The id of an identifier.
    pub fn identifier(&mut self, name: &str) -> Result<SymbolId, Memory>
        ensures id { IfOk result (λ id. slice_get self.new id ≡ Some (Identifier name.now)) }
        ensures kept { OnOk result (IsFront self.old self.new) }
        ensures once { IsOnce self.new }
        ensures err { OnErr result (self.new ≡ self.old) }
    {
        place_in(
            self.alloc,
            &mut self.layers,
            &mut self.depths,
            SymbolView::Identifier(name),
            0,
        )
    }

    /// The id of a text.
    pub fn text(&mut self, text: &str) -> Result<SymbolId, Memory>
        ensures id { IfOk result (λ id. slice_get self.new id ≡ Some (Text text.now)) }
        ensures kept { OnOk result (IsFront self.old self.new) }
        ensures once { IsOnce self.new }
        ensures err { OnErr result (self.new ≡ self.old) }
    {
        place_in(
            self.alloc,
            &mut self.layers,
            &mut self.depths,
            SymbolView::Text(text),
            0,
        )
    }

    /// The id of a name with arguments, or of a tuple, whose name is empty.
    pub fn function(&mut self, name: &str, args: &[SymbolId]) -> Result<SymbolId, SymbolStop>
        requires args { All (λ id. id < length self.old) args.now }
        requires named { args.now ≡ [] → name.now ≡ [] }
        ensures id { IfOk result (λ id. slice_get self.new id ≡ Some (applied self.old name.now args.now)) }
        ensures kept { OnOk result (IsFront self.old self.new) }
        ensures once { IsOnce self.new }
        ensures too_deep { result ≡ Err SymbolStop.TooDeep → 256 < depth (applied self.old name.now args.now) }
        ensures fits { OnOk result (depth (applied self.old name.now args.now) ≤ 256) }
        ensures err { OnErr result (self.new ≡ self.old) }
    {
        let below = deepest_of(&self.depths, args);
        if below >= MAX_DEPTH {
            return Err(SymbolStop::TooDeep);
        }
        match place_in(
            self.alloc,
            &mut self.layers,
            &mut self.depths,
            SymbolView::Function(name, args),
            below + 1,
        ) {
            Ok(id) => Ok(id),
            Err(Memory) => Err(SymbolStop::Memory),
        }
    }
}

// The greatest depth among symbols, 0 where there are none.
fn deepest_of(depths: &[u16], symbols: &[SymbolId]) -> u16
    requires { All (λ id. id < length depths.now) symbols.now }
    ensures { result ≡ deepest_at depths.now symbols.now }
{
    let mut deepest = 0;
    for symbol in symbols {
        deepest = depths[symbol.place()].max(deepest);
    }
    deepest
}

// The place of a layer of this depth, which it has already or takes at the end.
fn place_in(
    alloc: Global,
    layers: &mut Layers,
    depths: &mut Vec<u16>,
    layer: SymbolView,
    level: u16,
) -> Result<SymbolId, Memory>
    requires layers { AreLayers layers.old }
    requires table { IsTable (layers_of layers.old) depths.old.items }
    requires below { IsBelow (length (layers_of layers.old)) (shown layer) }
    requires level { level ≡ depth (symbol_of (symbols_of (layers_of layers.old)) (shown layer)) }
    requires fits { level ≤ 256 }
    ensures id { IfOk result (λ id. slice_get (symbols_of (layers_of layers.new)) id
        ≡ Some (symbol_of (symbols_of (layers_of layers.old)) (shown layer.entry))) }
    ensures kept { OnOk result (IsFront (symbols_of (layers_of layers.old)) (symbols_of (layers_of layers.new))) }
    ensures layers { AreLayers layers.new }
    ensures table { IsTable (layers_of layers.new) depths.new.items }
    ensures err { OnErr result (layers_of layers.new ≡ layers_of layers.old) }
{
    if layers.len() >= MAX_SYMBOLS {
        return Err(Memory);
    }
    depths.reserve(1)?;
    let (place, added) = layers.insert(alloc, layer)?;
    let id = SymbolId::at(place as u32);
    if !added {
        return Ok(id);
    }
    depths.push(level)?;
    Ok(id)
}
