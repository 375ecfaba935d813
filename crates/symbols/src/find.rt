// Symbols that are looked for and not made.
ghost use Rattle.std.specs.Prelude.{◌≡◌, ◌<◌, ◌^◌, length, Some, slice_get, IfSome, IfNone, All, Contains};
ghost use Rattle.symbols.specs.Symbol.{Number, Identifier, Text};
ghost use Rattle.symbols.specs.Table.{applied, IsOnce};
ghost use Rattle.symbols.specs.inner.Layer.{symbols_of, symbol_of, shown, AreBelow, IsBelow};
ghost use Rattle.symbols.specs.inner.Layers.{AreLayers, layers_of};

use crate::layers::Layers;
use crate::symbol_id::SymbolId;
use crate::symbol_view::SymbolView;
use crate::table::SymbolTable;

impl SymbolTable {
    /// The id of a number, if it is in the table.
    ///
    /// This call and its three kin add nothing and allocate nothing; each is linear in the name and the arguments.
    pub fn find_number(&self, n: i32) -> Option<SymbolId>
        ensures found { IfSome result (λ id. slice_get self.now id ≡ Some (Number n)) }
        ensures absent { IfNone result (¬ Contains self.now (Number n)) }
    {
        id_in(&self.layers, SymbolView::Number(n))
    }

    /// The id of an identifier, if it is in the table.
    pub fn find_identifier(&self, name: &str) -> Option<SymbolId>
        ensures found { IfSome result (λ id. slice_get self.now id ≡ Some (Identifier name.now)) }
        ensures absent { IfNone result (¬ Contains self.now (Identifier name.now)) }
    {
        id_in(&self.layers, SymbolView::Identifier(name))
    }

    /// The id of a text, if it is in the table.
    pub fn find_text(&self, text: &str) -> Option<SymbolId>
        ensures found { IfSome result (λ id. slice_get self.now id ≡ Some (Text text.now)) }
        ensures absent { IfNone result (¬ Contains self.now (Text text.now)) }
    {
        id_in(&self.layers, SymbolView::Text(text))
    }

    /// The id of a name with arguments, or of a tuple, whose name is empty, if it is in the table.
    pub fn find_function(&self, name: &str, args: &[SymbolId]) -> Option<SymbolId>
        requires { All (λ id. id < length self.now) args.now }
        ensures found { IfSome result (λ id. slice_get self.now id ≡ Some (applied self.now name.now args.now)) }
        ensures absent { IfNone result (¬ Contains self.now (applied self.now name.now args.now)) }
    {
        id_in(&self.layers, SymbolView::Function(name, args))
    }
}

// The id of the symbol that a layer says, if it is there.
fn id_in(layers: &Layers, layer: SymbolView) -> Option<SymbolId>
    requires layers { AreLayers layers.now }
    requires before { AreBelow 0 (layers_of layers.now) }
    requires once { IsOnce (symbols_of (layers_of layers.now)) }
    requires few { length (layers_of layers.now) < 2 ^ 32 }
    requires below { IsBelow (length (layers_of layers.now)) (shown layer) }
    ensures found { IfSome result (λ id. slice_get (symbols_of (layers_of layers.now)) id
        ≡ Some (symbol_of (symbols_of (layers_of layers.now)) (shown layer.entry))) }
    ensures absent { IfNone result (¬ Contains (symbols_of (layers_of layers.now))
        (symbol_of (symbols_of (layers_of layers.now)) (shown layer.entry))) }
{
    match layers.find(layer) {
        Some(place) => Some(SymbolId::at(place as u32)),
        None => None,
    }
}
