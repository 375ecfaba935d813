// What a symbol looks like from outside.
ghost use Rattle.std.specs.Prelude.{◌≡◌, ◌<◌, length};
ghost use Rattle.symbols.specs.Table.{symbol_at};
ghost use Rattle.symbols.specs.View.{Shows, StandBefore};

use crate::symbol_id::SymbolId;
use crate::table::SymbolTable;

/// One layer of a symbol. The arguments are ids of the same table, and a tuple's name is empty.
#[derive(Clone, Copy, Debug)]
pub enum SymbolView<'a> {
    Number(i32),
    Identifier(&'a str),
    Text(&'a str),
    Function(&'a str, &'a [SymbolId]),
}

impl SymbolTable {
    /// What a symbol is. The ids of arguments are smaller than that of their function.
    pub fn view(&self, id: SymbolId) -> SymbolView
        requires { id < length self.now }
        ensures shown { Shows self.now result (symbol_at self.now id) }
        ensures before { StandBefore id result }
    {
        self.layers.view(id.place())
    }
}
