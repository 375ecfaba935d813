// A copy of a table.
ghost use Rattle.std.specs.Prelude.{◌≡◌, IfOk};
ghost use Rattle.symbols.specs.Table.{IsOnce};

use crate::memory::Memory;
use crate::table::SymbolTable;

impl SymbolTable {
    /// A table in which every id of this one has the same meaning.
    pub fn copy_table(&self) -> Result<SymbolTable, Memory>
        ensures same { IfOk result (λ table. table ≡ self.now) }
        ensures once { IfOk result IsOnce }
    {
        let layers = self.layers.copy()?;
        let depths = self.depths.clone()?;
        Ok(SymbolTable {
            alloc: self.alloc,
            layers,
            depths,
        })
    }
}
