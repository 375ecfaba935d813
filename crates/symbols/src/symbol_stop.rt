// Why a function symbol isn't made.
use crate::memory::Memory;
use std::alloc::AllocError;

/// Why `SymbolTable::function` gives no symbol.
#[derive(Clone, Copy, Debug, PartialEq, Eq)]
pub enum SymbolStop {
    /// Functions and tuples would nest deeper than 256.
    TooDeep,
    /// Memory could not be had.
    Memory,
}

impl From<Memory> for SymbolStop {
    ghost use Rattle.symbols.specs.declared.symbol_stop.SymbolStop.TheVariants.{Memory as MemoryStop};
    ghost use Rattle.std.specs.Prelude.{◌≡◌};

    ghost from_gives = { λ _ stop. stop ≡ MemoryStop };

    fn from(_: Memory) -> Self {
        SymbolStop::Memory
    }
}

impl From<AllocError> for SymbolStop {
    ghost use Rattle.symbols.specs.declared.symbol_stop.SymbolStop.TheVariants.{Memory as MemoryStop};
    ghost use Rattle.std.specs.Prelude.{◌≡◌};

    ghost from_gives = { λ _ stop. stop ≡ MemoryStop };

    fn from(_: AllocError) -> Self {
        SymbolStop::Memory
    }
}
