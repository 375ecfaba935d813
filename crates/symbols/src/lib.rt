//! Symbols by number, and the small types that every crate shares.
//!
//! A `SymbolTable` holds each symbol once: two ids of one table are equal exactly where their symbols
//! are, and an id keeps its meaning as the table grows. `Listed` is a growable list that contracts see
//! as a list, `Memory` the one refusal for want of memory, `Ends` the ends of all integer variables,
//! `Rel` the six relations, and `limits` has the limits of both programs. Stands on `indexmap` alone.
#![tactic(auto)]

mod copy;
mod ends;
mod find;
mod layers;
pub mod limits;
mod listed;
mod memory;
mod order;
mod rel;
mod sorted;
mod symbol_id;
mod symbol_stop;
mod symbol_view;
mod table;
mod write;

pub use ends::Ends;
pub use listed::Listed;
pub use memory::Memory;
pub use order::symbols_are_ordered;
pub use rel::Rel;
pub use sorted::sorted_ids;
pub use symbol_id::SymbolId;
pub use symbol_stop::SymbolStop;
pub use symbol_view::SymbolView;
pub use table::SymbolTable;
