//! Order literals, made one by one.
//!
//! An order literal `x <= k` is one bound of one integer variable. A table holds those that were made:
//! none at first, and a call of `literal` adds at most the one that it names. Each has an id, its place
//! in the order of making, which it keeps. So a variable over a billion numbers costs nothing until a
//! bound of it is named (lazy clause generation: Ohrimenko, Stuckey, Codish). Stands on `symbols`.
#![tactic(auto)]

mod order_id;
mod row;
mod table;

pub use order_id::OrderId;
pub use table::{OrderLit, OrderTable};
