//! Prints the conflict tables: for each kind of object a matrix, and for each of its marks an
//! example in both orders. `row_of` has marks exactly where its table marks the pair, and
//! `orders_of` has an example for each pair that conflicts and for no other. `write_tables` returns
//! and never panics. The layout of the text is only tested.
#![tactic(auto)]

mod cell_value;
mod examples;
mod matrix;
mod named;
mod orders;
mod sizes;
mod tables;

pub use cell_value::CellValue;
pub use examples::orders_of;
pub use matrix::{row_of, size_row};
pub use named::NamedTable;
pub use orders::{OpOrder, Orders, push_example};
pub use sizes::size_orders;
pub use tables::{TableName, write_tables};
