//! Texts: the exact bytes of tables, and of texts in quotes.
#![tactic(auto)]

mod cells;
mod columns;
mod heads;
mod quotes;

pub use cells::{add_cell, add_cell_line, add_end_line, cell_text};
pub use heads::{add_head, add_head_line, table_head};
pub use quotes::add_quoted;

#[cfg(test)]
mod tests;
