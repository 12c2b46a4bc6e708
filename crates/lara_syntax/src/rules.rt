//! The rules of the grammar, each as it is read from left to right.
pub mod columns;
pub mod defs;
pub mod entries;
pub mod expr_words;
pub mod exprs;
pub mod leaves;
pub mod names;
pub mod pairs;
pub mod statements;
pub mod tables;
