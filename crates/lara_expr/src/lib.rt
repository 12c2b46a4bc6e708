//! What expressions come to over the columns of one entry.
#![tactic(auto)]

mod columns;
mod compared;
mod convert;
mod evaluation;
mod functions;
mod operators;

pub use convert::{to_key, to_val};
pub use evaluation::eval;
pub use operators::is_true;

#[cfg(test)]
mod tests;
