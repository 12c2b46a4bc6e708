//! Plain tables on ordered maps, and the plain evaluation of typed scripts over them.
#![tactic(auto)]

mod aggs;
mod assigned;
mod assoc;
mod extensions;
mod groups;
mod joins;
mod keys;
mod named;
mod range;
mod renames;
mod rows;
mod scripts;
mod sums;
mod trees;
mod unions;

pub use aggs::agg;
pub use assoc::Assoc;
pub use extensions::ext;
pub use joins::join;
pub use named::{Answers, NamedTable, Printed, Stored};
pub use renames::rename;
pub use scripts::eval;
pub use unions::union;

#[cfg(test)]
mod tests;
#[cfg(test)]
mod tests_extensions;
