//! The types of value columns: which numbers are values, and how they are added and multiplied.
#![tactic(auto)]

mod count;
mod flag;
mod last;
mod max_min;
mod min_plus;
mod path;
mod row;
mod row_decoding;
mod row_encoding;
mod semiring;
mod value;

pub use count::CountVal;
pub use flag::FlagVal;
pub use lara_base::Text;
pub use last::LastVal;
pub use max_min::MaxMinVal;
pub use min_plus::MinPlusVal;
pub use path::{PathText, PathVal};
pub use row::{is_default, is_row_over, row_plus, row_times};
pub use row_decoding::{RowFault, decode_row};
pub use row_encoding::{encode_row, row_codes_apart};
pub use semiring::Semiring;
pub use value::{Row, ValType, Value, is_over, plus, same_val_type, times, zero};

#[cfg(test)]
mod tests;
#[cfg(test)]
mod tests_codes;
