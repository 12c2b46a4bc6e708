//! Keys: tuples of typed columns, their order, and their codes.
#![tactic(auto)]

mod decoding;
mod encoding;
mod first_columns;
mod key;
mod key_order;
mod prefix;

pub use decoding::{KeyFault, decode};
pub use encoding::{codes_keep_order, encode};
pub use first_columns::prefix_len;
pub use key::{KeyType, KeyVal, Tuple, is_key_over, same_key_type};
pub use key_order::compare;
pub use prefix::after_prefix;

#[cfg(test)]
mod tests;
#[cfg(test)]
mod tests_codes;
