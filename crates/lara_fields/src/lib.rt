//! Fields of a format, read one after the other: numbers, flags and texts, and where a reading stops.
#![tactic(auto)]

mod flags;
mod numbers;
mod stop;
mod texts;
mod texts_behind;

pub use flags::{flag_at, flag_behind, push_flag};
pub use numbers::{
    known_bytes, push_u16, push_u32, push_u64, take_at, u16_at, u32_at, u64_at, u64_behind,
};
pub use stop::Stop;
pub use texts::{push_content, push_text, text_at};
pub use texts_behind::text_behind;

#[cfg(test)]
mod tests;
