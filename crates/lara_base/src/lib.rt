//! The ground that every crate stands on: lists that contracts see as lists, names, short texts, copies, and the
//! traits of the outside world with their forms in memory and their real forms. It knows no value type.
#![tactic(auto)]

mod calls;
mod copied;
mod depot;
mod file_name;
mod list;
mod list_order;
mod list_traits;
mod mem_depot;
mod mem_sink;
mod mem_source;
mod name;
mod read_source;
mod standard;
mod streams;
mod text;
mod text_order;
mod write_sink;

pub use calls::Calls;
pub use copied::Copied;
pub use depot::Depot;
pub use file_name::FileName;
pub use list::{Bytes, List, Word};
pub use mem_depot::MemDepot;
pub use mem_sink::MemSink;
pub use mem_source::MemSource;
pub use name::{Name, goes_on, starts_name};
pub use read_source::ReadSource;
pub use sqlite_items::Boxed;
pub use standard::{StderrSink, StdinSource, StdoutSink};
pub use streams::{Failed, Sink, Source};
pub use text::{Content, Text};
pub use write_sink::WriteSink;

#[cfg(test)]
mod tests;
#[cfg(test)]
mod tests_depot;
