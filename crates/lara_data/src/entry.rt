//! Rows by their keys.
ghost use Rattle.std.specs.Prelude.{◌≡◌, IfOk};

use lara_base::{Bytes, Copied};
use lara_key::Tuple;
use lara_semiring::Row;
use std::alloc::{AllocError, Global};

/// A key with its row.
#[derive(Drop)]
pub struct Keyed<K> {
    pub key: K,
    pub row: Row,
}

/// A row by its tuple.
pub type Entry = Keyed<Tuple>;

/// A row by the bytes of its encoded key.
pub type Cell = Keyed<Bytes>;

impl<K: Copied + Drop> Copied for Keyed<K> {
    fn copy(&self, alloc: Global) -> Result<Self, AllocError> {
        Ok(Keyed {
            key: self.key.copy(alloc)?,
            row: self.row.copy(alloc)?,
        })
    }
}
