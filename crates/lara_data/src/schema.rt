//! The names and types of stored tables.
ghost use Rattle.std.specs.Prelude.{◌≡◌, IfOk};

use crate::table_type::TableType;
use lara_base::{Copied, Name};
use std::alloc::{AllocError, Global};

/// A stored table's name and type.
#[derive(Drop)]
pub struct Schema {
    pub name: Name,
    pub ty: TableType,
}

impl Copied for Schema {
    fn copy(&self, alloc: Global) -> Result<Schema, AllocError> {
        Ok(Schema {
            name: self.name.copy(alloc)?,
            ty: self.ty.copy(alloc)?,
        })
    }
}
