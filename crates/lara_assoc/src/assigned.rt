//! The tables that a script assigned so far.
ghost use Rattle.std.specs.Prelude.{◌≡◌, [], ◌∷◌, ◌++◌, List, OnOk, IfOk};
ghost use Rattle.std.specs.Option.{option_copied};
ghost use Rattle.lara_data.specs.Denotations.{NamedTable as Named, table_named, table_or_empty};
ghost use Rattle.lara_assoc.specs.Newest.{HasNewest};

use crate::assoc::Assoc;
use indexmap::IndexMap;
use lara_base::{Copied, Name};
use lara_data::TableType;
use std::alloc::{AllocError, Global};

/// Names with their newest tables.
#[derive(Drop)]
pub struct Assigned {
    pub tables: IndexMap<Name, Assoc>,
}

impl Assigned {
    /// No name has a table.
    pub fn new(alloc: Global) -> Assigned
        ensures { HasNewest result.tables [] }
    {
        Assigned {
            tables: IndexMap::new(alloc),
        }
    }

    /// The name gets the table.
    pub fn put(&mut self, name: Name, table: Assoc) -> Result<(), AllocError>
        ensures { (ts : List Named) → HasNewest self.old.tables ts → OnOk result (HasNewest self.new.tables (ts ++ record { name = name; table = table } ∷ [])) }
    {
        self.tables.insert(name, table)?;
        Ok(())
    }

    /// The newest table of a name.
    pub fn get(&self, name: &Name) -> Option<&Assoc>
        ensures { (ts : List Named) → HasNewest self.now.tables ts → option_copied result ≡ table_named name.now ts }
    {
        self.tables.get(name)
    }

    /// A copy of the newest table of a name, and the empty one where it has none.
    pub fn copy_of(&self, alloc: Global, name: &Name, ty: &TableType) -> Result<Assoc, AllocError>
        ensures { (ts : List Named) → HasNewest self.now.tables ts → IfOk result (λ t. t ≡ table_or_empty ty.now (table_named name.now ts)) }
    {
        match self.get(name) {
            Some(table) => table.copy(alloc),
            None => Assoc::empty(alloc, ty),
        }
    }
}
