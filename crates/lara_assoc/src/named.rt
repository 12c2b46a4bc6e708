//! Tables with their names, and what scripts print and store of them.
ghost use Rattle.std.specs.Prelude.{◌≡◌, IfOk};
ghost use Rattle.std.specs.Option.{option_copied};
ghost use Rattle.lara_data.specs.Denotations.{table_named, table_or_empty};
ghost use Rattle.lara_data.specs.Fits.{TablesTyped};

use crate::assoc::Assoc;
use lara_base::{Copied, List, Name};
use lara_data::TableType;
use std::alloc::{AllocError, Global};
use std::marker::Model;

/// A name with its table.
#[derive(Drop)]
pub struct NamedTable {
    pub name: Name,
    pub table: Assoc,
}

impl Model for NamedTable {
    ghost use Rattle.lara_data.specs.Denotations.{NamedTable as Named};

    ghost Value = { Named };

    ghost view = { λ d. record { name = d.name; table = d.table } };
}

/// A print: its statement counted from 1, the name, the order of its key columns and the table.
#[derive(Drop)]
pub struct Printed {
    pub statement: u32,
    pub name: Name,
    pub order: List<Name>,
    pub table: Assoc,
}

impl Model for Printed {
    ghost use Rattle.lara_data.specs.Denotations.{Printed as Print};

    ghost Value = { Print };

    ghost view = { λ p. record { statement = p.statement; name = p.name; order = p.order; table = p.table } };
}

/// A store: its statement counted from 1, the name that the table gets in the database, and the table.
#[derive(Drop)]
pub struct Stored {
    pub statement: u32,
    pub name: Name,
    pub table: Assoc,
}

impl Model for Stored {
    ghost use Rattle.lara_data.specs.Denotations.{Stored as Store};

    ghost Value = { Store };

    ghost view = { λ s. record { statement = s.statement; name = s.name; table = s.table } };
}

/// What a script prints and what it stores, each in the sequence of its statements.
#[derive(Drop)]
pub struct Answers {
    pub prints: List<Printed>,
    pub stores: List<Stored>,
}

impl Model for Answers {
    ghost use Rattle.lara_data.specs.Denotations.{Answers as Denoted};

    ghost Value = { Denoted };

    ghost view = { λ a. record { prints = a.prints; stores = a.stores } };
}

/// The newest table of a name.
#[tactic(auto, unfolding(lara_data::specs::Newest::newest, lara_data::specs::Names::same_name))]
pub fn table_named<'a>(tables: &'a List<NamedTable>, name: &Name) -> Option<&'a Assoc>
    ensures { option_copied result ≡ table_named name.now tables.now }
{
    let mut newest = None;
    for named in tables.as_slice() {
        if name.same(&named.name) {
            newest = Some(&named.table);
        }
    }
    newest
}

/// A copy of the newest table of a name, and the empty one where it has none.
pub fn copy_named(
    alloc: Global,
    tables: &List<NamedTable>,
    name: &Name,
    ty: &TableType,
) -> Result<Assoc, AllocError>
    ensures { IfOk result (λ t. t ≡ table_or_empty ty.now (table_named name.now tables.now)) }
{
    match table_named(tables, name) {
        Some(table) => table.copy(alloc),
        None => Assoc::empty(alloc, ty),
    }
}

/// Each of the tables is of its type, as its `Assoc` keeps. The loop does nothing but to say so of all of them.
pub fn are_typed(tables: &List<NamedTable>)
    ensures { TablesTyped tables.now }
{
    for named in tables.as_slice() {
        let _columns = named.table.ty();
    }
}
