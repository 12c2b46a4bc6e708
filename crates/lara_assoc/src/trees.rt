//! The table of a tree.
ghost use Rattle.std.specs.Prelude.{◌≡◌, List, IfOk};
ghost use Rattle.lara_data.specs.Plugins.{handed};
ghost use Rattle.lara_data.specs.Denotations.{NamedTable as Named, meaning_of};
ghost use Rattle.lara_assoc.specs.Meant.{IsMeantBy};
ghost use Rattle.lara_assoc.specs.Newest.{HasNewest};

use crate::aggs::agg;
use crate::assigned::Assigned;
use crate::assoc::Assoc;
use crate::extensions::{filter_table, map_table, promote_table};
use crate::joins::{agg_of_join, join};
use crate::named::{NamedTable, copy_named};
use crate::renames::rename;
use crate::unions::union;
use lara_base::List;
use lara_data::{Node, Op, Plugin};
use std::alloc::{AllocError, Global};

/// The table of a tree over stored tables and those that a script assigned so far. The plugins stand in its clauses: the
/// tables of applies, which no typed tree has yet, are to be made with them.
pub fn table_of(
    alloc: Global,
    plugins: &Vec<Box<dyn Plugin>>,
    db: &List<NamedTable>,
    tables: &Assigned,
    node: &Node,
) -> Result<Assoc, AllocError>
    requires { IsMeantBy (handed ⟦<dyn Plugin as Plugin>⟧ plugins.now.items) db.now tables.now.tables node.now }
    ensures { (ts : List Named) → HasNewest tables.now.tables ts → IfOk result (λ t. t ≡ meaning_of (handed ⟦<dyn Plugin as Plugin>⟧ plugins.now.items) db.now ts node.now) }
{
    match &node.op {
        Op::Load(name) => copy_named(alloc, db, name, &node.ty),
        Op::Named(name) => tables.copy_of(alloc, name, &node.ty),
        Op::Literal(entries) => Assoc::total(alloc, &node.ty, entries),
        Op::Join(a, b) => {
            let left = table_of(alloc, plugins, db, tables, a.get())?;
            let right = table_of(alloc, plugins, db, tables, b.get())?;
            join(alloc, &left, &right)
        }
        Op::Union(a, b) => {
            let left = table_of(alloc, plugins, db, tables, a.get())?;
            let right = table_of(alloc, plugins, db, tables, b.get())?;
            union(alloc, &left, &right)
        }
        Op::Agg(a, keys) => {
            if let Op::Join(left, right) = &a.get().op {
                let left = table_of(alloc, plugins, db, tables, left.get())?;
                let right = table_of(alloc, plugins, db, tables, right.get())?;
                return agg_of_join(alloc, &left, &right, keys);
            }
            let table = table_of(alloc, plugins, db, tables, a.get())?;
            agg(alloc, &table, keys)
        }
        Op::Map(a, defs) => {
            let table = table_of(alloc, plugins, db, tables, a.get())?;
            map_table(alloc, &table, defs)
        }
        Op::Filter(a, test) => {
            let table = table_of(alloc, plugins, db, tables, a.get())?;
            filter_table(alloc, &table, test)
        }
        Op::Promote(a, def) => {
            let table = table_of(alloc, plugins, db, tables, a.get())?;
            promote_table(alloc, &table, def)
        }
        Op::Rename(a, pairs) => {
            let table = table_of(alloc, plugins, db, tables, a.get())?;
            rename(alloc, &table, pairs)
        }
        // no words yet: these are in no script
        Op::Apply(_, _) => Assoc::empty(alloc, &node.ty),
    }
}
