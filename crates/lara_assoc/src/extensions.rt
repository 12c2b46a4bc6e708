//! Extensions of a table: what comes of each entry alone.
ghost use Rattle.std.specs.Prelude.{◌≡◌, ◌<◌, map, filter, length, Ok, IfOk, IsOk};
ghost use Rattle.lara_key.specs.Keys.{tuple_cmp};
ghost use Rattle.lara_data.specs.declared.order.EachOp.TheVariants.{Map, Promote};
ghost use Rattle.lara_data.specs.TableTypes.{types};
ghost use Rattle.lara_data.specs.Tables.{table_of};
ghost use Rattle.lara_data.specs.KeyedTables.{SameAt};
ghost use Rattle.lara_data.specs.ExprValues.{is_true, value_of};
ghost use Rattle.lara_data.specs.Extensions.{each_columns, defined_row, promoted_key, ext};
ghost use Rattle.lara_data.specs.Plugins.{handed};
ghost use Rattle.lara_data.specs.TypeRules.{map_type, promote_type, EachTyped};
ghost use Rattle.lara_assoc.specs.EachEntries.{mapped, kept, promoted};

use crate::assoc::Assoc;
use crate::sums::Sums;
use lara_base::{Copied, List};
use lara_data::{Def, EachOp, Expr, KeyDef, Plugin, TableType, map_columns, promote_columns};
use lara_expr::{eval, is_true, to_key, to_val};
use lara_key::Tuple;
use lara_semiring::Row;
use std::alloc::{AllocError, Global};

// ---- maps

// The row that is computed for an entry.
fn defined_row(
    alloc: Global,
    ty: &TableType,
    defs: &List<Def>,
    key: &Tuple,
    row: &Row,
) -> Result<Row, AllocError>
    ensures { IfOk result (λ r. r ≡ defined_row ty.now defs.now (record { key = key.now; row = row.now })) }
{
    let mut computed = List::from_vec(Vec::with_capacity(alloc, defs.len())?);
    for def in defs.as_slice() {
        let value = eval(alloc, &def.expr, ty, key, row)?;
        computed.push(to_val(alloc, def.col.ty, value))?;
    }
    Ok(computed)
}

// The sums of the keys with the rows that are computed.
fn map_sums(alloc: Global, a: &Assoc, defs: &List<Def>, ty: &TableType) -> Result<Sums, AllocError>
    requires some { 0 < length defs.now }
    requires typed { map_type a.now.ty defs.now ≡ Ok ty.now }
    ensures types { IfOk result (λ s. s.types ≡ types ty.now.vals) }
    ensures sums { IfOk result (λ s. SameAt tuple_cmp s.types s.entries (map (mapped a.now.ty defs.now) a.now.entries)) }
{
    let mut sums = Sums::new(alloc, &ty.vals)?;
    for (key, row) in a.iter() {
        let computed = defined_row(alloc, a.ty(), defs, key, row)?;
        sums.add(alloc, key.copy(alloc)?, computed)?;
    }
    Ok(sums)
}

/// The table of the same keys with the rows that are computed for them. A map of one definition at least is to have a type.
pub(crate) fn map_table(alloc: Global, a: &Assoc, defs: &List<Def>) -> Result<Assoc, AllocError>
    requires some { 0 < length defs.now }
    requires typed { IsOk (map_type a.now.ty defs.now) }
    ensures { IfOk result (λ r. r ≡ table_of (each_columns (Map defs.now) a.now.ty) (map (mapped a.now.ty defs.now) a.now.entries)) }
{
    let ty = map_columns(alloc, a.ty(), defs)?;
    let sums = map_sums(alloc, a, defs, &ty)?;
    Assoc::of_sums(alloc, ty, sums)
}

// ---- filters

// Whether the test is true of an entry.
fn passes(
    alloc: Global,
    ty: &TableType,
    test: &Expr,
    key: &Tuple,
    row: &Row,
) -> Result<bool, AllocError>
    ensures { IfOk result (λ b. b ≡ is_true (value_of ty.now key.now row.now test.now)) }
{
    let value = eval(alloc, test, ty, key, row)?;
    Ok(is_true(&value))
}

// The sums of the entries of which the test is true.
fn filter_sums(alloc: Global, a: &Assoc, test: &Expr) -> Result<Sums, AllocError>
    ensures types { IfOk result (λ s. s.types ≡ types a.now.ty.vals) }
    ensures sums { IfOk result (λ s. SameAt tuple_cmp s.types s.entries (filter (kept a.now.ty test.now) a.now.entries)) }
{
    let mut sums = Sums::new(alloc, &a.ty().vals)?;
    for (key, row) in a.iter() {
        if passes(alloc, a.ty(), test, key, row)? {
            sums.add(alloc, key.copy(alloc)?, row.copy(alloc)?)?;
        }
    }
    Ok(sums)
}

/// The table of the entries of which the test is true.
pub(crate) fn filter_table(alloc: Global, a: &Assoc, test: &Expr) -> Result<Assoc, AllocError>
    ensures { IfOk result (λ r. r ≡ table_of a.now.ty (filter (kept a.now.ty test.now) a.now.entries)) }
{
    let ty = a.ty().copy(alloc)?;
    let sums = filter_sums(alloc, a, test)?;
    Assoc::of_sums(alloc, ty, sums)
}

// ---- promotes

// The key of an entry with what is computed for it behind.
fn promoted_key(
    alloc: Global,
    ty: &TableType,
    def: &KeyDef,
    key: &Tuple,
    row: &Row,
) -> Result<Tuple, AllocError>
    ensures { IfOk result (λ k. k ≡ promoted_key ty.now def.now (record { key = key.now; row = row.now })) }
{
    let value = eval(alloc, &def.expr, ty, key, row)?;
    let mut promoted = key.copy(alloc)?;
    promoted.push(to_key(def.col.ty, value))?;
    Ok(promoted)
}

// The sums of the rows by the longer keys.
fn promote_sums(alloc: Global, a: &Assoc, def: &KeyDef) -> Result<Sums, AllocError>
    ensures types { IfOk result (λ s. s.types ≡ types a.now.ty.vals) }
    ensures sums { IfOk result (λ s. SameAt tuple_cmp s.types s.entries (map (promoted a.now.ty def.now) a.now.entries)) }
{
    let mut sums = Sums::new(alloc, &a.ty().vals)?;
    for (key, row) in a.iter() {
        let longer = promoted_key(alloc, a.ty(), def, key, row)?;
        sums.add(alloc, longer, row.copy(alloc)?)?;
    }
    Ok(sums)
}

/// The table of the same rows by keys with a further column that is computed. A promote is to have a type.
pub(crate) fn promote_table(alloc: Global, a: &Assoc, def: &KeyDef) -> Result<Assoc, AllocError>
    requires { IsOk (promote_type a.now.ty def.now) }
    ensures { IfOk result (λ r. r ≡ table_of (each_columns (Promote def.now) a.now.ty) (map (promoted a.now.ty def.now) a.now.entries)) }
{
    let ty = promote_columns(alloc, a.ty(), def)?;
    let sums = promote_sums(alloc, a, def)?;
    Assoc::of_sums(alloc, ty, sums)
}

// ---- all

/// The table of what comes of each entry. The extension is to have a type over the table's columns; an apply, which asks the
/// plugins, has none yet.
pub fn ext(
    alloc: Global,
    a: &Assoc,
    op: &EachOp,
    plugins: &Vec<Box<dyn Plugin>>,
) -> Result<Assoc, AllocError>
    requires { EachTyped a.now.ty op.now (each_columns op.now a.now.ty) }
    ensures { IfOk result (λ r. r ≡ ext (handed ⟦<dyn Plugin as Plugin>⟧ plugins.now.items) op.now a.now) }
{
    match op {
        EachOp::Map(defs) => map_table(alloc, a, defs),
        EachOp::Filter(test) => filter_table(alloc, a, test),
        EachOp::Promote(def) => promote_table(alloc, a, def),
        EachOp::Apply(_) => unreachable!(),
    }
}
