//! The union of two tables.
ghost use Rattle.std.specs.Prelude.{◌≡◌, ◌++◌, OnOk, IfOk, IsOk};
ghost use Rattle.lara_key.specs.Keys.{tuple_cmp};
ghost use Rattle.lara_data.specs.TableTypes.{types};
ghost use Rattle.lara_data.specs.KeyedTables.{SameAt};
ghost use Rattle.lara_data.specs.Algebra.{heading, shares, union_tables};
ghost use Rattle.lara_data.specs.TypeRules.{union_type};

use crate::assoc::Assoc;
use crate::keys::{picked, places};
use crate::rows::brought;
use crate::sums::Sums;
use lara_data::{TableType, key_names, union_columns};
use std::alloc::{AllocError, Global};

// Adds the entries of a table, brought to the columns of another type.
fn add_shares(alloc: Global, a: &Assoc, ty: &TableType, sums: &mut Sums) -> Result<(), AllocError>
    requires { sums.old.types ≡ types ty.now.vals }
    ensures types { sums.new.types ≡ sums.old.types }
    ensures sums { OnOk result (SameAt tuple_cmp sums.old.types sums.new.entries (sums.old.entries ++ shares (heading a.now.ty) (heading ty.now) a.now.entries)) }
{
    let names = key_names(alloc, &ty.keys)?;
    let places = places(alloc, &a.ty().keys, &names)?;
    for (key, row) in a.iter() {
        let key = picked(alloc, &places, key)?;
        sums.add(alloc, key, brought(alloc, &a.ty().vals, &ty.vals, row)?)?;
    }
    Ok(())
}

/// The table of the entries of both: common key columns, and all value columns. A union of these tables is to have a
/// type.
pub fn union(alloc: Global, a: &Assoc, b: &Assoc) -> Result<Assoc, AllocError>
    requires { IsOk (union_type a.now.ty b.now.ty) }
    ensures { IfOk result (λ r. r ≡ union_tables a.now b.now) }
{
    let ty = union_columns(alloc, a.ty(), b.ty())?;
    let mut sums = Sums::new(alloc, &ty.vals)?;
    add_shares(alloc, a, &ty, &mut sums)?;
    add_shares(alloc, b, &ty, &mut sums)?;
    Assoc::of_sums(alloc, ty, sums)
}
