//! The type of a literal: columns whose names differ, and few enough.
ghost use Rattle.std.specs.Prelude.{◌≡◌, [], ◌∷◌, ◌++◌, ℕ, List, map, OnOk};
ghost use Rattle.lara_data.specs.Judgements.{Judges};
ghost use Rattle.lara_types.specs.LiteralTypes.{one_more_name, distinct_names, key_col_name, val_col_name};
ghost use Rattle.lara_types.specs.NodeRules.{column_rules};
ghost use Rattle.lara_types.specs.Rules.{by_rules};
ghost use Rattle.lara_types.specs.Seen.{Holds};
ghost use Rattle.lara_types.specs.Written.{key_col, val_col, columns};

use crate::refuse::refused;
use lara_base::{Bytes, Copied, List};
use lara_data::{KeyCol, Kind, ReadFault, TableType, ValCol};
use lara_syntax::{AstKeyCol, AstName, AstType, AstValCol};
use std::alloc::Global;
use std::collections::BTreeSet;

/// One name more, which has not stood before.
pub fn see(alloc: Global, seen: &mut BTreeSet<Bytes>, name: &AstName) -> Result<(), ReadFault>
    ensures gives { (names : List (List ℕ)) → Holds seen.old names → Judges (λ _. names ++ name.now.name ∷ []) (one_more_name names name.now) result }
    ensures holds { (names : List (List ℕ)) → Holds seen.old names → OnOk result (Holds seen.new (names ++ name.now.name ∷ [])) }
{
    let bytes = name.name.bytes().copy(alloc)?;
    if seen.insert(bytes)? {
        Ok(())
    } else {
        Err(refused(name.at, Kind::NameTwice))
    }
}

// The names of all columns differ.
fn check_names(
    alloc: Global,
    keys: &List<AstKeyCol>,
    vals: &List<AstValCol>,
) -> Result<(), ReadFault>
    ensures { Judges (λ _. map key_col_name keys.now ++ map val_col_name vals.now) (distinct_names keys.now vals.now) result }
{
    let mut seen = BTreeSet::new(alloc);
    for key in keys.as_slice() {
        see(alloc, &mut seen, &key.name)?;
    }
    for val in vals.as_slice() {
        see(alloc, &mut seen, &val.name)?;
    }
    Ok(())
}

fn key_cols(alloc: Global, keys: &List<AstKeyCol>) -> Result<List<KeyCol>, ReadFault>
    ensures { Judges (λ cols. cols) (Ok (map key_col keys.now)) result }
{
    let mut cols = List::new(alloc);
    for key in keys.as_slice() {
        cols.push(KeyCol {
            name: key.name.name.copy(alloc)?,
            ty: key.ty,
        })?;
    }
    Ok(cols)
}

fn val_cols(alloc: Global, vals: &List<AstValCol>) -> Result<List<ValCol>, ReadFault>
    ensures { Judges (λ cols. cols) (Ok (map val_col vals.now)) result }
{
    let mut cols = List::new(alloc);
    for val in vals.as_slice() {
        cols.push(ValCol {
            name: val.name.name.copy(alloc)?,
            ty: val.ty,
        })?;
    }
    Ok(cols)
}

/// The type of a literal whose first word is at `at`.
pub fn literal_type(alloc: Global, at: u32, ty: &AstType) -> Result<TableType, ReadFault>
    ensures { Judges (λ t. t) (by_rules (column_rules at ty.now) (columns ty.now)) result }
{
    check_names(alloc, &ty.keys, &ty.vals)?;
    let keys = key_cols(alloc, &ty.keys)?;
    let vals = val_cols(alloc, &ty.vals)?;
    match TableType::new(keys, vals) {
        Some(ty) => Ok(ty),
        None => Err(refused(at, Kind::TooManyColumns)),
    }
}
