//! Which columns a table may have, and copies of types and entries.

use crate::tests_samples::{
    copy_of, entry, is_letter, key_col, key_cols, matrix_type, name, row, val_col, val_cols,
};
use crate::{Cell, Entry, Schema, TableType};
use lara_base::List;
use lara_key::KeyVal;
use lara_semiring::{Row, Value};
use std::alloc::{AllocError, Global};
use std::test::Fail;

fn is_type(alloc: Global, keys: &str, vals: &str) -> Result<bool, AllocError> {
    let keys = key_cols(alloc, keys.as_bytes())?;
    let vals = val_cols(alloc, vals.as_bytes())?;
    Ok(TableType::new(keys, vals).is_some())
}

#[test]
fn a_type_has_few_columns_of_distinct_names(rt: HostRuntime) -> Result<(), Fail> {
    let alloc = rt.alloc();
    for (keys, vals, want) in [
        ("ij", "v", true),
        ("", "v", true),
        ("abcdefgh", "stuvwxyz", true),
        ("abcdefghi", "v", false),
        ("i", "rstuvwxyz", false),
        ("i", "", false),
        ("iji", "v", false),
        ("i", "vwv", false),
        ("ij", "vj", false),
    ] {
        assert_eq!(rt; is_type(alloc, keys, vals)?, want);
    }
    Ok(())
}

// Whether it is the type of `matrix_type`.
fn is_matrix_type(ty: &TableType) -> bool {
    match (ty.keys.as_slice(), ty.vals.as_slice()) {
        ([i, j], [v]) => {
            is_letter(&i.name, b'i') && is_letter(&j.name, b'j') && is_letter(&v.name, b'v')
        }
        _ => false,
    }
}

fn schema(alloc: Global) -> Result<Schema, AllocError> {
    let ty = matrix_type(alloc)?;
    Ok(Schema {
        name: name(alloc, b't')?,
        ty,
    })
}

fn is_schema(schema: &Schema) -> bool {
    is_letter(&schema.name, b't') && is_matrix_type(&schema.ty)
}

fn copies_schema(alloc: Global) -> Result<bool, AllocError> {
    Ok(is_schema(&copy_of(alloc, &schema(alloc)?)?))
}

fn copies_type(alloc: Global) -> Result<bool, AllocError> {
    Ok(is_matrix_type(&copy_of(alloc, &matrix_type(alloc)?)?))
}

fn copies_key_col(alloc: Global) -> Result<bool, AllocError> {
    Ok(is_letter(&copy_of(alloc, &key_col(alloc, b'i')?)?.name, b'i'))
}

fn copies_val_col(alloc: Global) -> Result<bool, AllocError> {
    Ok(is_letter(&copy_of(alloc, &val_col(alloc, b'v')?)?.name, b'v'))
}

#[test]
fn types_and_schemas_are_copied(rt: HostRuntime) -> Result<(), Fail> {
    let alloc = rt.alloc();
    assert!(rt; copies_schema(alloc)?);
    assert!(rt; copies_type(alloc)?);
    assert!(rt; copies_key_col(alloc)?);
    assert!(rt; copies_val_col(alloc)?);
    Ok(())
}

fn is_row(row: &Row, count: u64) -> bool {
    match row.as_slice() {
        [Value::Count(n)] => *n == count,
        _ => false,
    }
}

fn is_entry(entry: &Entry, column: u64, count: u64) -> bool {
    entry.key.len() == 1
        && entry.key.get(0) == Some(&KeyVal::Nat(column))
        && is_row(&entry.row, count)
}

fn copies_entry(alloc: Global) -> Result<bool, AllocError> {
    Ok(is_entry(&copy_of(alloc, &entry(alloc, 7, 9)?)?, 7, 9))
}

fn cell(alloc: Global) -> Result<Cell, AllocError> {
    let row = row(alloc, 9)?;
    Ok(Cell {
        key: List::from_slice(alloc, b"code")?,
        row,
    })
}

fn is_cell(cell: &Cell) -> bool {
    cell.key.as_slice() == b"code".as_slice() && is_row(&cell.row, 9)
}

fn copies_cell(alloc: Global) -> Result<bool, AllocError> {
    Ok(is_cell(&copy_of(alloc, &cell(alloc)?)?))
}

#[test]
fn entries_are_copied_with_their_keys_and_rows(rt: HostRuntime) -> Result<(), Fail> {
    let alloc = rt.alloc();
    assert!(rt; copies_entry(alloc)?);
    assert!(rt; copies_cell(alloc)?);
    Ok(())
}
