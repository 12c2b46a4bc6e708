//! Small values for the tests, whose names are single letters.

use crate::{Entry, KeyCol, Keyed, TableType, ValCol};
use lara_base::{Copied, List, Name};
use lara_key::{KeyType, KeyVal};
use lara_semiring::{Row, ValType, Value};
use std::alloc::{AllocError, Global};

/// A copy, by the bound alone.
pub(crate) fn copy_of<T: Copied>(alloc: Global, value: &T) -> Result<T, AllocError> {
    value.copy(alloc)
}

pub(crate) fn name(alloc: Global, letter: u8) -> Result<Name, AllocError> {
    Name::new(List::from_slice(alloc, &[letter])?).ok_or(AllocError)
}

pub(crate) fn is_letter(name: &Name, letter: u8) -> bool {
    name.bytes().len() == 1 && name.bytes().get(0) == Some(&letter)
}

pub(crate) fn key_col(alloc: Global, letter: u8) -> Result<KeyCol, AllocError> {
    Ok(KeyCol {
        name: name(alloc, letter)?,
        ty: KeyType::Nat,
    })
}

pub(crate) fn val_col(alloc: Global, letter: u8) -> Result<ValCol, AllocError> {
    Ok(ValCol {
        name: name(alloc, letter)?,
        ty: ValType::Count,
    })
}

pub(crate) fn key_cols(alloc: Global, letters: &[u8]) -> Result<List<KeyCol>, AllocError> {
    let mut cols = List::new(alloc);
    for letter in letters {
        cols.push(key_col(alloc, *letter)?)?;
    }
    Ok(cols)
}

pub(crate) fn val_cols(alloc: Global, letters: &[u8]) -> Result<List<ValCol>, AllocError> {
    let mut cols = List::new(alloc);
    for letter in letters {
        cols.push(val_col(alloc, *letter)?)?;
    }
    Ok(cols)
}

/// The key columns i and j, and the value column v.
pub(crate) fn matrix_type(alloc: Global) -> Result<TableType, AllocError> {
    TableType::new(key_cols(alloc, b"ij")?, val_cols(alloc, b"v")?).ok_or(AllocError)
}

pub(crate) fn row(alloc: Global, count: u64) -> Result<Row, AllocError> {
    let mut row = List::new(alloc);
    row.push(Value::Count(count))?;
    Ok(row)
}

pub(crate) fn entry(alloc: Global, column: u64, count: u64) -> Result<Entry, AllocError> {
    let mut key = List::new(alloc);
    key.push(KeyVal::Nat(column))?;
    Ok(Keyed {
        key,
        row: row(alloc, count)?,
    })
}
