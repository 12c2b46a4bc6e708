//! The type of a table: its named columns.
ghost use Rattle.std.specs.Prelude.{◌≡◌, ◌<◌, ◌+◌, length, IfOk, Some, None, Bool, true, false};
ghost use Rattle.std.specs.List.{list_any};
ghost use Rattle.std.specs.Str.{bytes_eq};
ghost use Rattle.lara_data.specs.Names.{has, distinct};
ghost use Rattle.lara_data.specs.TableTypes.{key_names, val_names, column_names, typed_columns};

use crate::limits::MAX_COLS;
use lara_base::{Copied, List, Name};
use lara_key::KeyType;
use lara_semiring::ValType;
use std::alloc::{AllocError, Global};
use std::marker::Model;

/// A key column.
#[derive(Drop)]
pub struct KeyCol {
    pub name: Name,
    pub ty: KeyType,
}

/// A value column.
#[derive(Drop)]
pub struct ValCol {
    pub name: Name,
    pub ty: ValType,
}

/// What a column is: a key column or a value column, of which type.
#[derive(Clone, Copy)]
pub enum ColumnKind {
    Key(KeyType),
    Val(ValType),
}

/// At most `MAX_COLS` key columns and 1 to `MAX_COLS` value columns, all names distinct.
pub struct TableType {
    pub keys: List<KeyCol>,
    pub vals: List<ValCol>,
}

impl Drop for TableType {
    fn drop(self) {
        let TableType {
            keys: _keys,
            vals: _vals,
        } = self;
    }
}

impl Model for TableType {
    ghost use Rattle.std.specs.Prelude.{IsTrue};
    ghost use Rattle.lara_data.specs.TableTypes.{Columns, are_columns};

    ghost Value = { Columns };

    ghost view = { λ t. record { keys = t.keys; vals = t.vals } };

    ghost invariant = { λ t. IsTrue (are_columns t.keys t.vals) };
}

impl Copied for KeyCol {
    fn copy(&self, alloc: Global) -> Result<KeyCol, AllocError> {
        Ok(KeyCol {
            name: self.name.copy(alloc)?,
            ty: self.ty,
        })
    }
}

impl Copied for ValCol {
    fn copy(&self, alloc: Global) -> Result<ValCol, AllocError> {
        Ok(ValCol {
            name: self.name.copy(alloc)?,
            ty: self.ty,
        })
    }
}

impl Copied for TableType {
    fn copy(&self, alloc: Global) -> Result<TableType, AllocError> {
        Ok(TableType {
            keys: self.keys.copy(alloc)?,
            vals: self.vals.copy(alloc)?,
        })
    }
}

/// Whether the name is a key column's.
#[tactic(auto, using(crate::proofs::ColumnNames::has_key_name))]
pub fn is_key_name(keys: &[KeyCol], name: &Name) -> bool
    ensures { result ≡ has (key_names keys.now) name.now }
{
    has_key(keys, name)
}

/// Whether the name is a value column's.
#[tactic(auto, using(crate::proofs::ColumnNames::has_val_name))]
pub fn is_val_name(vals: &[ValCol], name: &Name) -> bool
    ensures { result ≡ has (val_names vals.now) name.now }
{
    has_val(vals, name)
}

fn has_key(keys: &[KeyCol], name: &Name) -> bool
    ensures { result ≡ list_any (λ k. bytes_eq name.now k.name) keys.now }
{
    keys.iter().any(|k| name.same(&k.name))
}

fn has_val(vals: &[ValCol], name: &Name) -> bool
    ensures { result ≡ list_any (λ v. bytes_eq name.now v.name) vals.now }
{
    vals.iter().any(|v| name.same(&v.name))
}

#[tactic(auto, unfolding(crate::specs::Names::distinct))]
fn are_vals_distinct(vals: &[ValCol]) -> bool
    ensures { result ≡ distinct (val_names vals.now) }
{
    match vals {
        [] => true,
        [first, rest @ ..] => {
            if is_val_name(rest, &first.name) {
                return false;
            }
            are_vals_distinct(rest)
        }
    }
}

// Whether the name is a column's.
#[tactic(auto, using(crate::proofs::ColumnNames::has_column_name))]
fn is_column_name(keys: &[KeyCol], vals: &[ValCol], name: &Name) -> bool
    ensures { result ≡ has (column_names keys.now vals.now) name.now }
{
    is_key_name(keys, name) || is_val_name(vals, name)
}

#[tactic(auto, unfolding(crate::specs::Names::distinct))]
fn are_distinct(keys: &[KeyCol], vals: &[ValCol]) -> bool
    ensures { result ≡ distinct (column_names keys.now vals.now) }
{
    match keys {
        [] => are_vals_distinct(vals),
        [first, rest @ ..] => {
            if is_column_name(rest, vals, &first.name) {
                return false;
            }
            are_distinct(rest, vals)
        }
    }
}

impl TableType {
    /// The type with these columns, where they are few enough and no name stands twice.
    #[tactic(auto, unfolding(crate::specs::TableTypes::are_columns))]
    pub fn new(keys: List<KeyCol>, vals: List<ValCol>) -> Option<TableType>
        ensures { result ≡ typed_columns keys vals }
    {
        if keys.len() > MAX_COLS || vals.is_empty() || vals.len() > MAX_COLS {
            return None;
        }
        if are_distinct(keys.as_slice(), vals.as_slice()) {
            Some(TableType { keys, vals })
        } else {
            None
        }
    }
}
