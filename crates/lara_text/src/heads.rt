//! The head of a table as text.
ghost use Rattle.std.specs.Prelude.{◌≡◌, ◌++◌, OnOk, IfOk};
ghost use Rattle.lara_data.specs.Algebra.{key_cols};
ghost use Rattle.lara_text.specs.TableTexts.{head_text, line};
ghost use Rattle.lara_text.specs.Told.{HeadTold};

use crate::columns::{add_key_columns, add_val_columns};
use lara_base::{Bytes, List, Name};
use lara_data::{Order, TableType, key_cols};
use std::alloc::{AllocError, Global};

/// Adds the head: the name, and the columns with their types, the key columns in the order.
#[tactic(auto, unfolding(crate::specs::TableTexts::head_text))]
pub fn add_head(
    alloc: Global,
    text: &mut Bytes,
    name: &Name,
    ty: &TableType,
    order: &Order,
) -> Result<(), AllocError>
    ensures { OnOk result (text.new ≡ text.old ++ head_text name.now ty.now order.now) }
{
    let keys = key_cols(alloc, &ty.keys, order)?;
    text.extend_from_slice(name.bytes().as_slice())?;
    text.extend_from_slice(b"[")?;
    add_key_columns(text, &keys)?;
    text.extend_from_slice(b": ")?;
    add_val_columns(text, &ty.vals)?;
    text.extend_from_slice(b"]")
}

/// Adds the first line.
pub fn add_head_line(
    alloc: Global,
    text: &mut Bytes,
    name: &Name,
    ty: &TableType,
    order: &Order,
) -> Result<(), AllocError>
    ensures { OnOk result (text.new ≡ text.old ++ line (head_text name.now ty.now order.now)) }
{
    add_head(alloc, text, name, ty, order)?;
    text.extend_from_slice(b"\n")
}

/// The head of a table of the type, with its key columns in the order, which has each of them once. It tells the name, those
/// columns and the value columns.
pub fn table_head(
    alloc: Global,
    name: &Name,
    ty: &TableType,
    order: &Order,
) -> Result<Bytes, AllocError>
    ensures text { IfOk result (λ text. text ≡ head_text name.now ty.now order.now) }
    ensures only { IfOk result (λ text. HeadTold name.now ty.now order.now text) }
{
    let mut text = List::new(alloc);
    add_head(alloc, &mut text, name, ty, order)?;
    Ok(text)
}
