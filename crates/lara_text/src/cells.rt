//! The cells of a table as text, and its end.
ghost use Rattle.std.specs.Prelude.{◌≡◌, ◌++◌, codes, decimal, OnOk, IfOk};
ghost use Rattle.std.specs.List.{flat_map, join_by};
ghost use Rattle.lara_text.specs.TableTexts.{number_text, distance_text, flag_text, short_text, path_text, key_text, value_text, cell_text, entry_line, end_text, line};
ghost use Rattle.lara_text.specs.Told.{CellTold};

use crate::quotes::add_quoted;
use itoa::Buffer;
use lara_base::{Bytes, List, Text};
use lara_data::{Order, TableType};
use lara_key::{KeyVal, Tuple};
use lara_semiring::{PathText, Row, Value};
use std::alloc::{AllocError, Global};

// Adds a number in decimal.
fn add_decimal(text: &mut Bytes, n: u64) -> Result<(), AllocError>
    ensures { OnOk result (text.new ≡ text.old ++ decimal n) }
{
    let mut buffer = Buffer::new();
    text.extend_from_slice(buffer.format(n).as_bytes())
}

// Adds a number, or `over`.
#[tactic(auto, unfolding(crate::specs::TableTexts::number_text))]
fn add_number(text: &mut Bytes, n: u64) -> Result<(), AllocError>
    ensures { OnOk result (text.new ≡ text.old ++ number_text n) }
{
    if n == u64::MAX {
        text.extend_from_slice(b"over")
    } else {
        add_decimal(text, n)
    }
}

// Adds a distance, `over` or `inf`.
#[tactic(auto, unfolding(crate::specs::TableTexts::distance_text))]
fn add_distance(text: &mut Bytes, n: u64) -> Result<(), AllocError>
    ensures { OnOk result (text.new ≡ text.old ++ distance_text n) }
{
    if n == u64::MAX {
        text.extend_from_slice(b"inf")
    } else if n == u64::MAX - 1 {
        text.extend_from_slice(b"over")
    } else {
        add_decimal(text, n)
    }
}

#[tactic(auto, unfolding(crate::specs::TableTexts::flag_text))]
fn add_flag(text: &mut Bytes, flag: bool) -> Result<(), AllocError>
    ensures { OnOk result (text.new ≡ text.old ++ flag_text flag) }
{
    if flag {
        text.extend_from_slice(b"true")
    } else {
        text.extend_from_slice(b"false")
    }
}

// Adds a text in quotes, or `over`.
#[tactic(auto, unfolding(crate::specs::TableTexts::short_text))]
fn add_short(text: &mut Bytes, short: &Text) -> Result<(), AllocError>
    ensures { OnOk result (text.new ≡ text.old ++ short_text short.now) }
{
    match short {
        Text::Within(content) => add_quoted(text, content.bytes().as_slice()),
        Text::Over => text.extend_from_slice(b"over"),
    }
}

// Adds a path in quotes, `over` or `none`.
#[tactic(auto, unfolding(crate::specs::TableTexts::path_text))]
fn add_path(text: &mut Bytes, path: &PathText) -> Result<(), AllocError>
    ensures { OnOk result (text.new ≡ text.old ++ path_text path.now) }
{
    match path {
        PathText::Within(content) => add_quoted(text, content.bytes().as_slice()),
        PathText::Over => text.extend_from_slice(b"over"),
        PathText::Absent => text.extend_from_slice(b"none"),
    }
}

#[tactic(auto, unfolding(crate::specs::TableTexts::key_text))]
fn add_key_val(text: &mut Bytes, column: &KeyVal) -> Result<(), AllocError>
    ensures { OnOk result (text.new ≡ text.old ++ key_text column.now) }
{
    match column {
        KeyVal::Nat(n) => add_number(text, *n),
        KeyVal::Text(short) => add_short(text, short),
        KeyVal::Flag(flag) => add_flag(text, *flag),
    }
}

#[tactic(auto, unfolding(crate::specs::TableTexts::value_text))]
fn add_value(text: &mut Bytes, value: &Value) -> Result<(), AllocError>
    ensures { OnOk result (text.new ≡ text.old ++ value_text value.now) }
{
    match value {
        Value::Count(n) => add_number(text, *n),
        Value::MinPlus(n) => add_distance(text, *n),
        Value::MaxMin(n) => add_number(text, *n),
        Value::Flag(flag) => add_flag(text, *flag),
        Value::Last(short) => add_short(text, short),
        Value::Path(path) => add_path(text, path),
    }
}

// Adds a key, its columns with commas between.
#[tactic(auto, using(crate::proofs::TextFacts::joined_facts))]
fn add_key(text: &mut Bytes, key: &Tuple) -> Result<(), AllocError>
    ensures { OnOk result (text.new ≡ text.old ++ join_by key_text (codes ",") key.now) }
{
    match key.as_slice() {
        [] => Ok(()),
        [first, others @ ..] => {
            add_key_val(text, first)?;
            for column in others {
                text.extend_from_slice(b",")?;
                add_key_val(text, column)?;
            }
            Ok(())
        }
    }
}

// Adds a row, its values with commas between.
#[tactic(auto, using(crate::proofs::TextFacts::joined_facts))]
fn add_row(text: &mut Bytes, row: &Row) -> Result<(), AllocError>
    ensures { OnOk result (text.new ≡ text.old ++ join_by value_text (codes ",") row.now) }
{
    match row.as_slice() {
        [] => Ok(()),
        [first, others @ ..] => {
            add_value(text, first)?;
            for value in others {
                text.extend_from_slice(b",")?;
                add_value(text, value)?;
            }
            Ok(())
        }
    }
}

/// Adds a cell: the columns of the key as they stand in it, and each value by its own kind.
#[tactic(auto, unfolding(crate::specs::TableTexts::cell_text))]
pub fn add_cell(text: &mut Bytes, key: &Tuple, row: &Row) -> Result<(), AllocError>
    ensures { OnOk result (text.new ≡ text.old ++ cell_text key.now row.now) }
{
    add_key(text, key)?;
    text.extend_from_slice(b":")?;
    add_row(text, row)
}

/// Adds the line of a cell.
#[tactic(auto, unfolding(crate::specs::TableTexts::entry_line))]
pub fn add_cell_line(text: &mut Bytes, key: &Tuple, row: &Row) -> Result<(), AllocError>
    ensures { OnOk result (text.new ≡ text.old ++ entry_line (record { key = key.now; row = row.now })) }
{
    add_cell(text, key, row)?;
    text.extend_from_slice(b"\n")
}

/// Adds the last line, with the number of cells.
#[tactic(auto, unfolding(crate::specs::TableTexts::end_text))]
pub fn add_end_line(text: &mut Bytes, cells: usize) -> Result<(), AllocError>
    ensures { OnOk result (text.new ≡ text.old ++ line (end_text cells)) }
{
    text.extend_from_slice(b"end ")?;
    add_decimal(text, cells as u64)?;
    text.extend_from_slice(b"\n")
}

/// The text of a cell of a table of the type. The key has its columns in the sequence of the order, which has each key
/// column of the type once, and is printed as it stands; so the type and the order say whose columns the text tells.
#[tactic(auto, using(crate::specs::Told::cell_told))]
pub fn cell_text(
    alloc: Global,
    tys: &TableType,
    order: &Order,
    key: &Tuple,
    row: &Row,
) -> Result<Bytes, AllocError>
    ensures text { IfOk result (λ text. text ≡ cell_text key.now row.now) }
    ensures only { IfOk result (λ text. CellTold tys.now order.now key.now row.now text) }
{
    let mut text = List::new(alloc);
    add_cell(&mut text, key, row)?;
    Ok(text)
}
