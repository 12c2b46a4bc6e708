//! The texts of the public calls where there is memory, with bytes worked out by hand.

use crate::{cell_text, table_head};
use lara_base::{Content, List, Name, Text};
use lara_data::{KeyCol, Order, TableType, ValCol};
use lara_key::{KeyType, KeyVal, Tuple};
use lara_semiring::{PathText, Row, ValType, Value};
use std::alloc::{AllocError, Global};
use std::test::Fail;

fn name(alloc: Global, letter: u8) -> Result<Name, AllocError> {
    Name::new(List::from_slice(alloc, &[letter])?).ok_or(AllocError)
}

fn order(alloc: Global, letters: &[u8]) -> Result<Order, AllocError> {
    let mut names = List::new(alloc);
    for letter in letters {
        names.push(name(alloc, *letter)?)?;
    }
    Ok(names)
}

fn key_cols(alloc: Global, cols: &[(u8, KeyType)]) -> Result<List<KeyCol>, AllocError> {
    let mut keys = List::new(alloc);
    for (letter, ty) in cols {
        keys.push(KeyCol {
            name: name(alloc, *letter)?,
            ty: *ty,
        })?;
    }
    Ok(keys)
}

fn val_cols(alloc: Global, cols: &[(u8, ValType)]) -> Result<List<ValCol>, AllocError> {
    let mut vals = List::new(alloc);
    for (letter, ty) in cols {
        vals.push(ValCol {
            name: name(alloc, *letter)?,
            ty: *ty,
        })?;
    }
    Ok(vals)
}

// A type with columns of all types.
fn columns(alloc: Global) -> Result<TableType, AllocError> {
    let keys = [
        (b'i', KeyType::Nat),
        (b'j', KeyType::Text),
        (b'k', KeyType::Flag),
    ];
    let vals = [
        (b'u', ValType::Count),
        (b'v', ValType::MinPlus),
        (b'w', ValType::MaxMin),
        (b'x', ValType::Flag),
        (b'y', ValType::Last),
        (b'z', ValType::Path),
    ];
    TableType::new(key_cols(alloc, &keys)?, val_cols(alloc, &vals)?).ok_or(AllocError)
}

fn content(alloc: Global, bytes: &[u8]) -> Result<Content, AllocError> {
    Content::new(List::from_slice(alloc, bytes)?).ok_or(AllocError)
}

fn tuple(alloc: Global, n: u64, bytes: &[u8], flag: bool) -> Result<Tuple, AllocError> {
    let mut key = List::new(alloc);
    key.push(KeyVal::Nat(n))?;
    key.push(KeyVal::Text(Text::Within(content(alloc, bytes)?)))?;
    key.push(KeyVal::Flag(flag))?;
    Ok(key)
}

// A row with the number in each column of numbers, the flag, and the two texts.
fn row(alloc: Global, n: u64, flag: bool, last: Text, path: PathText) -> Result<Row, AllocError> {
    let mut row = List::new(alloc);
    row.push(Value::Count(n))?;
    row.push(Value::MinPlus(n))?;
    row.push(Value::MaxMin(n))?;
    row.push(Value::Flag(flag))?;
    row.push(Value::Last(last))?;
    row.push(Value::Path(path))?;
    Ok(row)
}

// Whether this is the head of a table C by these key columns.
fn heads(alloc: Global, by: &[u8], want: &[u8]) -> Result<bool, AllocError> {
    let ty = columns(alloc)?;
    let text = table_head(alloc, &name(alloc, b'C')?, &ty, &order(alloc, by)?)?;
    Ok(text.as_slice() == want)
}

// Whether this is the text of the cell.
fn reads(alloc: Global, key: &Tuple, row: &Row, want: &[u8]) -> Result<bool, AllocError> {
    let text = cell_text(alloc, &columns(alloc)?, &order(alloc, b"ijk")?, key, row)?;
    Ok(text.as_slice() == want)
}

// A cell of plain values.
fn reads_values(alloc: Global) -> Result<bool, AllocError> {
    let key = tuple(alloc, 5, b"a b", false)?;
    let last = Text::Within(content(alloc, b"c")?);
    let path = PathText::Within(content(alloc, b"")?);
    let row = row(alloc, 320, true, last, path)?;
    reads(
        alloc,
        &key,
        &row,
        b"5,\"a b\",false:320,320,320,true,\"c\",\"\"",
    )
}

// A cell of the last number, texts that are `over` or none, and a text with each escape.
fn reads_words(alloc: Global) -> Result<bool, AllocError> {
    let key = tuple(alloc, u64::MAX, b"\"\\\x1f\x7f\xff", true)?;
    let row = row(alloc, u64::MAX, false, Text::Over, PathText::Absent)?;
    reads(
        alloc,
        &key,
        &row,
        b"over,\"\\\"\\\\\\x1f\\x7f\xff\",true:over,inf,over,false,over,none",
    )
}

#[test]
fn heads_name_the_columns_in_order(rt: HostRuntime) -> Result<(), Fail> {
    let alloc = rt.alloc();
    assert!(rt;
        heads(
            alloc,
            b"kij",
            b"C[k: flag, i: nat, j: text : u: count, v: minplus, w: maxmin, x: flag, y: last, z: path]"
        )?
    );
    assert!(rt;
        heads(
            alloc,
            b"",
            b"C[: u: count, v: minplus, w: maxmin, x: flag, y: last, z: path]"
        )?
    );
    Ok(())
}

#[test]
fn cells_have_values_of_every_type(rt: HostRuntime) -> Result<(), Fail> {
    let alloc = rt.alloc();
    assert!(rt; reads_values(alloc)?);
    assert!(rt; reads_words(alloc)?);
    Ok(())
}
