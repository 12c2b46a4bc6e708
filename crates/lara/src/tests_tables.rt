//! Tables and their texts where there is memory, with texts worked out by hand. The names in these tests have one letter.
ghost use Rattle.std.specs.Prelude.{◌≡◌, ◌∷◌, [], true, map, IfOk};
ghost use Rattle.lara_base.specs.Texts.{is_text};
ghost use Rattle.lara_key.specs.Keys.{tuple_has, has_key_type};
ghost use Rattle.lara_key.specs.declared.key.KeyType.TheVariants.{Nat};
ghost use Rattle.lara_key.specs.declared.key.KeyVal.TheVariants as key;
ghost use Rattle.lara_semiring.specs.Rows.{row_has};
ghost use Rattle.lara_semiring.specs.declared.value.ValType.TheVariants.{Count};
ghost use Rattle.lara_data.specs.TableTypes.{types, key_types};

use crate::table_text::add_table_text;
use lara_assoc::Assoc;
use lara_base::{Bytes, List, Name, Text};
use lara_data::{Entry, KeyCol, TableType, ValCol};
use lara_key::{KeyType, KeyVal, Tuple};
use lara_semiring::{Row, ValType, Value};
use std::alloc::{AllocError, Global};
use std::test::Fail;

/// The name of one letter. In contracts 66 is B, 105 i, 106 j, 107 k and 118 v.
pub fn name(alloc: Global, letter: u8) -> Result<Name, AllocError>
    ensures { IfOk result (λ n. n ≡ letter ∷ []) }
{
    match Name::new(List::from_slice(alloc, &[letter])?) {
        Some(name) => Ok(name),
        None => Err(AllocError),
    }
}

fn names(alloc: Global, letters: &[u8]) -> Result<List<Name>, AllocError> {
    let mut names = List::new(alloc);
    for letter in letters {
        names.push(name(alloc, *letter)?)?;
    }
    Ok(names)
}

pub fn key_col(alloc: Global, letter: u8) -> Result<KeyCol, AllocError>
    ensures { IfOk result (λ k. k ≡ record { name = letter ∷ []; ty = Nat }) }
{
    Ok(KeyCol {
        name: name(alloc, letter)?,
        ty: KeyType::Nat,
    })
}

fn val_col(alloc: Global) -> Result<ValCol, AllocError>
    ensures { IfOk result (λ v. v ≡ record { name = 118 ∷ []; ty = Count }) }
{
    Ok(ValCol {
        name: name(alloc, b'v')?,
        ty: ValType::Count,
    })
}

/// The value column v.
pub fn val_cols(alloc: Global) -> Result<List<ValCol>, AllocError>
    ensures { IfOk result (λ vals. vals ≡ record { name = 118 ∷ []; ty = Count } ∷ []) }
{
    let mut vals = List::new(alloc);
    vals.push(val_col(alloc)?)?;
    Ok(vals)
}

fn key_cols(alloc: Global, letters: &[u8]) -> Result<List<KeyCol>, AllocError> {
    let mut keys = List::new(alloc);
    for letter in letters {
        keys.push(key_col(alloc, *letter)?)?;
    }
    Ok(keys)
}

// The type with these key columns and the value column v.
fn columns(alloc: Global, letters: &[u8]) -> Result<TableType, AllocError>
    ensures { IfOk result (λ t. types t.vals ≡ Count ∷ []) }
{
    let keys = key_cols(alloc, letters)?;
    match TableType::new(keys, val_cols(alloc)?) {
        Some(ty) => Ok(ty),
        None => Err(AllocError),
    }
}

/// The row of one count.
#[tactic(auto, unfolding(lara_semiring::specs::Rows::row_has, lara_semiring::specs::Values::has_type))]
pub fn row(alloc: Global, value: u64) -> Result<Row, AllocError>
    ensures { IfOk result (λ r. row_has (Count ∷ []) r ≡ true) }
{
    let mut row = List::new(alloc);
    row.push(Value::Count(value))?;
    Ok(row)
}

/// The key of these numbers.
pub fn key(alloc: Global, numbers: &[u64]) -> Result<Tuple, AllocError>
    ensures { IfOk result (λ k. k ≡ map key.Nat numbers.now) }
{
    let mut key = List::new(alloc);
    for n in numbers {
        key.push(KeyVal::Nat(*n))?;
    }
    Ok(key)
}

// Each text is one of at most 1,024 bytes, or stands for all that are longer.
fn is_a_text(text: &Text) -> bool
    ensures { result ≡ is_text text.now }
{
    text.known();
    true
}

// Whether a column of a key is of this type.
#[tactic(auto, unfolding(lara_key::specs::Keys::has_key_type))]
fn is_of_type(ty: KeyType, value: &KeyVal) -> bool
    ensures { result ≡ has_key_type ty value.now }
{
    match (ty, value) {
        (KeyType::Nat, KeyVal::Nat(n)) => *n <= u64::MAX,
        (KeyType::Text, KeyVal::Text(text)) => is_a_text(text),
        (KeyType::Flag, KeyVal::Flag(_)) => true,
        _ => false,
    }
}

// Whether a key has a value of its type for each of these columns.
#[tactic(auto, unfolding(lara_key::specs::Keys::tuple_has))]
fn has_each(keys: &[KeyCol], key: &[KeyVal]) -> bool
    ensures { result ≡ tuple_has (key_types keys.now) key.now }
{
    match keys {
        [] => match key {
            [] => true,
            [_first, _rest @ ..] => false,
        },
        [column, other_keys @ ..] => match key {
            [] => false,
            [value, others @ ..] => is_of_type(column.ty, value) && has_each(other_keys, others),
        },
    }
}

fn is_key_of(ty: &TableType, key: &Tuple) -> bool
    ensures { result ≡ tuple_has (key_types ty.now.keys) key.now }
{
    has_each(ty.keys.as_slice(), key.as_slice())
}

// The key of these numbers, which are to be as many as the key columns.
fn key_of(alloc: Global, ty: &TableType, numbers: &[u64]) -> Result<Tuple, AllocError>
    ensures { IfOk result (λ k. tuple_has (key_types ty.now.keys) k ≡ true) }
{
    let key = key(alloc, numbers)?;
    if is_key_of(ty, &key) {
        Ok(key)
    } else {
        Err(AllocError)
    }
}

type Cells<'a> = &'a [(&'a [u64], u64)];

#[tactic(auto, using(lara_assoc::specs::EntryLists::entry_steps))]
fn table(alloc: Global, letters: &[u8], cells: Cells<'_>) -> Result<Assoc, AllocError> {
    let ty = columns(alloc, letters)?;
    let mut entries = List::new(alloc);
    for (numbers, value) in cells {
        entries.push(Entry {
            key: key_of(alloc, &ty, numbers)?,
            row: row(alloc, *value)?,
        })?;
    }
    Assoc::total(alloc, &ty, &entries)
}

/// The text of the table under a name, with its key columns in this order.
pub fn text_of(
    alloc: Global,
    table: &Assoc,
    letter: u8,
    order: &[u8],
) -> Result<Bytes, AllocError> {
    let mut text = List::new(alloc);
    let name = name(alloc, letter)?;
    add_table_text(alloc, &mut text, &name, &names(alloc, order)?, table)?;
    Ok(text)
}

// Whether this is the text, under that name, of the table of these cells over these columns.
fn reads(
    alloc: Global,
    letter: u8,
    letters: &[u8],
    cells: Cells<'_>,
    order: &[u8],
    want: &[u8],
) -> Result<bool, AllocError> {
    let table = table(alloc, letters, cells)?;
    let text = text_of(alloc, &table, letter, order)?;
    Ok(text.as_slice() == want)
}

// Whether that table is in range.
fn is_in_range(alloc: Global, letters: &[u8], cells: Cells<'_>) -> Result<bool, AllocError> {
    let table = table(alloc, letters, cells)?;
    Ok(table.is_in_range())
}

// How many key columns that table has.
fn width(alloc: Global, letters: &[u8], cells: Cells<'_>) -> Result<usize, AllocError> {
    let table = table(alloc, letters, cells)?;
    Ok(table.ty().keys.len())
}

// How many entries that table has.
fn height(alloc: Global, letters: &[u8], cells: Cells<'_>) -> Result<usize, AllocError> {
    let table = table(alloc, letters, cells)?;
    Ok(table.entries(alloc)?.len())
}

#[test]
fn rows_of_one_key_are_summed(rt: HostRuntime) -> Result<(), Fail> {
    let alloc = rt.alloc();
    let cells: [(&[u64], u64); 2] = [(&[1], 3), (&[1], 4)];
    assert!(rt;
        reads(
            alloc,
            b'T',
            b"i",
            &cells,
            b"i",
            b"T[i: nat : v: count]\n1:7\nend 1\n"
        )?
    );
    assert_eq!(rt; height(alloc, b"i", &cells)?, 1);
    assert_eq!(rt; width(alloc, b"i", &cells)?, 1);
    assert!(rt; is_in_range(alloc, b"i", &cells)?);
    Ok(())
}

#[test]
fn default_rows_are_left_out(rt: HostRuntime) -> Result<(), Fail> {
    let cells: [(&[u64], u64); 1] = [(&[1], 0)];
    assert!(rt;
        reads(
            rt.alloc(),
            b'T',
            b"i",
            &cells,
            b"i",
            b"T[i: nat : v: count]\nend 0\n"
        )?
    );
    Ok(())
}

#[test]
fn a_table_without_keys_has_one_cell(rt: HostRuntime) -> Result<(), Fail> {
    let cells: [(&[u64], u64); 2] = [(&[], 3), (&[], 4)];
    assert!(rt;
        reads(
            rt.alloc(),
            b'S',
            b"",
            &cells,
            b"",
            b"S[: v: count]\n:7\nend 1\n"
        )?
    );
    Ok(())
}

#[test]
fn the_order_of_the_columns_is_the_order_of_the_lines(rt: HostRuntime) -> Result<(), Fail> {
    let alloc = rt.alloc();
    let cells: [(&[u64], u64); 3] = [(&[1, 6], 2), (&[2, 5], 10), (&[1, 5], 320)];
    let declared = b"C[i: nat, j: nat : v: count]\n1,5:320\n1,6:2\n2,5:10\nend 3\n";
    assert!(rt; reads(alloc, b'C', b"ij", &cells, b"ij", declared)?);
    let turned = b"C[j: nat, i: nat : v: count]\n5,1:320\n5,2:10\n6,1:2\nend 3\n";
    assert!(rt; reads(alloc, b'C', b"ij", &cells, b"ji", turned)?);
    Ok(())
}

const MOST: u64 = u64::MAX - 1;

#[test]
fn a_sum_past_the_range_is_over(rt: HostRuntime) -> Result<(), Fail> {
    let alloc = rt.alloc();
    let past: [(&[u64], u64); 2] = [(&[1], MOST), (&[1], 1)];
    assert!(rt; !is_in_range(alloc, b"i", &past)?);
    assert!(rt;
        reads(
            alloc,
            b'T',
            b"i",
            &past,
            b"i",
            b"T[i: nat : v: count]\n1:over\nend 1\n"
        )?
    );
    Ok(())
}

#[test]
fn a_key_past_the_range_is_over(rt: HostRuntime) -> Result<(), Fail> {
    let alloc = rt.alloc();
    let full: [(&[u64], u64); 1] = [(&[MOST], MOST)];
    assert!(rt; is_in_range(alloc, b"i", &full)?);
    let far: [(&[u64], u64); 1] = [(&[u64::MAX], 1)];
    assert!(rt; !is_in_range(alloc, b"i", &far)?);
    assert!(rt;
        reads(
            alloc,
            b'T',
            b"i",
            &far,
            b"i",
            b"T[i: nat : v: count]\nover:1\nend 1\n"
        )?
    );
    Ok(())
}
