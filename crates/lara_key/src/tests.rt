//! Keys by hand, in their order.
use crate::{KeyType, KeyVal, Tuple, compare, is_key_over, same_key_type};
use lara_base::{Content, Copied, List, Text};
use std::alloc::{AllocError, Global};
use std::cmp::Ordering;
use std::collections::BTreeMap;
use std::test::Fail;

// A column as a test writes it: a text of more than 1,024 bytes is `over`.
#[derive(Clone, Copy)]
enum Col<'a> {
    Nat(u64),
    Text(&'a [u8]),
    Flag(bool),
}

fn text(alloc: Global, bytes: &[u8]) -> Result<Text, AllocError> {
    match Content::new(List::from_slice(alloc, bytes)?) {
        Some(content) => Ok(Text::Within(content)),
        None => Ok(Text::Over),
    }
}

fn column(alloc: Global, col: Col) -> Result<KeyVal, AllocError> {
    match col {
        Col::Nat(n) => Ok(KeyVal::Nat(n)),
        Col::Text(bytes) => Ok(KeyVal::Text(text(alloc, bytes)?)),
        Col::Flag(b) => Ok(KeyVal::Flag(b)),
    }
}

fn tuple(alloc: Global, cols: &[Col]) -> Result<Tuple, AllocError> {
    let mut key = List::new(alloc);
    for col in cols {
        key.push(column(alloc, *col)?)?;
    }
    Ok(key)
}

fn copy_of<T: Copied>(alloc: Global, value: &T) -> Result<T, AllocError> {
    value.copy(alloc)
}

// How the keys of these columns compare.
fn order_of(alloc: Global, a: &[Col], b: &[Col]) -> Result<Ordering, AllocError> {
    let a = tuple(alloc, a)?;
    let b = tuple(alloc, b)?;
    Ok(compare(&a, &b))
}

// Whether the key of the first columns and a copy of the key of the second are equal.
fn are_equal(alloc: Global, a: &[Col], b: &[Col]) -> Result<bool, AllocError> {
    let a = tuple(alloc, a)?;
    let b = copy_of(alloc, &tuple(alloc, b)?)?;
    Ok(a == b)
}

const OVER: [u8; 1025] = [0; 1025];

#[test]
fn keys_compare_column_by_column(rt: HostRuntime) -> Result<(), Fail> {
    let alloc = rt.alloc();
    let rising: [&[Col]; 18] = [
        &[],
        &[Col::Nat(0)],
        &[Col::Nat(0), Col::Nat(7)],
        &[Col::Nat(1), Col::Nat(10)],
        &[Col::Nat(1), Col::Nat(u64::MAX)],
        &[Col::Nat(1), Col::Text(b"")],
        &[Col::Nat(256), Col::Nat(0)],
        &[Col::Text(b"")],
        &[Col::Text(b"a")],
        &[Col::Text(b"a"), Col::Nat(9)],
        &[Col::Text(b"a\0")],
        &[Col::Text(b"aa")],
        &[Col::Text(b"b"), Col::Nat(1)],
        &[Col::Text(b"\xff")],
        &[Col::Text(&OVER)],
        &[Col::Flag(false)],
        &[Col::Flag(false), Col::Text(b"a")],
        &[Col::Flag(true)],
    ];
    for i in 0..18 {
        for j in 0..18 {
            let order = order_of(alloc, rising[i], rising[j])?;
            assert_eq!(rt; order, i.cmp(&j), "at {i} and {j}");
            let equal = are_equal(alloc, rising[i], rising[j])?;
            assert_eq!(rt; equal, i == j, "at {i} and {j}");
        }
    }
    Ok(())
}

// A map from the keys of these columns to where they stand in it.
fn map_of(alloc: Global, places: &[(&[Col], usize)]) -> Result<BTreeMap<Tuple, usize>, AllocError> {
    let mut map = BTreeMap::new(alloc);
    for (cols, place) in places {
        map.insert(tuple(alloc, cols)?, *place)?;
    }
    Ok(map)
}

// Whether the map goes over its keys by their places.
fn is_in_order(map: &BTreeMap<Tuple, usize>) -> bool {
    for (i, (_, place)) in map.iter().enumerate() {
        if *place != i {
            return false;
        }
    }
    true
}

#[test]
fn maps_take_keys_in_their_order(rt: HostRuntime) -> Result<(), Fail> {
    let alloc = rt.alloc();
    let map = map_of(
        alloc,
        &[
            (&[Col::Text(b"b"), Col::Nat(0)], 2),
            (&[Col::Text(b"ab")], 0),
            (&[Col::Text(b"b")], 1),
        ],
    )?;
    assert!(rt; is_in_order(&map));
    assert_eq!(rt; map.len(), 3);
    Ok(())
}

fn partial_order(alloc: Global) -> Result<Option<Ordering>, AllocError> {
    let a = tuple(alloc, &[Col::Nat(4)])?;
    let b = tuple(alloc, &[Col::Text(b"")])?;
    Ok(a.partial_cmp(&b))
}

// Whether a copy of the column is equal to it.
fn is_copied(alloc: Global, col: Col) -> Result<bool, AllocError> {
    let value = column(alloc, col)?;
    Ok(copy_of(alloc, &value)? == value)
}

#[test]
fn columns_are_copied_and_compared(rt: HostRuntime) -> Result<(), Fail> {
    let alloc = rt.alloc();
    assert_eq!(rt; copy_of(alloc, &KeyType::Text)?, KeyType::Text);
    assert!(rt; same_key_type(KeyType::Flag, KeyType::Flag));
    for col in [
        Col::Nat(4),
        Col::Text(b"a\0"),
        Col::Text(&OVER),
        Col::Flag(true),
    ] {
        assert!(rt; is_copied(alloc, col)?);
    }
    assert_eq!(rt; partial_order(alloc)?, Some(Ordering::Less));
    Ok(())
}

// Whether a column of the key is over; a proof is told on the way that each is one of its type.
fn is_over(alloc: Global, cols: &[Col]) -> Result<bool, AllocError> {
    let key = tuple(alloc, cols)?;
    for value in key.as_slice() {
        value.known();
    }
    Ok(is_key_over(&key))
}

#[test]
fn a_key_is_over_where_a_column_is(rt: HostRuntime) -> Result<(), Fail> {
    let alloc = rt.alloc();
    for (cols, want) in [
        ([Col::Nat(3), Col::Nat(u64::MAX)], true),
        ([Col::Text(&OVER), Col::Flag(true)], true),
        ([Col::Text(b"\xff"), Col::Nat(u64::MAX - 1)], false),
        ([Col::Flag(true), Col::Text(b"")], false),
    ] {
        assert_eq!(rt; is_over(alloc, &cols)?, want);
    }
    assert!(rt; !is_over(alloc, &[])?);
    Ok(())
}
