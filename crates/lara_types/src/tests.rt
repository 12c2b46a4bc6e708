//! The rules where there is memory, with types and kinds worked out by hand.
ghost use Rattle.std.specs.Prelude.{◌≡◌, ◌∷◌, [], IfOk};

use crate::tests_made::both;
use crate::{Typed, type_agg, type_join, type_union};
use lara_base::{List, Name};
use lara_data::{KeyCol, Kind, TableType, ValCol};
use lara_key::KeyType;
use lara_semiring::ValType;
use std::alloc::{AllocError, Global};
use std::test::Fail;

pub fn name(alloc: Global, letter: u8) -> Result<Name, AllocError>
    ensures { IfOk result (λ name. name ≡ letter ∷ []) }
{
    Name::new(List::from_slice(alloc, &[letter])?).ok_or(AllocError)
}

fn names(alloc: Global, letters: &[u8]) -> Result<List<Name>, AllocError> {
    let mut names = List::new(alloc);
    for letter in letters {
        names.push(name(alloc, *letter)?)?;
    }
    Ok(names)
}

fn key_cols(alloc: Global, letters: &[u8]) -> Result<List<KeyCol>, AllocError> {
    let mut keys = List::new(alloc);
    for letter in letters {
        keys.push(KeyCol {
            name: name(alloc, *letter)?,
            ty: KeyType::Nat,
        })?;
    }
    Ok(keys)
}

fn val_cols(alloc: Global, letters: &[u8]) -> Result<List<ValCol>, AllocError> {
    let mut vals = List::new(alloc);
    for letter in letters {
        vals.push(ValCol {
            name: name(alloc, *letter)?,
            ty: ValType::Count,
        })?;
    }
    Ok(vals)
}

// The type with these key columns and value columns, each a letter.
pub fn columns(alloc: Global, key_names: &[u8], val_names: &[u8]) -> Result<TableType, AllocError> {
    let (keys, vals) = both(key_cols(alloc, key_names), val_cols(alloc, val_names))?;
    TableType::new(keys, vals).ok_or(AllocError)
}

// A type by its key columns and its value columns.
fn type_of(alloc: Global, letters: [&[u8]; 2]) -> Result<TableType, AllocError> {
    columns(alloc, letters[0], letters[1])
}

// The type of a join; each side is its key columns and its value columns.
fn join_of(alloc: Global, a: [&[u8]; 2], b: [&[u8]; 2]) -> Typed {
    let (a, b) = both(type_of(alloc, a), type_of(alloc, b))?;
    type_join(alloc, &a, &b)
}

fn union_of(alloc: Global, a: [&[u8]; 2], b: [&[u8]; 2]) -> Typed {
    let (a, b) = both(type_of(alloc, a), type_of(alloc, b))?;
    type_union(alloc, &a, &b)
}

fn agg_of(alloc: Global, a: [&[u8]; 2], keys: &[u8]) -> Typed {
    let (a, keys) = both(type_of(alloc, a), names(alloc, keys))?;
    type_agg(alloc, &a, &keys)
}

// The names of the columns, keys first.
fn letters_of(alloc: Global, ty: &TableType) -> Result<String, AllocError> {
    let mut letters = String::new(alloc);
    for key in ty.keys.as_slice() {
        push_name(&mut letters, &key.name)?;
    }
    for val in ty.vals.as_slice() {
        push_name(&mut letters, &val.name)?;
    }
    Ok(letters)
}

fn push_name(letters: &mut String, name: &Name) -> Result<(), AllocError> {
    for byte in name.bytes().as_slice() {
        letters.push(char::from(*byte))?;
    }
    Ok(())
}

// Whether the rules give a type with columns of these names.
pub fn gives(alloc: Global, typed: Typed, letters: &str) -> Result<bool, AllocError> {
    match typed? {
        Ok(ty) => Ok(letters_of(alloc, &ty)?.as_str() == letters),
        Err(_) => Ok(false),
    }
}

pub fn refuses(typed: Typed, kind: Kind) -> Result<bool, AllocError> {
    match typed? {
        Ok(_) => Ok(false),
        Err(refused) => Ok(refused == kind),
    }
}

#[test]
fn joins_have_left_keys_then_right_ones_and_common_values(rt: HostRuntime) -> Result<(), Fail> {
    let alloc = rt.alloc();
    let typed = join_of(alloc, [b"ik", b"xv"], [b"kj", b"vw"]);
    assert!(rt; gives(alloc, typed, "ikjv")?);
    Ok(())
}

#[test]
fn joins_are_refused_by_the_first_broken_rule(rt: HostRuntime) -> Result<(), Fail> {
    let alloc = rt.alloc();
    assert!(rt;
        refuses(
            join_of(alloc, [b"ik", b"xv"], [b"k", b"w"]),
            Kind::NoCommonValue
        )?
    );
    assert!(rt;
        refuses(
            join_of(alloc, [b"ik", b"xv"], [b"v", b"x"]),
            Kind::TypesDiffer
        )?
    );
    assert!(rt;
        refuses(
            join_of(alloc, [b"ik", b"v"], [b"abcdefgh", b"v"]),
            Kind::TooManyColumns
        )?
    );
    Ok(())
}

#[test]
fn unions_have_common_keys_and_all_values(rt: HostRuntime) -> Result<(), Fail> {
    let alloc = rt.alloc();
    let typed = union_of(alloc, [b"ik", b"xv"], [b"kj", b"vw"]);
    assert!(rt; gives(alloc, typed, "kxvw")?);
    assert!(rt;
        refuses(
            union_of(alloc, [b"ik", b"x"], [b"i", b"abcdefgh"]),
            Kind::TooManyColumns
        )?
    );
    Ok(())
}

#[test]
fn aggs_have_the_named_keys(rt: HostRuntime) -> Result<(), Fail> {
    let alloc = rt.alloc();
    assert!(rt; gives(alloc, agg_of(alloc, [b"ik", b"xv"], b"ki"), "kixv")?);
    assert!(rt; refuses(agg_of(alloc, [b"ik", b"xv"], b"ixi"), Kind::NotAKey)?);
    assert!(rt; refuses(agg_of(alloc, [b"ik", b"xv"], b"ii"), Kind::NameTwice)?);
    Ok(())
}
