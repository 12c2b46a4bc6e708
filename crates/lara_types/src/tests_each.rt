//! The types of maps, filters, promotes and renames where there is memory, with types and kinds worked out by hand. The table
//! has the key i and the count v.
use crate::tests::{columns, gives, name, refuses};
use crate::tests_made::one;
use crate::{Typed, type_filter, type_map, type_promote, type_rename};
use lara_data::{Def, Expr, KeyCol, KeyDef, Kind, NamePair, ValCol};
use lara_key::KeyType;
use lara_semiring::ValType;
use std::alloc::{AllocError, Global};
use std::test::Fail;

fn def_of(alloc: Global, expr: Expr) -> Result<Def, AllocError> {
    let name = name(alloc, b'v')?;
    let col = ValCol {
        name,
        ty: ValType::Count,
    };
    Ok(Def { col, expr })
}

// Of a map that defines the count v.
fn map_to(alloc: Global, expr: Expr) -> Typed {
    let a = columns(alloc, b"i", b"v")?;
    let defs = one(alloc, def_of(alloc, expr))?;
    type_map(alloc, &a, &defs)
}

// Of a filter by a test.
fn filter_by(alloc: Global, test: Expr) -> Typed {
    let a = columns(alloc, b"i", b"v")?;
    type_filter(alloc, &a, &test)
}

fn key_def_of(alloc: Global, letter: u8) -> Result<KeyDef, AllocError> {
    let name = name(alloc, letter)?;
    let col = KeyCol {
        name,
        ty: KeyType::Nat,
    };
    Ok(KeyDef {
        col,
        expr: Expr::Number(7),
    })
}

// Of a promote to a number of this name.
fn promote_to(alloc: Global, letter: u8) -> Typed {
    let a = columns(alloc, b"i", b"v")?;
    let def = key_def_of(alloc, letter)?;
    type_promote(alloc, &a, &def)
}

fn pair_of(alloc: Global, old: u8, new: u8) -> Result<NamePair, AllocError> {
    let old = name(alloc, old)?;
    let new = name(alloc, new)?;
    Ok(NamePair { old, new })
}

// Of a rename of one column.
fn rename_to(alloc: Global, old: u8, new: u8) -> Typed {
    let a = columns(alloc, b"i", b"v")?;
    let pairs = one(alloc, pair_of(alloc, old, new))?;
    type_rename(alloc, &a, &pairs)
}

#[test]
fn maps_have_the_defined_columns(rt: HostRuntime) -> Result<(), Fail> {
    let alloc = rt.alloc();
    assert!(rt; gives(alloc, map_to(alloc, Expr::Number(7)), "iv")?);
    assert!(rt; refuses(map_to(alloc, Expr::Flag(true)), Kind::TypesDiffer)?);
    Ok(())
}

#[test]
fn filters_keep_the_columns(rt: HostRuntime) -> Result<(), Fail> {
    let alloc = rt.alloc();
    assert!(rt; gives(alloc, filter_by(alloc, Expr::Flag(true)), "iv")?);
    assert!(rt; refuses(filter_by(alloc, Expr::Number(7)), Kind::TypesDiffer)?);
    Ok(())
}

#[test]
fn promotes_have_the_new_key_last(rt: HostRuntime) -> Result<(), Fail> {
    let alloc = rt.alloc();
    assert!(rt; gives(alloc, promote_to(alloc, b'k'), "ikv")?);
    assert!(rt; refuses(promote_to(alloc, b'v'), Kind::NameTwice)?);
    Ok(())
}

#[test]
fn renames_change_names_alone(rt: HostRuntime) -> Result<(), Fail> {
    let alloc = rt.alloc();
    assert!(rt; gives(alloc, rename_to(alloc, b'i', b'k'), "kv")?);
    assert!(rt; refuses(rename_to(alloc, b'x', b'k'), Kind::NoName)?);
    assert!(rt; refuses(rename_to(alloc, b'i', b'v'), Kind::NameTwice)?);
    Ok(())
}
