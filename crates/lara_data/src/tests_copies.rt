//! Copies of operators, expressions, arguments and shapes, each by the bound alone. Trees and scripts are copied in the tests
//! of `lara_types`, which makes some.

use crate::tests_samples::{copy_of, is_letter, key_col, key_cols, name, val_col};
use crate::{
    Arg, Call, ColPair, Def, EachOp, Expr, FunOp, JoinShape, KeyDef, NamePair, Shape, TwoOp,
};
use lara_base::{Boxed, Content, List};
use lara_key::{KeyType, KeyVal};
use std::alloc::{AllocError, Global};
use std::test::Fail;

fn number(alloc: Global, n: u64) -> Result<Boxed<Expr>, AllocError> {
    Ok(Boxed::new(alloc, Expr::Number(n))?)
}

fn is_number(e: &Expr, n: u64) -> bool {
    match e {
        Expr::Number(m) => *m == n,
        _ => false,
    }
}

fn copies_column(alloc: Global) -> Result<bool, AllocError> {
    let copy = copy_of(alloc, &Expr::Column(name(alloc, b'c')?))?;
    match &copy {
        Expr::Column(column) => Ok(is_letter(column, b'c')),
        _ => Ok(false),
    }
}

fn copies_number(alloc: Global) -> Result<bool, AllocError> {
    Ok(is_number(&copy_of(alloc, &Expr::Number(4))?, 4))
}

fn copies_text(alloc: Global) -> Result<bool, AllocError> {
    let text = Content::new(List::from_slice(alloc, b"t")?).ok_or(AllocError)?;
    let copy = copy_of(alloc, &Expr::Text(text))?;
    match &copy {
        Expr::Text(content) => Ok(content.bytes().get(0) == Some(&b't')),
        _ => Ok(false),
    }
}

fn copies_flag(alloc: Global) -> Result<bool, AllocError> {
    let copy = copy_of(alloc, &Expr::Flag(true))?;
    match &copy {
        Expr::Flag(flag) => Ok(*flag),
        _ => Ok(false),
    }
}

fn copies_inf(alloc: Global) -> Result<bool, AllocError> {
    let copy = copy_of(alloc, &Expr::Inf)?;
    match &copy {
        Expr::Inf => Ok(true),
        _ => Ok(false),
    }
}

fn copies_none(alloc: Global) -> Result<bool, AllocError> {
    let copy = copy_of(alloc, &Expr::None)?;
    match &copy {
        Expr::None => Ok(true),
        _ => Ok(false),
    }
}

fn copies_two(alloc: Global) -> Result<bool, AllocError> {
    let product = Expr::Two(TwoOp::Mul, number(alloc, 2)?, number(alloc, 3)?);
    let copy = copy_of(alloc, &product)?;
    match &copy {
        Expr::Two(op, a, b) => {
            Ok(*op == TwoOp::Mul && is_number(a.get(), 2) && is_number(b.get(), 3))
        }
        _ => Ok(false),
    }
}

fn copies_not(alloc: Global) -> Result<bool, AllocError> {
    let copy = copy_of(alloc, &Expr::Not(number(alloc, 2)?))?;
    match &copy {
        Expr::Not(a) => Ok(is_number(a.get(), 2)),
        _ => Ok(false),
    }
}

fn copies_if(alloc: Global) -> Result<bool, AllocError> {
    let choice = Expr::If(number(alloc, 2)?, number(alloc, 3)?, number(alloc, 4)?);
    let copy = copy_of(alloc, &choice)?;
    match &copy {
        Expr::If(test, a, b) => {
            Ok(is_number(test.get(), 2) && is_number(a.get(), 3) && is_number(b.get(), 4))
        }
        _ => Ok(false),
    }
}

fn copies_fun(alloc: Global) -> Result<bool, AllocError> {
    let copy = copy_of(alloc, &Expr::Fun(FunOp::Len, number(alloc, 2)?))?;
    match &copy {
        Expr::Fun(op, a) => Ok(*op == FunOp::Len && is_number(a.get(), 2)),
        _ => Ok(false),
    }
}

#[test]
fn expressions_are_copied(rt: HostRuntime) -> Result<(), Fail> {
    let alloc = rt.alloc();
    assert!(rt; copies_column(alloc)?);
    assert!(rt; copies_number(alloc)?);
    assert!(rt; copies_text(alloc)?);
    assert!(rt; copies_flag(alloc)?);
    assert!(rt; copies_inf(alloc)?);
    assert!(rt; copies_none(alloc)?);
    assert!(rt; copies_two(alloc)?);
    assert!(rt; copies_not(alloc)?);
    assert!(rt; copies_if(alloc)?);
    assert!(rt; copies_fun(alloc)?);
    Ok(())
}

fn copies_column_arg(alloc: Global) -> Result<bool, AllocError> {
    match copy_of(alloc, &Arg::Column(name(alloc, b'a')?))? {
        Arg::Column(column) => Ok(is_letter(&column, b'a')),
        Arg::Literal(_) => Ok(false),
    }
}

fn copies_literal_arg(alloc: Global) -> Result<bool, AllocError> {
    match copy_of(alloc, &Arg::Literal(KeyVal::Nat(5)))? {
        Arg::Literal(value) => Ok(value == KeyVal::Nat(5)),
        Arg::Column(_) => Ok(false),
    }
}

// A call with one argument and one column.
fn call(alloc: Global) -> Result<Call, AllocError> {
    let mut args = List::new(alloc);
    args.push(Arg::Literal(KeyVal::Nat(5)))?;
    Ok(Call {
        plugin: name(alloc, b'p')?,
        args,
        cols: key_cols(alloc, b"k")?,
    })
}

fn is_call(call: &Call) -> bool {
    is_letter(&call.plugin, b'p') && call.args.len() == 1 && call.cols.len() == 1
}

fn copies_call(alloc: Global) -> Result<bool, AllocError> {
    Ok(is_call(&copy_of(alloc, &call(alloc)?)?))
}

fn def(alloc: Global) -> Result<Def, AllocError> {
    Ok(Def {
        col: val_col(alloc, b'w')?,
        expr: Expr::Number(6),
    })
}

fn is_def(def: &Def) -> bool {
    is_letter(&def.col.name, b'w') && is_number(&def.expr, 6)
}

fn copies_def(alloc: Global) -> Result<bool, AllocError> {
    Ok(is_def(&copy_of(alloc, &def(alloc)?)?))
}

fn key_def(alloc: Global) -> Result<KeyDef, AllocError> {
    Ok(KeyDef {
        col: key_col(alloc, b'k')?,
        expr: Expr::Number(8),
    })
}

fn is_key_def(def: &KeyDef) -> bool {
    is_letter(&def.col.name, b'k') && is_number(&def.expr, 8)
}

fn copies_key_def(alloc: Global) -> Result<bool, AllocError> {
    Ok(is_key_def(&copy_of(alloc, &key_def(alloc)?)?))
}

fn copies_name_pair(alloc: Global) -> Result<bool, AllocError> {
    let pair = NamePair {
        old: name(alloc, b'i')?,
        new: name(alloc, b'k')?,
    };
    let copy = copy_of(alloc, &pair)?;
    Ok(is_letter(&copy.old, b'i') && is_letter(&copy.new, b'k'))
}

fn maps(alloc: Global) -> Result<EachOp, AllocError> {
    let mut defs = List::new(alloc);
    defs.push(def(alloc)?)?;
    Ok(EachOp::Map(defs))
}

fn copies_maps(alloc: Global) -> Result<bool, AllocError> {
    match copy_of(alloc, &maps(alloc)?)? {
        EachOp::Map(defs) => Ok(defs.get(0).is_some_and(is_def)),
        _ => Ok(false),
    }
}

fn copies_filters(alloc: Global) -> Result<bool, AllocError> {
    match copy_of(alloc, &EachOp::Filter(Expr::Number(9)))? {
        EachOp::Filter(test) => Ok(is_number(&test, 9)),
        _ => Ok(false),
    }
}

fn copies_promotes(alloc: Global) -> Result<bool, AllocError> {
    match copy_of(alloc, &EachOp::Promote(key_def(alloc)?))? {
        EachOp::Promote(def) => Ok(is_key_def(&def)),
        _ => Ok(false),
    }
}

fn copies_applies(alloc: Global) -> Result<bool, AllocError> {
    match copy_of(alloc, &EachOp::Apply(call(alloc)?))? {
        EachOp::Apply(call) => Ok(is_call(&call)),
        _ => Ok(false),
    }
}

fn copies_shape(alloc: Global) -> Result<bool, AllocError> {
    let shape = Shape {
        keys: List::from_slice(alloc, &[KeyType::Nat])?,
        vals: List::new(alloc),
    };
    let copy = copy_of(alloc, &shape)?;
    Ok(copy.keys.len() == 1 && copy.vals.is_empty())
}

fn empty_shape(alloc: Global) -> Shape {
    Shape {
        keys: List::new(alloc),
        vals: List::new(alloc),
    }
}

fn copies_join_shape(alloc: Global) -> Result<bool, AllocError> {
    let pair = copy_of(alloc, &ColPair { left: 0, right: 3 })?;
    let shape = JoinShape {
        left: empty_shape(alloc),
        right: empty_shape(alloc),
        common: 1,
        pairs: List::from_slice(alloc, &[pair])?,
    };
    let copy = copy_of(alloc, &shape)?;
    Ok(copy.common == 1 && copy.pairs.get(0) == Some(&ColPair { left: 0, right: 3 }))
}

#[test]
fn operators_and_arguments_are_copied(rt: HostRuntime) -> Result<(), Fail> {
    let alloc = rt.alloc();
    assert_eq!(rt; copy_of(alloc, &TwoOp::Le)?, TwoOp::Le);
    assert_eq!(rt; copy_of(alloc, &FunOp::Len)?, FunOp::Len);
    assert!(rt; copies_column_arg(alloc)?);
    assert!(rt; copies_literal_arg(alloc)?);
    assert!(rt; copies_call(alloc)?);
    assert!(rt; copies_def(alloc)?);
    assert!(rt; copies_key_def(alloc)?);
    Ok(())
}

#[test]
fn pairs_and_shapes_are_copied(rt: HostRuntime) -> Result<(), Fail> {
    let alloc = rt.alloc();
    assert!(rt; copies_name_pair(alloc)?);
    assert!(rt; copies_maps(alloc)?);
    assert!(rt; copies_filters(alloc)?);
    assert!(rt; copies_promotes(alloc)?);
    assert!(rt; copies_applies(alloc)?);
    assert!(rt; copies_shape(alloc)?);
    assert!(rt; copies_join_shape(alloc)?);
    Ok(())
}
