//! Maps, filters, promotes and renames of a table over i with the value v, worked out by hand. What a test compares, a helper
//! answers.
ghost use Rattle.std.specs.Prelude.{◌≡◌, ◌∷◌, [], IfOk};
ghost use Rattle.lara_key.specs.declared.key.KeyType.TheVariants.{Nat};
ghost use Rattle.lara_semiring.specs.declared.value.ValType.TheVariants.{Count};

use crate::tests::{Item, has, key_col, name, val_col, vector};
use crate::{Assoc, ext, rename};
use lara_base::{Boxed, List, Name};
use lara_data::{Def, EachOp, Expr, KeyDef, NamePair, TwoOp};
use std::alloc::{AllocError, Global};
use std::test::Fail;

// The column of one letter. In the contracts below 105 is i, 106 j, 118 v and 119 w.
fn column(alloc: Global, letter: u8) -> Result<Expr, AllocError>
    ensures { IfOk result (λ e. e ≡ Expr.Column (letter ∷ [])) }
{
    Ok(Expr::Column(name(alloc, letter)?))
}

// i < v
fn is_below(alloc: Global) -> Result<Expr, AllocError>
    ensures { IfOk result (λ e. e ≡ Expr.Two TwoOp.Lt (Expr.Column (105 ∷ [])) (Expr.Column (118 ∷ []))) }
{
    let left = Boxed::new(alloc, column(alloc, b'i')?)?;
    let right = Boxed::new(alloc, column(alloc, b'v')?)?;
    Ok(Expr::Two(TwoOp::Lt, left, right))
}

// filter where i < v
fn below_alone(alloc: Global) -> Result<EachOp, AllocError>
    ensures { IfOk result (λ op. op ≡ EachOp.Filter (Expr.Two TwoOp.Lt (Expr.Column (105 ∷ [])) (Expr.Column (118 ∷ [])))) }
{
    Ok(EachOp::Filter(is_below(alloc)?))
}

fn filtered(alloc: Global, items: &[Item]) -> Result<Assoc, AllocError> {
    let a = vector(alloc, b'v', items)?;
    let op = below_alone(alloc)?;
    ext(alloc, &a, &op, &Vec::new(alloc))
}

// i * v
fn product(alloc: Global) -> Result<Expr, AllocError>
    ensures { IfOk result (λ e. e ≡ Expr.Two TwoOp.Mul (Expr.Column (105 ∷ [])) (Expr.Column (118 ∷ []))) }
{
    let left = Boxed::new(alloc, column(alloc, b'i')?)?;
    let right = Boxed::new(alloc, column(alloc, b'v')?)?;
    Ok(Expr::Two(TwoOp::Mul, left, right))
}

// map to w: count = i * v
fn products(alloc: Global) -> Result<EachOp, AllocError>
    ensures { IfOk result (λ op. op ≡ EachOp.Map (record { col = record { name = 119 ∷ []; ty = Count }; expr = Expr.Two TwoOp.Mul (Expr.Column (105 ∷ [])) (Expr.Column (118 ∷ [])) } ∷ [])) }
{
    let mut defs = List::new(alloc);
    defs.push(Def {
        col: val_col(alloc, b'w')?,
        expr: product(alloc)?,
    })?;
    Ok(EachOp::Map(defs))
}

fn mapped(alloc: Global, items: &[Item]) -> Result<Assoc, AllocError> {
    let a = vector(alloc, b'v', items)?;
    let op = products(alloc)?;
    ext(alloc, &a, &op, &Vec::new(alloc))
}

// promote to j: nat = i * v
fn product_last(alloc: Global) -> Result<EachOp, AllocError>
    ensures { IfOk result (λ op. op ≡ EachOp.Promote (record { col = record { name = 106 ∷ []; ty = Nat }; expr = Expr.Two TwoOp.Mul (Expr.Column (105 ∷ [])) (Expr.Column (118 ∷ [])) })) }
{
    Ok(EachOp::Promote(KeyDef {
        col: key_col(alloc, b'j')?,
        expr: product(alloc)?,
    }))
}

fn promoted(alloc: Global, items: &[Item]) -> Result<Assoc, AllocError> {
    let a = vector(alloc, b'v', items)?;
    let op = product_last(alloc)?;
    ext(alloc, &a, &op, &Vec::new(alloc))
}

fn pair(alloc: Global, old: u8, new: u8) -> Result<NamePair, AllocError>
    ensures { IfOk result (λ p. p ≡ record { old = old ∷ []; new = new ∷ [] }) }
{
    Ok(NamePair {
        old: name(alloc, old)?,
        new: name(alloc, new)?,
    })
}

// i to v, v to i
fn swapped(alloc: Global) -> Result<List<NamePair>, AllocError>
    ensures { IfOk result (λ ps. ps ≡ record { old = 105 ∷ []; new = 118 ∷ [] } ∷ record { old = 118 ∷ []; new = 105 ∷ [] } ∷ []) }
{
    let mut pairs = List::new(alloc);
    pairs.push(pair(alloc, b'i', b'v')?)?;
    pairs.push(pair(alloc, b'v', b'i')?)?;
    Ok(pairs)
}

fn turned(alloc: Global, items: &[Item]) -> Result<Assoc, AllocError> {
    let a = vector(alloc, b'v', items)?;
    let pairs = swapped(alloc)?;
    rename(alloc, &a, &pairs)
}

fn is_letter(name: &Name, letter: u8) -> bool {
    name.bytes().as_slice() == [letter].as_slice()
}

// Whether the key column and the value column have these names.
fn are_named(table: &Assoc, key: u8, value: u8) -> bool {
    let ty = table.ty();
    ty.keys.iter().all(|k| is_letter(&k.name, key))
        && ty.vals.iter().all(|v| is_letter(&v.name, value))
}

#[test]
fn a_filter_keeps_what_passes(rt: HostRuntime) -> Result<(), Fail> {
    let table = filtered(rt.alloc(), &[(1, 5), (7, 7), (2, 3)])?;
    assert!(rt; has(&table, &[(&[1], &[5]), (&[2], &[3])]));
    Ok(())
}

#[test]
fn a_map_computes_rows(rt: HostRuntime) -> Result<(), Fail> {
    let table = mapped(rt.alloc(), &[(2, 5), (0, 7), (3, 1)])?;
    assert!(rt; has(&table, &[(&[2], &[10]), (&[3], &[3])]));
    assert!(rt; are_named(&table, b'i', b'w'));
    Ok(())
}

#[test]
fn a_promote_computes_a_key_column(rt: HostRuntime) -> Result<(), Fail> {
    let table = promoted(rt.alloc(), &[(2, 5), (1, 7)])?;
    assert!(rt; has(&table, &[(&[1, 7], &[7]), (&[2, 10], &[5])]));
    Ok(())
}

#[test]
fn a_rename_is_all_at_once(rt: HostRuntime) -> Result<(), Fail> {
    let table = turned(rt.alloc(), &[(2, 5), (1, 7)])?;
    assert!(rt; has(&table, &[(&[1], &[7]), (&[2], &[5])]));
    assert!(rt; are_named(&table, b'v', b'i'));
    Ok(())
}
