//! The first rule of a map, a filter, a promote or a rename that is broken. Only the names of a map, of which there may be
//! many, take memory.
ghost use Rattle.std.specs.Prelude.{◌≡◌, ◌<◌, not, length, [], ◌∷◌, ◌++◌, ℕ, List, map, MatchResult, OnOk};
ghost use Rattle.std.specs.List.{list_any};
ghost use Rattle.std.specs.Str.{bytes_eq};
ghost use Rattle.lara_data.specs.declared.order.EachOp.TheVariants.{Promote};
ghost use Rattle.lara_data.specs.Extensions.{each_columns};
ghost use Rattle.lara_data.specs.ExprTypes.{val_expr_type};
ghost use Rattle.lara_data.specs.Judgements.{Judges};
ghost use Rattle.lara_data.specs.TableTypes.{key_names, are_columns};
ghost use Rattle.lara_data.specs.TypeRules.{too_many};
ghost use Rattle.lara_types.specs.Written.{plain_key_def};
ghost use Rattle.lara_types.specs.DefinedNames.{def_name, one_more_def};
ghost use Rattle.lara_types.specs.EachRules.{defined, map_columns, exprs_rules, fit_rules, filter_rules, promote_rules, column_name_rules, olds, after_names};
ghost use Rattle.lara_types.specs.ExprRules.{is_of, expr_rules, expr_typing};
ghost use Rattle.lara_types.specs.LiteralTypes.{one_more_name};
ghost use Rattle.lara_types.specs.NameRules.{once_rules};
ghost use Rattle.lara_types.specs.Rules.{AllMet, first_broken};
ghost use Rattle.lara_types.specs.Seen.{Holds};
ghost use Rattle.lara_types.specs.Walks.{walk};

use crate::literal_types::see;
use crate::named::is_column_name;
use crate::refuse::{refusal, refused};
use crate::stored::has_columns;
use crate::typed_exprs::{first_word, typed_expr};
use lara_base::{Bytes, Name};
use lara_data::{
    ExprType, KeyCol, Kind, MAX_COLS, ReadFault, Refusal, TableType, is_key_name, key_expr_type,
    same_expr_type, val_expr_type,
};
use lara_syntax::{AstDef, AstExpr, AstKeyDef, AstName, AstPair};
use std::alloc::Global;
use std::collections::BTreeSet;

// ---- expressions

// Whether an expression is of a type, or its first refusal.
fn is_of(ty: &TableType, expr: &AstExpr, wanted: ExprType) -> Result<bool, Refusal>
    ensures { MatchResult result (λ b. (b ≡ is_of wanted (expr_typing ty.now expr.now)) × AllMet (expr_rules ty.now expr.now)) (λ r. first_broken (expr_rules ty.now expr.now) ≡ Some r) }
{
    match typed_expr(ty, expr) {
        Ok(found) => Ok(same_expr_type(wanted, found)),
        Err(refusal) => Err(refusal),
    }
}

// ---- filters

/// The refusal of the first rule of a filter that is broken.
pub fn filter_refusal(at: u32, ty: &TableType, test: &AstExpr) -> Option<Refusal>
    ensures { result ≡ first_broken (filter_rules at ty.now test.now) }
{
    match is_of(ty, test, ExprType::Flag) {
        Err(refusal) => Some(refusal),
        Ok(is_flag) => {
            if is_flag {
                None
            } else {
                Some(refusal(at, Kind::TypesDiffer))
            }
        }
    }
}

// ---- promotes

// One key column more is too many, or there are too many value columns.
#[tactic(auto, using(crate::proofs::EachTypes::too_many_keys))]
fn is_promote_too_wide(ty: &TableType, def: &AstKeyDef) -> bool
    ensures { result ≡ too_many (each_columns (Promote (plain_key_def def.now)) ty.now) }
{
    let _further = &def.col;
    ty.keys.len() >= MAX_COLS || ty.vals.len() > MAX_COLS
}

/// The refusal of the first rule of a promote that is broken.
pub fn promote_refusal(at: u32, ty: &TableType, def: &AstKeyDef) -> Option<Refusal>
    ensures { result ≡ first_broken (promote_rules at ty.now def.now) }
{
    if is_column_name(ty, &def.col.name.name) {
        return Some(refusal(at, Kind::NameTwice));
    }
    match is_of(ty, &def.expr, key_expr_type(def.col.ty)) {
        Err(refusal) => Some(refusal),
        Ok(fit) => {
            if !fit {
                return Some(refusal(at, Kind::TypesDiffer));
            }
            if is_promote_too_wide(ty, def) {
                return Some(refusal(at, Kind::TooManyColumns));
            }
            None
        }
    }
}

// ---- renames

/// At the first old name that is no column's.
pub fn stranger(ty: &TableType, pairs: &[AstPair]) -> Option<Refusal>
    ensures { result ≡ first_broken (column_name_rules ty.now (olds pairs.now)) }
{
    for pair in pairs {
        if !is_column_name(ty, &pair.old.name) {
            return Some(refusal(pair.old.at, Kind::NoName));
        }
    }
    None
}

// Whether a name is among the old ones.
fn is_old(pairs: &[AstPair], name: &Name) -> bool
    ensures { result ≡ list_any (λ p. bytes_eq name.now p.old.name) pairs.now }
{
    pairs.iter().any(|p| name.same(&p.old.name))
}

/// At the first old name that stands among those before it. It ends at the first repeat, so where all are names of k columns, it
/// takes at most k + 1 turns.
pub fn repeated(pairs: &[AstPair]) -> Option<Refusal>
    ensures { result ≡ first_broken (once_rules [] (olds pairs.now)) }
{
    let mut before = 0;
    while before < pairs.len() {
        let pair = &pairs[before];
        if is_old(&pairs[..before], &pair.old.name) {
            return Some(refusal(pair.old.at, Kind::NameTwice));
        }
        before += 1;
    }
    None
}

// ---- maps

// One name more, which is no key column's and has not stood before.
fn see_defined(
    alloc: Global,
    keys: &[KeyCol],
    seen: &mut BTreeSet<Bytes>,
    name: &AstName,
) -> Result<(), ReadFault>
    ensures gives { (names : List (List ℕ)) → Holds seen.old names → Judges (λ _. (key_names keys.now ++ names) ++ name.now.name ∷ []) (one_more_name (key_names keys.now ++ names) name.now) result }
    ensures holds { (names : List (List ℕ)) → Holds seen.old names → OnOk result (Holds seen.new (names ++ name.now.name ∷ [])) }
{
    if is_key_name(keys, &name.name) {
        return Err(refused(name.at, Kind::NameTwice));
    }
    see(alloc, seen, name)
}

fn check_defined(alloc: Global, keys: &[KeyCol], defs: &[AstDef]) -> Result<(), ReadFault>
    ensures { Judges (λ _. key_names keys.now ++ map def_name defs.now) (walk one_more_def (key_names keys.now) defs.now) result }
{
    let mut seen = BTreeSet::new(alloc);
    for def in defs {
        see_defined(alloc, keys, &mut seen, &def.col.name)?;
    }
    Ok(())
}

/// No name is defined that is a key column's or was defined before.
pub fn check_names(alloc: Global, ty: &TableType, defs: &[AstDef]) -> Result<(), ReadFault>
    ensures { Judges (λ _. key_names ty.now.keys ++ map def_name defs.now) (walk one_more_def (key_names ty.now.keys) defs.now) result }
{
    check_defined(alloc, ty.keys.as_slice(), defs)
}

// At the first rule of an expression that is broken.
fn expr_refusal(ty: &TableType, expr: &AstExpr) -> Option<Refusal>
    ensures { result ≡ first_broken (expr_rules ty.now expr.now) }
{
    match typed_expr(ty, expr) {
        Ok(_) => None,
        Err(refusal) => Some(refusal),
    }
}

// What the first expression that is refused is refused for.
fn exprs_refusal(ty: &TableType, defs: &[AstDef]) -> Option<Refusal>
    ensures { result ≡ first_broken (exprs_rules ty.now defs.now) }
{
    for def in defs {
        if let Some(refusal) = expr_refusal(ty, &def.expr) {
            return Some(refusal);
        }
    }
    None
}

// Whether an expression is of its column's type.
fn is_fit(ty: &TableType, def: &AstDef) -> bool
    ensures { result ≡ is_of (val_expr_type def.now.col.ty) (expr_typing ty.now def.now.expr) }
{
    match typed_expr(ty, &def.expr) {
        Ok(found) => same_expr_type(val_expr_type(def.col.ty), found),
        Err(_) => false,
    }
}

// At the first expression that is not of its column's type.
fn unfit(ty: &TableType, defs: &[AstDef]) -> Option<Refusal>
    ensures { result ≡ first_broken (fit_rules ty.now defs.now) }
{
    for def in defs {
        if !is_fit(ty, def) {
            return Some(refusal(first_word(&def.expr), Kind::TypesDiffer));
        }
    }
    None
}

// Whether there are more definitions than a table may have columns.
fn is_wide(ty: &TableType, defs: &[AstDef]) -> bool
    requires some { 0 < length defs.now }
    requires names { AllMet (once_rules (key_names ty.now.keys) (defined defs.now)) }
    ensures { result ≡ not (are_columns (map_columns ty.now defs.now).keys (map_columns ty.now defs.now).vals) }
{
    has_columns(ty);
    defs.len() > MAX_COLS
}

/// Of a map whose names differ: what the expressions are refused for, then one that is not of its column's type, then too many
/// columns.
pub fn map_refusal(at: u32, ty: &TableType, defs: &[AstDef]) -> Option<Refusal>
    requires some { 0 < length defs.now }
    requires names { AllMet (once_rules (key_names ty.now.keys) (defined defs.now)) }
    ensures { result ≡ first_broken (after_names at ty.now defs.now) }
{
    if let Some(refusal) = exprs_refusal(ty, defs) {
        return Some(refusal);
    }
    if let Some(refusal) = unfit(ty, defs) {
        return Some(refusal);
    }
    if is_wide(ty, defs) {
        return Some(refusal(at, Kind::TooManyColumns));
    }
    None
}
