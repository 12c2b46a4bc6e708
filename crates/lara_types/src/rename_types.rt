//! The types of renames: the same columns under other names, or the kind of the first rule that is broken.
ghost use Rattle.std.specs.Prelude.{◌≡◌, ◌++◌, true, map, Ok, Err, IfOk, IsOk, IsErr, MatchOption};
ghost use Rattle.std.specs.List.{list_any, list_all};
ghost use Rattle.std.specs.Str.{bytes_eq};
ghost use Rattle.lara_data.specs.Extensions.{new_name, renamed_columns};
ghost use Rattle.lara_data.specs.Names.{has, among, distinct};
ghost use Rattle.lara_data.specs.TypeRules.{old_names, names_of, rename_type};

use crate::named::is_column_name;
use crate::rules::Typed;
use lara_base::{Copied, List, Name};
use lara_data::{KeyCol, Kind, NamePair, TableType, ValCol};
use std::alloc::{AllocError, Global};

// ---- old names

fn have_columns(ty: &TableType, pairs: &[NamePair]) -> bool
    ensures { result ≡ list_all (λ p. has (names_of ty.now) p.old) pairs.now }
{
    pairs.iter().all(|p| is_column_name(ty, &p.old))
}

fn has_old(pairs: &[NamePair], name: &Name) -> bool
    ensures { result ≡ list_any (λ p. bytes_eq name.now p.old) pairs.now }
{
    pairs.iter().any(|p| name.same(&p.old))
}

// Whether a pair replaces the name.
#[tactic(auto, using(crate::proofs::ListedNames::has_old_name))]
fn is_old(pairs: &[NamePair], name: &Name) -> bool
    ensures { result ≡ has (old_names pairs.now) name.now }
{
    has_old(pairs, name)
}

// Whether no name is replaced twice. Where the names are among a few, this takes that many turns over them at most.
#[tactic(auto, unfolding(lara_data::specs::Names::distinct))]
fn are_once(pairs: &[NamePair]) -> bool
    ensures { result ≡ distinct (old_names pairs.now) }
{
    match pairs {
        [] => true,
        [first, rest @ ..] => {
            if is_old(rest, &first.old) {
                return false;
            }
            are_once(rest)
        }
    }
}

// ---- new names

// The name that a column gets.
#[tactic(auto, unfolding(lara_data::specs::Extensions::new_name, lara_data::specs::Names::same_name))]
fn new_name<'a>(pairs: &'a [NamePair], name: &'a Name) -> &'a Name
    ensures { result.now ≡ new_name pairs.now name.now }
{
    match pairs {
        [] => name,
        [first, rest @ ..] => {
            if name.same(&first.old) {
                return &first.new;
            }
            new_name(rest, name)
        }
    }
}

fn has_new_key(keys: &[KeyCol], pairs: &[NamePair], name: &Name) -> bool
    ensures { result ≡ list_any (λ k. bytes_eq name.now (new_name pairs.now k.name)) keys.now }
{
    keys.iter().any(|k| name.same(new_name(pairs, &k.name)))
}

fn has_new_val(vals: &[ValCol], pairs: &[NamePair], name: &Name) -> bool
    ensures { result ≡ list_any (λ v. bytes_eq name.now (new_name pairs.now v.name)) vals.now }
{
    vals.iter().any(|v| name.same(new_name(pairs, &v.name)))
}

// Whether a key column gets the name.
fn is_new_key(keys: &[KeyCol], pairs: &[NamePair], name: &Name) -> bool
    ensures { result ≡ has (map (λ k. new_name pairs.now k.name) keys.now) name.now }
{
    has_new_key(keys, pairs, name)
}

// Whether a value column gets the name.
fn is_new_val(vals: &[ValCol], pairs: &[NamePair], name: &Name) -> bool
    ensures { result ≡ has (map (λ v. new_name pairs.now v.name) vals.now) name.now }
{
    has_new_val(vals, pairs, name)
}

// Whether no two of the value columns get one name.
#[tactic(auto, unfolding(lara_data::specs::Names::distinct))]
fn are_vals_apart(vals: &[ValCol], pairs: &[NamePair]) -> bool
    ensures { result ≡ distinct (map (λ v. new_name pairs.now v.name) vals.now) }
{
    match vals {
        [] => true,
        [first, rest @ ..] => {
            if is_new_val(rest, pairs, new_name(pairs, &first.name)) {
                return false;
            }
            are_vals_apart(rest, pairs)
        }
    }
}

// Whether one of the columns gets the name.
#[tactic(auto, using(lara_data::specs::Names::has_append))]
fn is_new(keys: &[KeyCol], vals: &[ValCol], pairs: &[NamePair], name: &Name) -> bool
    ensures { result ≡ has (map (λ k. new_name pairs.now k.name) keys.now ++ map (λ v. new_name pairs.now v.name) vals.now) name.now }
{
    is_new_key(keys, pairs, name) || is_new_val(vals, pairs, name)
}

// Whether no two of the columns get one name.
#[tactic(auto, unfolding(lara_data::specs::Names::distinct))]
fn are_apart(keys: &[KeyCol], vals: &[ValCol], pairs: &[NamePair]) -> bool
    ensures { result ≡ distinct (map (λ k. new_name pairs.now k.name) keys.now ++ map (λ v. new_name pairs.now v.name) vals.now) }
{
    match keys {
        [] => are_vals_apart(vals, pairs),
        [first, rest @ ..] => {
            if is_new(rest, vals, pairs, new_name(pairs, &first.name)) {
                return false;
            }
            are_apart(rest, vals, pairs)
        }
    }
}

/// Whether no two columns get one name.
pub fn are_new_names_apart(ty: &TableType, pairs: &[NamePair]) -> bool
    ensures { result ≡ distinct (names_of (renamed_columns pairs.now ty.now)) }
{
    are_apart(ty.keys.as_slice(), ty.vals.as_slice(), pairs)
}

// ---- the type

// The first rule that is broken.
fn rename_fault(a: &TableType, pairs: &[NamePair]) -> Option<Kind>
    ensures { MatchOption result (rename_type a.now pairs.now ≡ Ok (renamed_columns pairs.now a.now)) (λ kind. rename_type a.now pairs.now ≡ Err kind) }
{
    if !have_columns(a, pairs) {
        return Some(Kind::NoName);
    }
    if !are_once(pairs) || !are_new_names_apart(a, pairs) {
        return Some(Kind::NameTwice);
    }
    None
}

fn renamed_keys(
    alloc: Global,
    keys: &List<KeyCol>,
    pairs: &[NamePair],
) -> Result<List<KeyCol>, AllocError>
    ensures { IfOk result (λ ks. ks ≡ map (λ k. record { name = new_name pairs.now k.name; ty = k.ty }) keys.now) }
{
    let mut renamed = List::new(alloc);
    for key in keys.as_slice() {
        let name = new_name(pairs, &key.name).copy(alloc)?;
        renamed.push(KeyCol { name, ty: key.ty })?;
    }
    Ok(renamed)
}

fn renamed_vals(
    alloc: Global,
    vals: &List<ValCol>,
    pairs: &[NamePair],
) -> Result<List<ValCol>, AllocError>
    ensures { IfOk result (λ vs. vs ≡ map (λ v. record { name = new_name pairs.now v.name; ty = v.ty }) vals.now) }
{
    let mut renamed = List::new(alloc);
    for val in vals.as_slice() {
        let name = new_name(pairs, &val.name).copy(alloc)?;
        renamed.push(ValCol { name, ty: val.ty })?;
    }
    Ok(renamed)
}

/// The columns under their new names, of which no two agree.
pub fn rename_columns(
    alloc: Global,
    a: &TableType,
    pairs: &[NamePair],
) -> Result<TableType, AllocError>
    requires { distinct (names_of (renamed_columns pairs.now a.now)) ≡ true }
    ensures { IfOk result (λ ty. ty ≡ renamed_columns pairs.now a.now) }
{
    let keys = renamed_keys(alloc, &a.keys, pairs)?;
    let vals = renamed_vals(alloc, &a.vals, pairs)?;
    Ok(TableType { keys, vals })
}

/// Of a rename: an old name that no column has first, then one that is listed twice, and then two columns that get one name.
pub fn type_rename(alloc: Global, a: &TableType, pairs: &List<NamePair>) -> Typed
    ensures answer { IfOk result (λ r. r ≡ rename_type a.now pairs.now) }
    ensures sure { IsErr (rename_type a.now pairs.now) → IsOk result }
{
    let pairs = pairs.as_slice();
    match rename_fault(a, pairs) {
        Some(kind) => Ok(Err(kind)),
        None => Ok(Ok(rename_columns(alloc, a, pairs)?)),
    }
}
