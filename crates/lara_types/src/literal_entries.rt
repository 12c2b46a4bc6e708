//! The entries of a literal: as many literals as columns, of their kinds and in their ranges. The rules are looked at before
//! anything is made of an entry.
ghost use Rattle.std.specs.Prelude.{◌≡◌, [], ◌++◌, ◌∷◌, length, map, true, false, IfOk, IfErr, IsOk, IsSome};
ghost use Rattle.lara_semiring.specs.Rows.{row_has};
ghost use Rattle.lara_data.specs.KeyedTables.{all_have};
ghost use Rattle.lara_data.specs.TableTypes.{types};
ghost use Rattle.lara_data.specs.Judgements.{Judges, NotMemory};
ghost use Rattle.lara_types.specs.LiteralValues.{is_whole, key_values, row_values, entry_value};
ghost use Rattle.lara_types.specs.NodeRules.{key_kind_rules, val_kind_rules, key_range_rules, val_range_rules, entry_rules, entries_rules};
ghost use Rattle.lara_types.specs.Rules.{first_broken, by_rules};

use crate::refuse::refusal;
use lara_base::List;
use lara_data::{Entry, KeyCol, Kind, ReadFault, Refusal, TableType, ValCol};
use lara_key::Tuple;
use lara_semiring::Row;
use lara_syntax::{
    AstEntry, AstLit, is_key_in_range, is_key_lit, is_val_in_range, is_val_lit, key_of, value_of,
};
use std::alloc::{AllocError, Global};

// At the first literal of the wrong kind for its key column.
#[tactic(auto, unfolding(crate::specs::Rules::first_broken, crate::specs::NodeRules::key_kind_rules))]
fn wrong_key(cols: &[KeyCol], lits: &[AstLit]) -> Option<Refusal>
    ensures { result ≡ first_broken (key_kind_rules cols.now lits.now) }
{
    let [col, cols @ ..] = cols else {
        return None;
    };
    let [lit, lits @ ..] = lits else {
        return None;
    };
    if is_key_lit(col.ty, &lit.value) {
        wrong_key(cols, lits)
    } else {
        Some(refusal(lit.at, Kind::TypesDiffer))
    }
}

// At the first literal of the wrong kind for its value column.
#[tactic(auto, unfolding(crate::specs::Rules::first_broken, crate::specs::NodeRules::val_kind_rules))]
fn wrong_val(cols: &[ValCol], lits: &[AstLit]) -> Option<Refusal>
    ensures { result ≡ first_broken (val_kind_rules cols.now lits.now) }
{
    let [col, cols @ ..] = cols else {
        return None;
    };
    let [lit, lits @ ..] = lits else {
        return None;
    };
    if is_val_lit(col.ty, &lit.value) {
        wrong_val(cols, lits)
    } else {
        Some(refusal(lit.at, Kind::TypesDiffer))
    }
}

// At the first literal that is past the range of its key column.
#[tactic(auto, unfolding(crate::specs::Rules::first_broken, crate::specs::NodeRules::key_range_rules))]
fn past_key(cols: &[KeyCol], lits: &[AstLit]) -> Option<Refusal>
    ensures { result ≡ first_broken (key_range_rules cols.now lits.now) }
{
    let [col, cols @ ..] = cols else {
        return None;
    };
    let [lit, lits @ ..] = lits else {
        return None;
    };
    if is_key_in_range(col.ty, &lit.value) {
        past_key(cols, lits)
    } else {
        Some(refusal(lit.at, Kind::NotInRange))
    }
}

// At the first literal that is past the range of its value column.
#[tactic(auto, unfolding(crate::specs::Rules::first_broken, crate::specs::NodeRules::val_range_rules))]
fn past_val(cols: &[ValCol], lits: &[AstLit]) -> Option<Refusal>
    ensures { result ≡ first_broken (val_range_rules cols.now lits.now) }
{
    let [col, cols @ ..] = cols else {
        return None;
    };
    let [lit, lits @ ..] = lits else {
        return None;
    };
    if is_val_in_range(col.ty, &lit.value) {
        past_val(cols, lits)
    } else {
        Some(refusal(lit.at, Kind::NotInRange))
    }
}

// At the first literal of the wrong kind, in the key and then in the row.
#[tactic(auto, using(crate::specs::RuleLaws::sequence_rules))]
fn wrong_kind(ty: &TableType, entry: &AstEntry) -> Option<Refusal>
    ensures { result ≡ first_broken (key_kind_rules ty.now.keys entry.now.key ++ val_kind_rules ty.now.vals entry.now.row) }
{
    match wrong_key(ty.keys.as_slice(), entry.key.as_slice()) {
        Some(refusal) => Some(refusal),
        None => wrong_val(ty.vals.as_slice(), entry.row.as_slice()),
    }
}

// At the first literal that is past its range, in the key and then in the row.
#[tactic(auto, using(crate::specs::RuleLaws::sequence_rules))]
fn past_range(ty: &TableType, entry: &AstEntry) -> Option<Refusal>
    ensures { result ≡ first_broken (key_range_rules ty.now.keys entry.now.key ++ val_range_rules ty.now.vals entry.now.row) }
{
    match past_key(ty.keys.as_slice(), entry.key.as_slice()) {
        Some(refusal) => Some(refusal),
        None => past_val(ty.vals.as_slice(), entry.row.as_slice()),
    }
}

// Whether an entry has as many literals as columns.
fn is_whole(ty: &TableType, entry: &AstEntry) -> bool
    ensures { result ≡ is_whole ty.now entry.now }
{
    entry.key.len() == ty.keys.len() && entry.row.len() == ty.vals.len()
}

// At the first rule of an entry that is broken.
#[tactic(auto, using(crate::specs::RuleLaws::sequence_rules), unfolding(crate::specs::Rules::first_broken))]
fn entry_refusal(ty: &TableType, entry: &AstEntry) -> Option<Refusal>
    ensures { result ≡ first_broken (entry_rules ty.now entry.now) }
{
    if !is_whole(ty, entry) {
        return Some(refusal(entry.at, Kind::TypesDiffer));
    }
    match wrong_kind(ty, entry) {
        Some(refusal) => Some(refusal),
        None => past_range(ty, entry),
    }
}

// The key values behind those that are read.
#[tactic(auto, using(crate::proofs::EntryValues::behind_rules), unfolding(crate::specs::LiteralValues::key_values))]
fn keys_from(
    alloc: Global,
    done: Tuple,
    cols: &[KeyCol],
    lits: &[AstLit],
) -> Result<Tuple, AllocError>
    ensures { IfOk result (λ k. k ≡ done ++ key_values cols.now lits.now) }
{
    let [col, cols @ ..] = cols else {
        return Ok(done);
    };
    let [lit, lits @ ..] = lits else {
        return Ok(done);
    };
    let mut done = done;
    done.push(key_of(alloc, col.ty, &lit.value)?)?;
    keys_from(alloc, done, cols, lits)
}

// The values behind those that are read.
#[tactic(auto, using(crate::proofs::EntryValues::behind_rules), unfolding(crate::specs::LiteralValues::row_values))]
fn vals_from(alloc: Global, done: Row, cols: &[ValCol], lits: &[AstLit]) -> Result<Row, AllocError>
    ensures { IfOk result (λ r. r ≡ done ++ row_values cols.now lits.now) }
{
    let [col, cols @ ..] = cols else {
        return Ok(done);
    };
    let [lit, lits @ ..] = lits else {
        return Ok(done);
    };
    let mut done = done;
    done.push(value_of(alloc, col.ty, &lit.value)?)?;
    vals_from(alloc, done, cols, lits)
}

// The key and the row of an entry.
fn values_of(alloc: Global, ty: &TableType, entry: &AstEntry) -> Result<Entry, AllocError>
    ensures { IfOk result (λ e. e ≡ entry_value ty.now entry.now) }
{
    let key = keys_from(
        alloc,
        List::new(alloc),
        ty.keys.as_slice(),
        entry.key.as_slice(),
    )?;
    let row = vals_from(
        alloc,
        List::new(alloc),
        ty.vals.as_slice(),
        entry.row.as_slice(),
    )?;
    Ok(Entry { key, row })
}

// An entry of a literal. Its rules are looked at before anything is made, so a broken one is never answered by want of memory.
fn entry_of(alloc: Global, ty: &TableType, entry: &AstEntry) -> Result<Entry, ReadFault>
    ensures gives { Judges (λ e. e) (by_rules (entry_rules ty.now entry.now) (entry_value ty.now entry.now)) result }
    ensures typed { IfOk result (λ e. row_has (types ty.now.vals) e.row ≡ true) }
    ensures sure { IsSome (first_broken (entry_rules ty.now entry.now)) → IfErr result NotMemory }
{
    match entry_refusal(ty, entry) {
        Some(refusal) => Err(ReadFault::Refused(refusal)),
        None => Ok(values_of(alloc, ty, entry)?),
    }
}

/// The entries of a literal of a type.
pub fn entries_of(
    alloc: Global,
    ty: &TableType,
    entries: &List<AstEntry>,
) -> Result<List<Entry>, ReadFault>
    ensures gives { Judges (λ es. es) (by_rules (entries_rules ty.now entries.now) (map (entry_value ty.now) entries.now)) result }
    ensures typed { IfOk result (λ es. all_have (types ty.now.vals) es ≡ true) }
{
    let mut read = List::new(alloc);
    for entry in entries.as_slice() {
        read.push(entry_of(alloc, ty, entry)?)?;
    }
    Ok(read)
}
