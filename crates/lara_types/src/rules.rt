//! The types of joins, unions and aggs: the columns of the result, or the kind of the first rule that is broken.
ghost use Rattle.std.specs.Prelude.{◌≡◌, ◌&&◌, true, not, IfOk, IsOk, IsTrue};
ghost use Rattle.lara_data.specs.Algebra.{agg_columns};
ghost use Rattle.lara_data.specs.Names.{among, distinct};
ghost use Rattle.lara_data.specs.TableTypes.{key_names};
ghost use Rattle.lara_data.specs.TypeRules.{types_differ, is_none, too_many, join_type, union_type, agg_type};

use crate::differ::types_differ;
use crate::named::{are_distinct, are_key_names};
use lara_base::{Copied, List, Name};
use lara_data::{
    KeyCol, Kind, MAX_COLS, TableType, ValCol, all_keys, all_vals, common_keys, common_vals,
    key_cols,
};
use std::alloc::{AllocError, Global};

/// The type of what an operator makes, or the kind of the first rule that is broken.
pub type Typed = Result<Result<TableType, Kind>, AllocError>;

#[tactic(auto, unfolding(lara_data::specs::TypeRules::too_many))]
fn is_too_many(keys: &List<KeyCol>, vals: &List<ValCol>) -> bool
    ensures { result ≡ too_many (record { keys = keys.now; vals = vals.now }) }
{
    keys.len() > MAX_COLS || vals.len() > MAX_COLS
}

fn is_none(vals: &List<ValCol>) -> bool
    ensures { result ≡ is_none vals.now }
{
    vals.len() == 0
}

/// Of a join: names of two kinds first, then that there is no common value column, then too many columns.
#[tactic(auto, unfolding(lara_data::specs::TypeRules::join_type))]
pub fn type_join(alloc: Global, a: &TableType, b: &TableType) -> Typed
    ensures answer { IfOk result (λ r. r ≡ join_type a.now b.now) }
    ensures sure { IsTrue (types_differ a.now b.now) → IsOk result }
{
    if types_differ(a, b) {
        return Ok(Err(Kind::TypesDiffer));
    }
    let vals = common_vals(alloc, &a.vals, &b.vals)?;
    if is_none(&vals) {
        return Ok(Err(Kind::NoCommonValue));
    }
    let keys = all_keys(alloc, &a.keys, &b.keys)?;
    if is_too_many(&keys, &vals) {
        return Ok(Err(Kind::TooManyColumns));
    }
    Ok(Ok(TableType { keys, vals }))
}

/// Of a union: names of two kinds first, then too many columns.
#[tactic(auto, unfolding(lara_data::specs::TypeRules::union_type))]
pub fn type_union(alloc: Global, a: &TableType, b: &TableType) -> Typed
    ensures answer { IfOk result (λ r. r ≡ union_type a.now b.now) }
    ensures sure { IsTrue (types_differ a.now b.now) → IsOk result }
{
    if types_differ(a, b) {
        return Ok(Err(Kind::TypesDiffer));
    }
    let keys = common_keys(alloc, &a.keys, &b.keys)?;
    let vals = all_vals(alloc, &a.vals, &b.vals)?;
    if is_too_many(&keys, &vals) {
        return Ok(Err(Kind::TooManyColumns));
    }
    Ok(Ok(TableType { keys, vals }))
}

/// The type of an agg by these names, which are key columns' and differ.
pub fn agg_type(alloc: Global, a: &TableType, keys: &List<Name>) -> Result<TableType, AllocError>
    requires keys { among (key_names a.now.keys) keys.now ≡ true }
    requires once { distinct keys.now ≡ true }
    ensures { IfOk result (λ t. t ≡ agg_columns a.now keys.now) }
{
    let keys = key_cols(alloc, &a.keys, keys)?;
    let vals = a.vals.copy(alloc)?;
    Ok(TableType { keys, vals })
}

/// Of an agg: a name that is no key column's first, then a name that stands twice.
#[tactic(auto, unfolding(lara_data::specs::TypeRules::agg_type))]
pub fn type_agg(alloc: Global, a: &TableType, keys: &List<Name>) -> Typed
    ensures answer { IfOk result (λ r. r ≡ agg_type a.now keys.now) }
    ensures sure { IsTrue (not (among (key_names a.now.keys) keys.now && distinct keys.now)) → IsOk result }
{
    if !are_key_names(a.keys.as_slice(), keys.as_slice()) {
        return Ok(Err(Kind::NotAKey));
    }
    if !are_distinct(keys.as_slice()) {
        return Ok(Err(Kind::NameTwice));
    }
    Ok(Ok(agg_type(alloc, a, keys)?))
}
