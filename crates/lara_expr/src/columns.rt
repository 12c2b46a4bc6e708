//! What an entry has in a column.
ghost use Rattle.std.specs.Prelude.{◌≡◌, true, IfOk, IsOk};
ghost use Rattle.lara_data.specs.TableTypes.{key_names};
ghost use Rattle.lara_data.specs.Names.{read};
ghost use Rattle.lara_data.specs.ExprValues.{of_key, of_val, row_column, entry_column};
ghost use Rattle.lara_expr.specs.Plain.{is_plain_val};

use lara_base::{Copied, Name};
use lara_data::{ExprVal, KeyCol, TableType, ValCol, is_key_name};
use lara_key::{KeyVal, Tuple};
use lara_semiring::{Row, Value, zero};
use std::alloc::{AllocError, Global};

// A copy of a key's column as an expression reads it.
fn of_key(alloc: Global, value: &KeyVal) -> Result<ExprVal, AllocError>
    ensures value { IfOk result (λ v. v ≡ of_key value.now) }
    ensures exact { is_plain_val (of_key value.now) ≡ true → IsOk result }
{
    match value {
        KeyVal::Nat(n) => Ok(ExprVal::Number(*n)),
        KeyVal::Text(text) => Ok(ExprVal::Text(text.copy(alloc)?)),
        KeyVal::Flag(b) => Ok(ExprVal::Flag(*b)),
    }
}

// A copy of a value as an expression reads it.
fn of_val(alloc: Global, value: &Value) -> Result<ExprVal, AllocError>
    ensures value { IfOk result (λ v. v ≡ of_val value.now) }
    ensures exact { is_plain_val (of_val value.now) ≡ true → IsOk result }
{
    match value {
        Value::Count(n) => Ok(ExprVal::Number(*n)),
        Value::MinPlus(n) => Ok(ExprVal::MinPlus(*n)),
        Value::MaxMin(n) => Ok(ExprVal::Number(*n)),
        Value::Flag(b) => Ok(ExprVal::Flag(*b)),
        Value::Last(text) => Ok(ExprVal::Text(text.copy(alloc)?)),
        Value::Path(path) => Ok(ExprVal::Path(path.copy(alloc)?)),
    }
}

// What a key has in the column of the name, and 0 where it has none.
#[tactic(auto, unfolding(lara_data::specs::Names::read, lara_data::specs::Names::same_name))]
fn key_column(
    alloc: Global,
    keys: &[KeyCol],
    key: &[KeyVal],
    name: &Name,
) -> Result<ExprVal, AllocError>
    ensures value { IfOk result (λ v. v ≡ of_key (read (key_names keys.now) key.now name.now)) }
    ensures exact { is_plain_val (of_key (read (key_names keys.now) key.now name.now)) ≡ true → IsOk result }
{
    match keys {
        [] => Ok(ExprVal::Number(0)),
        [first, other_keys @ ..] => match key {
            [] => {
                if name.same(&first.name) {
                    return Ok(ExprVal::Number(0));
                }
                key_column(alloc, other_keys, key, name)
            }
            [value, others @ ..] => {
                if name.same(&first.name) {
                    return of_key(alloc, value);
                }
                key_column(alloc, other_keys, others, name)
            }
        },
    }
}

// What a row has in the column of the name, zero where it is too short.
#[tactic(auto, unfolding(lara_data::specs::ExprValues::row_column, lara_data::specs::Names::same_name))]
fn row_column(
    alloc: Global,
    vals: &[ValCol],
    row: &[Value],
    name: &Name,
) -> Result<ExprVal, AllocError>
    ensures value { IfOk result (λ v. v ≡ row_column vals.now row.now name.now) }
    ensures exact { is_plain_val (row_column vals.now row.now name.now) ≡ true → IsOk result }
{
    match vals {
        [] => Ok(ExprVal::Number(0)),
        [first, other_vals @ ..] => match row {
            [] => {
                if name.same(&first.name) {
                    return of_val(alloc, &zero(alloc, &first.ty));
                }
                row_column(alloc, other_vals, row, name)
            }
            [value, others @ ..] => {
                if name.same(&first.name) {
                    return of_val(alloc, value);
                }
                row_column(alloc, other_vals, others, name)
            }
        },
    }
}

/// What an entry has in the column of the name.
pub fn entry_column(
    alloc: Global,
    ty: &TableType,
    key: &Tuple,
    row: &Row,
    name: &Name,
) -> Result<ExprVal, AllocError>
    ensures value { IfOk result (λ v. v ≡ entry_column ty.now key.now row.now name.now) }
    ensures exact { is_plain_val (entry_column ty.now key.now row.now name.now) ≡ true → IsOk result }
{
    if is_key_name(ty.keys.as_slice(), name) {
        key_column(alloc, ty.keys.as_slice(), key.as_slice(), name)
    } else {
        row_column(alloc, ty.vals.as_slice(), row.as_slice(), name)
    }
}
