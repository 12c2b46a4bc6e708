//! What an expression's value is in a column.
ghost use Rattle.std.specs.Prelude.{◌≡◌};
ghost use Rattle.lara_data.specs.ExprValues.{to_key, to_val};

use lara_data::ExprVal;
use lara_key::{KeyType, KeyVal};
use lara_semiring::{ValType, Value, zero};
use std::alloc::Global;

/// The value in a key column of the type, with no copy; one of another type, which no typed tree has there, is 0.
pub fn to_key(ty: KeyType, value: ExprVal) -> KeyVal
    ensures { result ≡ to_key ty value }
{
    match (ty, value) {
        (KeyType::Nat, ExprVal::Number(n)) => KeyVal::Nat(n),
        (KeyType::Text, ExprVal::Text(text)) => KeyVal::Text(text),
        (KeyType::Flag, ExprVal::Flag(b)) => KeyVal::Flag(b),
        _ => KeyVal::Nat(0),
    }
}

/// The value in a value column of the type, with no copy; one of another type, which no typed tree has there, is zero.
pub fn to_val(alloc: Global, ty: ValType, value: ExprVal) -> Value
    ensures { result ≡ to_val ty value }
{
    match (ty, value) {
        (ValType::Count, ExprVal::Number(n)) => Value::Count(n),
        (ValType::MinPlus, ExprVal::MinPlus(n)) => Value::MinPlus(n),
        (ValType::MaxMin, ExprVal::Number(n)) => Value::MaxMin(n),
        (ValType::Flag, ExprVal::Flag(b)) => Value::Flag(b),
        (ValType::Last, ExprVal::Text(text)) => Value::Last(text),
        (ValType::Path, ExprVal::Path(path)) => Value::Path(path),
        _ => zero(alloc, &ty),
    }
}
