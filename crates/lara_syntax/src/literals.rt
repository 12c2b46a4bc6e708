//! Literals by the types of their columns: which are of the kind, which in the range, and what they stand for.
ghost use Rattle.std.specs.Prelude.{◌≡◌, false, IfOk, IsOk};
ghost use Rattle.lara_base.specs.Texts.{is_content};
ghost use Rattle.lara_key.specs.Keys.{key_holds_text};
ghost use Rattle.lara_semiring.specs.ValueSemirings.{holds_text};
ghost use Rattle.lara_syntax.specs.Literals.{is_key_lit, is_val_lit, is_key_in_range, is_val_in_range, key_value, row_value};

use crate::ast::AstValue;
use lara_base::{Content, Copied, Text};
use lara_key::{KeyType, KeyVal};
use lara_semiring::{PathText, ValType, Value};
use std::alloc::{AllocError, Global};

/// The distance of no way at all, which `inf` writes.
const INF: u64 = u64::MAX;

/// Whether a literal is of the kind that a key column takes: a number for `nat`, a text for `text`, and `true` or `false`
/// for `flag`.
pub fn is_key_lit(ty: KeyType, value: &AstValue) -> bool
    ensures { result ≡ is_key_lit ty value.now }
{
    match (ty, value) {
        (KeyType::Nat, AstValue::Number(_))
        | (KeyType::Text, AstValue::Text(_))
        | (KeyType::Flag, AstValue::Flag(_)) => true,
        _ => false,
    }
}

/// Whether a literal is of the kind that a value column takes: a number for `count`, `minplus` and `maxmin`, `inf` for
/// `minplus`, a text for `last` and `path`, `none` for `path`, and `true` or `false` for `flag`.
pub fn is_val_lit(ty: ValType, value: &AstValue) -> bool
    ensures { result ≡ is_val_lit ty value.now }
{
    match (ty, value) {
        (ValType::Count, AstValue::Number(_))
        | (ValType::MinPlus, AstValue::Number(_))
        | (ValType::MinPlus, AstValue::Inf)
        | (ValType::MaxMin, AstValue::Number(_))
        | (ValType::Flag, AstValue::Flag(_))
        | (ValType::Last, AstValue::Text(_))
        | (ValType::Path, AstValue::Text(_))
        | (ValType::Path, AstValue::None) => true,
        _ => false,
    }
}

// Each content is a text of at most 1,024 bytes.
fn is_content(content: &Content) -> bool
    ensures { result ≡ is_content content.now }
{
    content.known();
    true
}

/// Whether a literal is none that stands for all past the range of a key column.
pub fn is_key_in_range(ty: KeyType, value: &AstValue) -> bool
    ensures { result ≡ is_key_in_range ty value.now }
{
    match (ty, value) {
        (KeyType::Nat, AstValue::Number(n)) => *n < u64::MAX,
        (KeyType::Text, AstValue::Text(content)) => is_content(content),
        _ => true,
    }
}

/// Whether a literal is none that stands for all past the range of a value column: numbers go to 2^64 - 2, and those of
/// `minplus` to 2^64 - 3.
pub fn is_val_in_range(ty: ValType, value: &AstValue) -> bool
    ensures { result ≡ is_val_in_range ty value.now }
{
    match (ty, value) {
        (ValType::Count, AstValue::Number(n)) => *n < u64::MAX,
        (ValType::MinPlus, AstValue::Number(n)) => *n < u64::MAX - 1,
        (ValType::MaxMin, AstValue::Number(n)) => *n < u64::MAX,
        (ValType::Last, AstValue::Text(content)) => is_content(content),
        (ValType::Path, AstValue::Text(content)) => is_content(content),
        _ => true,
    }
}

/// The key value of a literal; of one of another kind it is some value. Only a text takes memory.
pub fn key_of(alloc: Global, ty: KeyType, value: &AstValue) -> Result<KeyVal, AllocError>
    ensures same { IfOk result (λ k. k ≡ key_value ty value.now) }
    ensures exact { key_holds_text (key_value ty value.now) ≡ false → IsOk result }
{
    match (ty, value) {
        (KeyType::Nat, AstValue::Number(n)) => Ok(KeyVal::Nat(*n)),
        (KeyType::Text, AstValue::Text(content)) => {
            Ok(KeyVal::Text(Text::Within(content.copy(alloc)?)))
        }
        (KeyType::Flag, AstValue::Flag(b)) => Ok(KeyVal::Flag(*b)),
        _ => Ok(KeyVal::Nat(0)),
    }
}

/// The value of a literal; of one of another kind it is some value. Only a text takes memory.
pub fn value_of(alloc: Global, ty: ValType, value: &AstValue) -> Result<Value, AllocError>
    ensures same { IfOk result (λ v. v ≡ row_value ty value.now) }
    ensures exact { holds_text (row_value ty value.now) ≡ false → IsOk result }
{
    match (ty, value) {
        (ValType::Count, AstValue::Number(n)) => Ok(Value::Count(*n)),
        (ValType::MinPlus, AstValue::Number(n)) => Ok(Value::MinPlus(*n)),
        (ValType::MinPlus, AstValue::Inf) => Ok(Value::MinPlus(INF)),
        (ValType::MaxMin, AstValue::Number(n)) => Ok(Value::MaxMin(*n)),
        (ValType::Flag, AstValue::Flag(b)) => Ok(Value::Flag(*b)),
        (ValType::Last, AstValue::Text(content)) => {
            Ok(Value::Last(Text::Within(content.copy(alloc)?)))
        }
        (ValType::Path, AstValue::Text(content)) => {
            Ok(Value::Path(PathText::Within(content.copy(alloc)?)))
        }
        (ValType::Path, AstValue::None) => Ok(Value::Path(PathText::Absent)),
        _ => Ok(Value::Count(0)),
    }
}
