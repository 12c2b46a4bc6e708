//! What expressions are of, and what they come to.
ghost use Rattle.std.specs.Prelude.{◌≡◌};
ghost use Rattle.lara_data.specs.ExprTypes.{key_expr_type, val_expr_type, same_expr_type};

use lara_base::Text;
use lara_key::KeyType;
use lara_semiring::{PathText, ValType};

/// The type of an expression.
#[derive(Clone, Copy, Debug, PartialEq, Eq)]
pub enum ExprType {
    Number,
    MinPlus,
    Text,
    Path,
    Flag,
}

/// What an expression comes to. A number is past its range as a value of `count` is, and a distance as one of `minplus`.
#[derive(Drop)]
pub enum ExprVal {
    Number(u64),
    MinPlus(u64),
    Text(Text),
    Path(PathText),
    Flag(bool),
}

/// The type that a key column reads as.
pub fn key_expr_type(ty: KeyType) -> ExprType
    ensures { result ≡ key_expr_type ty }
{
    match ty {
        KeyType::Nat => ExprType::Number,
        KeyType::Text => ExprType::Text,
        KeyType::Flag => ExprType::Flag,
    }
}

/// The type that a value column reads as.
pub fn val_expr_type(ty: ValType) -> ExprType
    ensures { result ≡ val_expr_type ty }
{
    match ty {
        ValType::Count | ValType::MaxMin => ExprType::Number,
        ValType::MinPlus => ExprType::MinPlus,
        ValType::Flag => ExprType::Flag,
        ValType::Last => ExprType::Text,
        ValType::Path => ExprType::Path,
    }
}

/// Whether two types of expressions are one.
pub fn same_expr_type(a: ExprType, b: ExprType) -> bool
    ensures { result ≡ same_expr_type a b }
{
    match (a, b) {
        (ExprType::Number, ExprType::Number)
        | (ExprType::MinPlus, ExprType::MinPlus)
        | (ExprType::Text, ExprType::Text)
        | (ExprType::Path, ExprType::Path)
        | (ExprType::Flag, ExprType::Flag) => true,
        _ => false,
    }
}
