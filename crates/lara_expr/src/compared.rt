//! How two values compare.
ghost use Rattle.std.specs.Prelude.{◌≡◌};
ghost use Rattle.lara_data.specs.ExprValues.{expr_cmp};

use lara_data::ExprVal;
use std::cmp::Ordering;

/// Numbers and distances by their size, texts and paths by their orders, false before true; values of two types, which no
/// typed expression compares, are as equal ones.
pub fn compare(a: &ExprVal, b: &ExprVal) -> Ordering
    ensures { result ≡ expr_cmp a.now b.now }
{
    match (a, b) {
        (ExprVal::Number(a), ExprVal::Number(b)) => a.cmp(b),
        (ExprVal::MinPlus(a), ExprVal::MinPlus(b)) => a.cmp(b),
        (ExprVal::Text(a), ExprVal::Text(b)) => a.cmp(b),
        (ExprVal::Path(a), ExprVal::Path(b)) => a.compare(b),
        (ExprVal::Flag(a), ExprVal::Flag(b)) => a.cmp(b),
        _ => Ordering::Equal,
    }
}
