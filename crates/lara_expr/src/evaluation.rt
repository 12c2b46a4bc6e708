//! The value of an expression over one entry.
ghost use Rattle.std.specs.Prelude.{◌≡◌, true, IsTrue, IfOk, IsOk};
ghost use Rattle.lara_semiring.specs.Rows.{row_has};
ghost use Rattle.lara_data.specs.TableTypes.{types};
ghost use Rattle.lara_data.specs.TypedTables.{KeyHas};
ghost use Rattle.lara_data.specs.ExprValues.{value_of};
ghost use Rattle.lara_expr.specs.Plain.{is_plain};

use crate::columns::entry_column;
use crate::functions::fun_value;
use crate::operators::{is_true, two_value};
use lara_base::{Copied, Text};
use lara_data::{Expr, ExprVal, TableType};
use lara_key::Tuple;
use lara_semiring::{PathText, Row};
use std::alloc::{AllocError, Global};

/// No way at all.
const INF: u64 = u64::MAX;

/// What an expression comes to over the columns, the key and the row of an entry: each of its parts is evaluated once, and
/// of two branches the one that counts. Where none of its parts is a text or a path it takes no memory.
#[tactic(auto, using(lara_data::proofs::ExprEquations::value_rules, crate::proofs::PlainFacts::plain_rules))]
pub fn eval(
    alloc: Global,
    e: &Expr,
    ty: &TableType,
    key: &Tuple,
    row: &Row,
) -> Result<ExprVal, AllocError>
    ensures value { IfOk result (λ v. v ≡ value_of ty.now key.now row.now e.now) }
    ensures exact { KeyHas ty.now.keys key.now → row_has (types ty.now.vals) row.now ≡ true → is_plain ty.now e.now ≡ true → IsOk result }
{
    match e {
        Expr::Column(name) => entry_column(alloc, ty, key, row, name),
        Expr::Number(n) => Ok(ExprVal::Number(*n)),
        Expr::Text(content) => Ok(ExprVal::Text(Text::Within(content.copy(alloc)?))),
        Expr::Flag(b) => Ok(ExprVal::Flag(*b)),
        Expr::Inf => Ok(ExprVal::MinPlus(INF)),
        Expr::None => Ok(ExprVal::Path(PathText::Absent)),
        Expr::Two(op, a, b) => {
            let left = eval(alloc, a.get(), ty, key, row)?;
            let right = eval(alloc, b.get(), ty, key, row)?;
            two_value(alloc, *op, left, right)
        }
        Expr::Not(a) => {
            let value = eval(alloc, a.get(), ty, key, row)?;
            Ok(ExprVal::Flag(!is_true(&value)))
        }
        Expr::If(test, a, b) => {
            let test = eval(alloc, test.get(), ty, key, row)?;
            let branch = if is_true(&test) { a } else { b };
            eval(alloc, branch.get(), ty, key, row)
        }
        Expr::Fun(f, a) => {
            let value = eval(alloc, a.get(), ty, key, row)?;
            Ok(fun_value(alloc, *f, value))
        }
    }
}
