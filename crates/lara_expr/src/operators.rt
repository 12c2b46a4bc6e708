//! Operators of two sides. Where their values are of two types, which no typed expression's are, the left one stays.
ghost use Rattle.std.specs.Prelude.{◌≡◌, true, IfOk, IsOk};
ghost use Rattle.lara_semiring.specs.Counts.{count_plus, count_times};
ghost use Rattle.lara_semiring.specs.MinPlus.{minplus_plus, minplus_times};
ghost use Rattle.lara_semiring.specs.Paths.{path_plus};
ghost use Rattle.lara_data.specs.ExprValues.{is_true, expr_plus, expr_times, text_cat, expr_cat, two_value};
ghost use Rattle.lara_expr.specs.Plain.{is_plain_val};

use crate::compared::compare;
use lara_base::Text;
use lara_data::{ExprVal, TwoOp};
use lara_semiring::{CountVal, MinPlusVal, PathText, Semiring};
use std::alloc::{AllocError, Global};

/// Whether a value is the flag `true`.
pub fn is_true(value: &ExprVal) -> bool
    ensures { result ≡ is_true value.now }
{
    match value {
        ExprVal::Flag(b) => *b,
        _ => false,
    }
}

fn count_sum(alloc: Global, a: u64, b: u64) -> Result<ExprVal, AllocError>
    ensures value { IfOk result (λ v. v ≡ ExprVal.Number (count_plus a b)) }
    ensures exact { IsOk result }
{
    let sum = CountVal { number: a }.plus(alloc, &CountVal { number: b })?;
    Ok(ExprVal::Number(sum.number))
}

fn count_product(alloc: Global, a: u64, b: u64) -> Result<ExprVal, AllocError>
    ensures value { IfOk result (λ v. v ≡ ExprVal.Number (count_times a b)) }
    ensures exact { IsOk result }
{
    let product = CountVal { number: a }.times(alloc, &CountVal { number: b })?;
    Ok(ExprVal::Number(product.number))
}

fn distance_sum(alloc: Global, a: u64, b: u64) -> Result<ExprVal, AllocError>
    ensures value { IfOk result (λ v. v ≡ ExprVal.MinPlus (minplus_plus a b)) }
    ensures exact { IsOk result }
{
    let sum = MinPlusVal { number: a }.plus(alloc, &MinPlusVal { number: b })?;
    Ok(ExprVal::MinPlus(sum.number))
}

fn distance_product(alloc: Global, a: u64, b: u64) -> Result<ExprVal, AllocError>
    ensures value { IfOk result (λ v. v ≡ ExprVal.MinPlus (minplus_times a b)) }
    ensures exact { IsOk result }
{
    let product = MinPlusVal { number: a }.times(alloc, &MinPlusVal { number: b })?;
    Ok(ExprVal::MinPlus(product.number))
}

// The lesser of two paths, with no copy.
fn path_sum(a: PathText, b: PathText) -> PathText
    ensures { result ≡ path_plus a b }
{
    if a.compare(&b).is_le() { a } else { b }
}

fn sum(alloc: Global, a: ExprVal, b: ExprVal) -> Result<ExprVal, AllocError>
    ensures value { IfOk result (λ v. v ≡ expr_plus a b) }
    ensures exact { IsOk result }
{
    match (a, b) {
        (ExprVal::Number(a), ExprVal::Number(b)) => count_sum(alloc, a, b),
        (ExprVal::MinPlus(a), ExprVal::MinPlus(b)) => distance_sum(alloc, a, b),
        (ExprVal::Path(a), ExprVal::Path(b)) => Ok(ExprVal::Path(path_sum(a, b))),
        (a, _) => Ok(a),
    }
}

fn product(alloc: Global, a: ExprVal, b: ExprVal) -> Result<ExprVal, AllocError>
    ensures value { IfOk result (λ v. v ≡ expr_times a b) }
    ensures exact { is_plain_val a ≡ true → IsOk result }
{
    match (a, b) {
        (ExprVal::Number(a), ExprVal::Number(b)) => count_product(alloc, a, b),
        (ExprVal::MinPlus(a), ExprVal::MinPlus(b)) => distance_product(alloc, a, b),
        (ExprVal::Path(a), ExprVal::Path(b)) => Ok(ExprVal::Path(a.times(alloc, &b)?)),
        (a, _) => Ok(a),
    }
}

fn text_cat(alloc: Global, a: &Text, b: &Text) -> Result<Text, AllocError>
    ensures { IfOk result (λ t. t ≡ text_cat a.now b.now) }
{
    match (a, b) {
        (Text::Within(a), Text::Within(b)) => match a.concat(alloc, b)? {
            Some(content) => Ok(Text::Within(content)),
            None => Ok(Text::Over),
        },
        _ => Ok(Text::Over),
    }
}

fn concatenation(alloc: Global, a: ExprVal, b: ExprVal) -> Result<ExprVal, AllocError>
    ensures value { IfOk result (λ v. v ≡ expr_cat a b) }
    ensures exact { is_plain_val a ≡ true → IsOk result }
{
    match (a, b) {
        (ExprVal::Text(a), ExprVal::Text(b)) => Ok(ExprVal::Text(text_cat(alloc, &a, &b)?)),
        (a, _) => Ok(a),
    }
}

/// What an operator makes of two values.
pub fn two_value(alloc: Global, op: TwoOp, a: ExprVal, b: ExprVal) -> Result<ExprVal, AllocError>
    ensures value { IfOk result (λ v. v ≡ two_value op a b) }
    ensures exact { is_plain_val a ≡ true → IsOk result }
{
    match op {
        TwoOp::Or => Ok(ExprVal::Flag(is_true(&a) || is_true(&b))),
        TwoOp::And => Ok(ExprVal::Flag(is_true(&a) && is_true(&b))),
        TwoOp::Eq => Ok(ExprVal::Flag(compare(&a, &b).is_eq())),
        TwoOp::Ne => Ok(ExprVal::Flag(compare(&a, &b).is_ne())),
        TwoOp::Lt => Ok(ExprVal::Flag(compare(&a, &b).is_lt())),
        TwoOp::Le => Ok(ExprVal::Flag(compare(&a, &b).is_le())),
        TwoOp::Gt => Ok(ExprVal::Flag(compare(&a, &b).is_gt())),
        TwoOp::Ge => Ok(ExprVal::Flag(compare(&a, &b).is_ge())),
        TwoOp::Cat => concatenation(alloc, a, b),
        TwoOp::Add => sum(alloc, a, b),
        TwoOp::Mul => product(alloc, a, b),
    }
}
