//! Functions of one value, from one type to another. A value of another type than the function's, which no typed
//! expression gives it, stays.
ghost use Rattle.std.specs.Prelude.{◌≡◌};
ghost use Rattle.lara_data.specs.ExprValues.{num_value, dist_value, len_value, path_value, text_value, fun_value};

use lara_base::{Content, Text};
use lara_data::{ExprVal, FunOp};
use lara_semiring::PathText;
use std::alloc::Global;

/// What stands for all numbers past the range.
const OVER: u64 = u64::MAX;

/// What stands for all distances past the range.
const FAR: u64 = u64::MAX - 1;

fn number_of(value: ExprVal) -> ExprVal
    ensures { result ≡ num_value value }
{
    match value {
        ExprVal::MinPlus(n) => ExprVal::Number(if n < FAR { n } else { OVER }),
        ExprVal::Flag(b) => ExprVal::Number(u64::from(b)),
        other => other,
    }
}

fn distance_of(value: ExprVal) -> ExprVal
    ensures { result ≡ dist_value value }
{
    match value {
        ExprVal::Number(n) => ExprVal::MinPlus(n.min(FAR)),
        other => other,
    }
}

fn length_of(value: ExprVal) -> ExprVal
    ensures { result ≡ len_value value }
{
    match value {
        ExprVal::Text(Text::Within(content)) => ExprVal::Number(content.bytes().len() as u64),
        ExprVal::Text(Text::Over) => ExprVal::Number(OVER),
        other => other,
    }
}

fn path_of(value: ExprVal) -> ExprVal
    ensures { result ≡ path_value value }
{
    match value {
        ExprVal::Text(Text::Within(content)) => ExprVal::Path(PathText::Within(content)),
        ExprVal::Text(Text::Over) => ExprVal::Path(PathText::Over),
        other => other,
    }
}

fn text_of(alloc: Global, value: ExprVal) -> ExprVal
    ensures { result ≡ text_value value }
{
    match value {
        ExprVal::Path(PathText::Within(content)) => ExprVal::Text(Text::Within(content)),
        ExprVal::Path(PathText::Over) => ExprVal::Text(Text::Over),
        ExprVal::Path(PathText::Absent) => ExprVal::Text(Text::Within(Content::empty(alloc))),
        other => other,
    }
}

/// What a function makes of a value. It takes no memory.
pub fn fun_value(alloc: Global, f: FunOp, value: ExprVal) -> ExprVal
    ensures { result ≡ fun_value f value }
{
    match f {
        FunOp::Num => number_of(value),
        FunOp::Dist => distance_of(value),
        FunOp::Len => length_of(value),
        FunOp::Path => path_of(value),
        FunOp::Text => text_of(alloc, value),
    }
}
