//! Rows as bytes.
ghost use Rattle.std.specs.Prelude.{◌≡◌, [], ◌++◌, true, OnOk, IfOk, IsOk};
ghost use Rattle.lara_semiring.specs.RowCodes.{path_code, value_code, row_code};
ghost use Rattle.lara_semiring.specs.RowDecoding.{AreApart};
ghost use Rattle.lara_semiring.specs.Rows.{row_has};

use crate::path::PathText;
use crate::value::{Row, ValType, Value};
use lara_base::{Bytes, List};
use lara_fields::{push_content, push_flag, push_text, push_u64};
use std::alloc::{AllocError, Global};

/// Adds the code of a path.
fn push_path(out: &mut Bytes, path: &PathText) -> Result<(), AllocError>
    ensures { OnOk result (out.new ≡ out.old ++ path_code path.now) }
{
    match path {
        PathText::Within(content) => {
            out.push(0)?;
            push_content(out, content)
        }
        PathText::Over => out.push(1),
        PathText::Absent => out.push(2),
    }
}

/// Adds the code of a value.
#[tactic(auto, unfolding(crate::specs::RowCodes::value_code))]
fn push_value(out: &mut Bytes, value: &Value) -> Result<(), AllocError>
    ensures { OnOk result (out.new ≡ out.old ++ value_code value.now) }
{
    match value {
        Value::Count(number) => push_u64(out, *number),
        Value::MinPlus(number) => push_u64(out, *number),
        Value::MaxMin(number) => push_u64(out, *number),
        Value::Flag(flag) => push_flag(out, *flag),
        Value::Last(text) => push_text(out, text),
        Value::Path(path) => push_path(out, path),
    }
}

/// The code of a row: the codes of its columns one after the other.
pub fn encode_row(alloc: Global, row: &Row) -> Result<Bytes, AllocError>
    ensures code { IfOk result (λ bytes. bytes ≡ row_code row.now) }
    ensures empty { row.now ≡ [] → IsOk result }
{
    let mut out = List::new(alloc);
    for value in row.as_slice() {
        push_value(&mut out, value)?;
    }
    Ok(out)
}

/// Tells a proof that codes of rows of the same types are read in one way. It does nothing when it runs.
pub fn row_codes_apart(tys: &List<ValType>, a: &Row, b: &Row)
    requires left { row_has tys.now a.now ≡ true }
    requires right { row_has tys.now b.now ≡ true }
    ensures { AreApart a.now b.now }
{}
