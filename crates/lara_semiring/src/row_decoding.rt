//! Rows read from their codes.
ghost use Rattle.std.specs.Prelude.{◌≡◌, ◌≤◌, length};
ghost use Rattle.lara_fields.specs.Fields.{Gives, picked};
ghost use Rattle.lara_fields.specs.TextCodes.{text_at};
ghost use Rattle.lara_semiring.specs.RowDecoding.{DecodesRow};
ghost use Rattle.lara_semiring.specs.RowReading.{path_of_text, path_parts, path_at, value_at, values_at, row_in};

use crate::path::PathText;
use crate::value::{Row, ValType, Value};
use lara_base::{List, Text};
use lara_fields::{Stop, flag_at, known_bytes, text_at, u64_at};
use std::alloc::Global;

/// Why bytes are no code of a row: the first byte of the first column that is cut short or has no reading, or of what is
/// left over behind the last column.
#[derive(Drop)]
pub enum RowFault {
    NotInGrammar { at: u32 },
    Memory,
}

/// The path of the text at the front, and what is behind it. The code of `over` is no path.
fn text_path_at(alloc: Global, bytes: &[u8]) -> Result<(PathText, &[u8]), Stop>
    ensures { Gives (λ x. (x.0, x.1.now)) result (picked path_of_text text_at bytes.now) }
{
    let (text, rest) = text_at(alloc, bytes)?;
    match text {
        Text::Within(content) => Ok((PathText::Within(content), rest)),
        Text::Over => Err(Stop::Refused { left: bytes.len() }),
    }
}

/// What the first byte says, and the text behind 00.
#[tactic(auto, unfolding(crate::specs::RowReading::path_parts))]
fn path_parts(alloc: Global, bytes: &[u8]) -> Result<(PathText, &[u8]), Stop>
    ensures { Gives (λ x. (x.0, x.1.now)) result (path_parts bytes.now) }
{
    match bytes {
        [] => Err(Stop::Refused { left: 0 }),
        [0, rest @ ..] => text_path_at(alloc, rest),
        [1, rest @ ..] => Ok((PathText::Over, rest)),
        [2, rest @ ..] => Ok((PathText::Absent, rest)),
        [_, rest @ ..] => Err(Stop::Refused { left: rest.len() }),
    }
}

/// A path, and what is behind it.
fn path_at(alloc: Global, bytes: &[u8]) -> Result<(PathText, &[u8]), Stop>
    ensures { Gives (λ x. (x.0, x.1.now)) result (path_at bytes.now) }
{
    match path_parts(alloc, bytes) {
        Ok(read) => Ok(read),
        Err(Stop::Memory) => Err(Stop::Memory),
        Err(Stop::Refused { .. }) => Err(Stop::Refused { left: bytes.len() }),
    }
}

/// A value of the type, and what is behind it.
#[tactic(auto, unfolding(crate::specs::RowReading::value_at))]
fn value_of(alloc: Global, ty: ValType, bytes: &[u8]) -> Result<(Value, &[u8]), Stop>
    ensures { Gives (λ x. (x.0, x.1.now)) result (value_at ty bytes.now) }
{
    match ty {
        ValType::Count => {
            let (number, rest) = u64_at(bytes)?;
            Ok((Value::Count(number), rest))
        }
        ValType::MinPlus => {
            let (number, rest) = u64_at(bytes)?;
            Ok((Value::MinPlus(number), rest))
        }
        ValType::MaxMin => {
            let (number, rest) = u64_at(bytes)?;
            Ok((Value::MaxMin(number), rest))
        }
        ValType::Flag => {
            let (flag, rest) = flag_at(bytes)?;
            Ok((Value::Flag(flag), rest))
        }
        ValType::Last => {
            let (text, rest) = text_at(alloc, bytes)?;
            Ok((Value::Last(text), rest))
        }
        ValType::Path => {
            let (path, rest) = path_at(alloc, bytes)?;
            Ok((Value::Path(path), rest))
        }
    }
}

/// A value of each type, and what is behind the last.
fn values_of<'a>(alloc: Global, tys: &[ValType], bytes: &'a [u8]) -> Result<(Row, &'a [u8]), Stop>
    ensures { Gives (λ x. (x.0, x.1.now)) result (values_at tys.now bytes.now) }
{
    let mut row = List::new(alloc);
    let mut rest = bytes;
    for ty in tys {
        let (value, after) = value_of(alloc, *ty, rest)?;
        row.push(value)?;
        rest = after;
    }
    Ok((row, rest))
}

/// The row that all of the bytes are.
fn whole_row(alloc: Global, tys: &List<ValType>, bytes: &[u8]) -> Result<Row, Stop>
    ensures { Gives (λ x. x) result (row_in tys.now bytes.now) }
{
    let (row, rest) = values_of(alloc, tys.as_slice(), bytes)?;
    if !rest.is_empty() {
        return Err(Stop::Refused { left: rest.len() });
    }
    Ok(row)
}

/// The row whose code the bytes are.
#[tactic(auto, using(crate::specs::RowDecoding::row_decoding_laws))]
pub fn decode_row(alloc: Global, tys: &List<ValType>, bytes: &[u8]) -> Result<Row, RowFault>
    requires { length bytes.now ≤ 4294967295 }
    ensures exact { DecodesRow tys.now bytes.now result }
{
    known_bytes(bytes);
    match whole_row(alloc, tys, bytes) {
        Ok(row) => Ok(row),
        Err(Stop::Memory) => Err(RowFault::Memory),
        Err(Stop::Refused { left }) => Err(RowFault::NotInGrammar {
            at: (bytes.len() - left) as u32,
        }),
    }
}
