//! Keys read from their codes.
ghost use Rattle.std.specs.Prelude.{◌≡◌, ◌≤◌, length};
ghost use Rattle.lara_fields.specs.Fields.{Gives};
ghost use Rattle.lara_key.specs.Decoding.{Decodes};
ghost use Rattle.lara_key.specs.KeyReading.{column_at, columns_at, tuple_in};

use crate::key::{KeyType, KeyVal, Tuple};
use lara_base::List;
use lara_fields::{Stop, flag_at, known_bytes, text_at, u64_at};
use std::alloc::Global;

/// Why bytes are no code of a tuple: the first byte of the first column that is cut short or has no reading, or of what
/// is left over behind the last column.
#[derive(Drop)]
pub enum KeyFault {
    NotInGrammar { at: u32 },
    Memory,
}

/// A column of the type, and what is behind it.
#[tactic(auto, unfolding(crate::specs::KeyReading::column_at))]
fn column_of(alloc: Global, ty: KeyType, bytes: &[u8]) -> Result<(KeyVal, &[u8]), Stop>
    ensures { Gives (λ x. (x.0, x.1.now)) result (column_at ty bytes.now) }
{
    match ty {
        KeyType::Nat => {
            let (number, rest) = u64_at(bytes)?;
            Ok((KeyVal::Nat(number), rest))
        }
        KeyType::Text => {
            let (text, rest) = text_at(alloc, bytes)?;
            Ok((KeyVal::Text(text), rest))
        }
        KeyType::Flag => {
            let (flag, rest) = flag_at(bytes)?;
            Ok((KeyVal::Flag(flag), rest))
        }
    }
}

/// A column of each type, and what is behind the last.
fn columns_of<'a>(
    alloc: Global,
    tys: &[KeyType],
    bytes: &'a [u8],
) -> Result<(Tuple, &'a [u8]), Stop>
    ensures { Gives (λ x. (x.0, x.1.now)) result (columns_at tys.now bytes.now) }
{
    let mut tuple = List::new(alloc);
    let mut rest = bytes;
    for ty in tys {
        let (column, after) = column_of(alloc, *ty, rest)?;
        tuple.push(column)?;
        rest = after;
    }
    Ok((tuple, rest))
}

/// The tuple that all of the bytes are.
fn whole_tuple(alloc: Global, tys: &List<KeyType>, bytes: &[u8]) -> Result<Tuple, Stop>
    ensures { Gives (λ x. x) result (tuple_in tys.now bytes.now) }
{
    let (tuple, rest) = columns_of(alloc, tys.as_slice(), bytes)?;
    if !rest.is_empty() {
        return Err(Stop::Refused { left: rest.len() });
    }
    Ok(tuple)
}

/// The tuple whose code the bytes are.
#[tactic(auto, using(crate::specs::Decoding::decoding_laws))]
pub fn decode(alloc: Global, tys: &List<KeyType>, bytes: &[u8]) -> Result<Tuple, KeyFault>
    requires { length bytes.now ≤ 4294967295 }
    ensures exact { Decodes tys.now bytes.now result }
{
    known_bytes(bytes);
    match whole_tuple(alloc, tys, bytes) {
        Ok(tuple) => Ok(tuple),
        Err(Stop::Memory) => Err(KeyFault::Memory),
        Err(Stop::Refused { left }) => Err(KeyFault::NotInGrammar {
            at: (bytes.len() - left) as u32,
        }),
    }
}
