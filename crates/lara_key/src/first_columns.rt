//! How long the code of the first columns of a key is.
ghost use Rattle.std.specs.Prelude.{◌≡◌, ◌≤◌, ◌*◌, ◌-◌, length, take};
ghost use Rattle.std.specs.Option.{option_map};
ghost use Rattle.lara_fields.specs.Skipping.{behind};
ghost use Rattle.lara_key.specs.KeyReading.{column_at, columns_at};
ghost use Rattle.lara_key.specs.PrefixLengths.{IsPrefixLen};

use crate::key::KeyType;
use lara_base::List;
use lara_fields::{flag_behind, known_bytes, text_behind, u64_behind};

/// What is behind the column at the front.
#[tactic(auto, using(crate::proofs::BehindFacts::behind_made), unfolding(crate::specs::KeyReading::column_at))]
fn column_behind(ty: KeyType, bytes: &[u8]) -> Option<&[u8]>
    ensures { option_map (λ x. x.now) result ≡ behind (column_at ty bytes.now) }
{
    match ty {
        KeyType::Nat => u64_behind(bytes),
        KeyType::Text => text_behind(bytes),
        KeyType::Flag => flag_behind(bytes),
    }
}

/// What is behind the columns at the front.
fn columns_behind<'a>(tys: &[KeyType], columns: usize, bytes: &'a [u8]) -> Option<&'a [u8]>
    requires { columns ≤ length tys.now }
    ensures { option_map (λ x. x.now) result ≡ behind (columns_at (take columns tys.now) bytes.now) }
{
    let mut rest = bytes;
    for ty in &tys[..columns] {
        rest = column_behind(*ty, rest)?;
    }
    Some(rest)
}

/// The length of the code of the first columns; `None` where the key does not begin with such a code.
#[tactic(auto, using(crate::specs::PrefixLengths::prefix_len_laws))]
pub fn prefix_len(tys: &List<KeyType>, columns: u32, key: &[u8]) -> Option<u32>
    requires there { columns ≤ length tys.now }
    requires few { columns ≤ 65535 }
    ensures { IsPrefixLen (take columns tys.now) key.now result }
{
    known_bytes(key);
    match columns_behind(tys.as_slice(), columns as usize, key) {
        Some(rest) => Some((key.len() - rest.len()) as u32),
        None => None,
    }
}
