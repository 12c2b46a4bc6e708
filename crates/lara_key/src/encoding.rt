//! Keys as bytes that keep their order.
ghost use Rattle.std.specs.Prelude.{◌≡◌, [], ◌++◌, true, OnOk, IfOk, IsOk};
ghost use Rattle.lara_key.specs.CodeOrder.{KeepOrder};
ghost use Rattle.lara_key.specs.KeyCodes.{key_code, tuple_code};
ghost use Rattle.lara_key.specs.Keys.{tuple_has};

use crate::key::{KeyType, KeyVal, Tuple};
use lara_base::{Bytes, List};
use lara_fields::{push_flag, push_text, push_u64};
use std::alloc::{AllocError, Global};

/// Adds the code of a column.
#[tactic(auto, unfolding(crate::specs::KeyCodes::key_code))]
fn push_column(out: &mut Bytes, column: &KeyVal) -> Result<(), AllocError>
    ensures { OnOk result (out.new ≡ out.old ++ key_code column.now) }
{
    match column {
        KeyVal::Nat(number) => push_u64(out, *number),
        KeyVal::Text(text) => push_text(out, text),
        KeyVal::Flag(flag) => push_flag(out, *flag),
    }
}

/// The code of a tuple: the codes of its columns one after the other.
pub fn encode(alloc: Global, tuple: &Tuple) -> Result<Bytes, AllocError>
    ensures code { IfOk result (λ bytes. bytes ≡ tuple_code tuple.now) }
    ensures empty { tuple.now ≡ [] → IsOk result }
{
    let mut out = List::new(alloc);
    for column in tuple.as_slice() {
        push_column(&mut out, column)?;
    }
    Ok(out)
}

/// Tells a proof that codes of tuples of the same types compare as the tuples do. It does nothing when it runs.
pub fn codes_keep_order(tys: &List<KeyType>, a: &Tuple, b: &Tuple)
    requires left { tuple_has tys.now a.now ≡ true }
    requires right { tuple_has tys.now b.now ≡ true }
    ensures { KeepOrder a.now b.now }
{}
