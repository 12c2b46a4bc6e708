//! Orders of key columns, and what is done with each entry of a table alone.
ghost use Rattle.std.specs.Prelude.{◌≡◌, IfOk};

use crate::arg::{Call, Def, KeyDef};
use crate::expr::Expr;
use lara_base::{Copied, List, Name};
use std::alloc::{AllocError, Global};

/// The names of a table's key columns, in the sequence by which its entries rise.
pub type Order = List<Name>;

/// What is done with each entry alone.
#[derive(Drop)]
pub enum EachOp {
    Map(List<Def>),
    Filter(Expr),
    Promote(KeyDef),
    Apply(Call),
}

impl Copied for EachOp {
    fn copy(&self, alloc: Global) -> Result<EachOp, AllocError> {
        match self {
            EachOp::Map(defs) => Ok(EachOp::Map(defs.copy(alloc)?)),
            EachOp::Filter(test) => Ok(EachOp::Filter(test.copy(alloc)?)),
            EachOp::Promote(def) => Ok(EachOp::Promote(def.copy(alloc)?)),
            EachOp::Apply(call) => Ok(EachOp::Apply(call.copy(alloc)?)),
        }
    }
}
