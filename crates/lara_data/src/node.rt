//! The tree of a table: what makes it of other tables.
ghost use Rattle.std.specs.Prelude.{◌≡◌, IfOk};

use crate::arg::{Call, Def, KeyDef, NamePair};
use crate::entry::Entry;
use crate::expr::Expr;
use crate::table_type::TableType;
use lara_base::{Boxed, Copied, List, Name};
use std::alloc::{AllocError, Global};

/// A table of this type.
#[cycle(node)]
pub struct Node {
    pub ty: TableType,
    pub op: Op,
}

/// What makes a table. `Load` reads a stored table, `Named` one that the script assigned before.
#[cycle(node)]
pub enum Op {
    Load(Name),
    Named(Name),
    Literal(List<Entry>),
    Join(Boxed<Node>, Boxed<Node>),
    Union(Boxed<Node>, Boxed<Node>),
    Agg(Boxed<Node>, List<Name>),
    Map(Boxed<Node>, List<Def>),
    Filter(Boxed<Node>, Expr),
    Promote(Boxed<Node>, KeyDef),
    Rename(Boxed<Node>, List<NamePair>),
    Apply(Boxed<Node>, Call),
}

impl Drop for Node {
    #[cycle(drop_node)]
    fn drop(self) {
        let Node { ty: _ty, op: _op } = self;
    }
}

impl Drop for Op {
    #[cycle(drop_node)]
    fn drop(self) {
        match self {
            Op::Load(_name) => {}
            Op::Named(_name) => {}
            Op::Literal(_entries) => {}
            Op::Join(a, b) => {
                let _a = a.into_inner();
                let _b = b.into_inner();
            }
            Op::Union(a, b) => {
                let _a = a.into_inner();
                let _b = b.into_inner();
            }
            Op::Agg(a, _names) => {
                let _a = a.into_inner();
            }
            Op::Map(a, _defs) => {
                let _a = a.into_inner();
            }
            Op::Filter(a, _test) => {
                let _a = a.into_inner();
            }
            Op::Promote(a, _def) => {
                let _a = a.into_inner();
            }
            Op::Rename(a, _pairs) => {
                let _a = a.into_inner();
            }
            Op::Apply(a, _call) => {
                let _a = a.into_inner();
            }
        }
    }
}

impl Copied for Node {
    #[cycle(copy_node)]
    fn copy(&self, alloc: Global) -> Result<Node, AllocError> {
        Ok(Node {
            ty: self.ty.copy(alloc)?,
            op: self.op.copy(alloc)?,
        })
    }
}

impl Copied for Op {
    #[cycle(copy_node)]
    fn copy(&self, alloc: Global) -> Result<Op, AllocError> {
        match self {
            Op::Load(name) => Ok(Op::Load(name.copy(alloc)?)),
            Op::Named(name) => Ok(Op::Named(name.copy(alloc)?)),
            Op::Literal(entries) => Ok(Op::Literal(entries.copy(alloc)?)),
            Op::Join(a, b) => Ok(Op::Join(
                Boxed::new(alloc, a.get().copy(alloc)?)?,
                Boxed::new(alloc, b.get().copy(alloc)?)?,
            )),
            Op::Union(a, b) => Ok(Op::Union(
                Boxed::new(alloc, a.get().copy(alloc)?)?,
                Boxed::new(alloc, b.get().copy(alloc)?)?,
            )),
            Op::Agg(a, keys) => Ok(Op::Agg(
                Boxed::new(alloc, a.get().copy(alloc)?)?,
                keys.copy(alloc)?,
            )),
            Op::Map(a, defs) => Ok(Op::Map(
                Boxed::new(alloc, a.get().copy(alloc)?)?,
                defs.copy(alloc)?,
            )),
            Op::Filter(a, test) => Ok(Op::Filter(
                Boxed::new(alloc, a.get().copy(alloc)?)?,
                test.copy(alloc)?,
            )),
            Op::Promote(a, def) => Ok(Op::Promote(
                Boxed::new(alloc, a.get().copy(alloc)?)?,
                def.copy(alloc)?,
            )),
            Op::Rename(a, pairs) => Ok(Op::Rename(
                Boxed::new(alloc, a.get().copy(alloc)?)?,
                pairs.copy(alloc)?,
            )),
            Op::Apply(a, call) => Ok(Op::Apply(
                Boxed::new(alloc, a.get().copy(alloc)?)?,
                call.copy(alloc)?,
            )),
        }
    }
}
