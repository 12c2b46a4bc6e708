//! Copies of the tree, node by node.
ghost use Rattle.std.specs.Prelude.{◌≡◌, [], IfOk, IsOk, IsTrue};
ghost use Rattle.lara_syntax.specs.Atoms.{is_plain_value};

use crate::ast::{
    Ast, AstBy, AstEntry, AstKeyCol, AstLit, AstName, AstNode, AstOp, AstStatement, AstType,
    AstValCol, AstValue,
};
use lara_base::{Boxed, Copied};
use std::alloc::{AllocError, Global};

impl Copied for Ast {
    fn copy(&self, alloc: Global) -> Result<Ast, AllocError>
        ensures same { IfOk result (λ r. r ≡ self.now) }
        ensures empty { self.now.statements ≡ [] → IsOk result }
    {
        Ok(Ast {
            statements: self.statements.copy(alloc)?,
        })
    }
}

impl Copied for AstName {
    fn copy(&self, alloc: Global) -> Result<AstName, AllocError> {
        Ok(AstName {
            name: self.name.copy(alloc)?,
            at: self.at,
        })
    }
}

impl Copied for AstBy {
    fn copy(&self, alloc: Global) -> Result<AstBy, AllocError>
        ensures same { IfOk result (λ r. r ≡ self.now) }
        ensures empty { self.now.names ≡ [] → IsOk result }
    {
        Ok(AstBy {
            at: self.at,
            names: self.names.copy(alloc)?,
        })
    }
}

impl Copied for AstStatement {
    fn copy(&self, alloc: Global) -> Result<AstStatement, AllocError> {
        match self {
            AstStatement::Assign { at, name, node } => Ok(AstStatement::Assign {
                at: *at,
                name: name.copy(alloc)?,
                node: node.copy(alloc)?,
            }),
            AstStatement::Print { at, name, by } => Ok(AstStatement::Print {
                at: *at,
                name: name.copy(alloc)?,
                by: by.copy(alloc)?,
            }),
            AstStatement::Store { at, old, new } => Ok(AstStatement::Store {
                at: *at,
                old: old.copy(alloc)?,
                new: new.copy(alloc)?,
            }),
        }
    }
}

impl Copied for AstNode {
    #[cycle(copy_node)]
    fn copy(&self, alloc: Global) -> Result<AstNode, AllocError> {
        Ok(AstNode {
            at: self.at,
            op: self.op.copy(alloc)?,
        })
    }
}

impl Copied for AstOp {
    #[cycle(copy_node)]
    fn copy(&self, alloc: Global) -> Result<AstOp, AllocError> {
        match self {
            AstOp::Load(name) => Ok(AstOp::Load(name.copy(alloc)?)),
            AstOp::Named(name) => Ok(AstOp::Named(name.copy(alloc)?)),
            AstOp::Literal(ty, entries) => {
                Ok(AstOp::Literal(ty.copy(alloc)?, entries.copy(alloc)?))
            }
            AstOp::Join(a, b) => Ok(AstOp::Join(
                Boxed::new(alloc, a.get().copy(alloc)?)?,
                Boxed::new(alloc, b.get().copy(alloc)?)?,
            )),
            AstOp::Union(a, b) => Ok(AstOp::Union(
                Boxed::new(alloc, a.get().copy(alloc)?)?,
                Boxed::new(alloc, b.get().copy(alloc)?)?,
            )),
            AstOp::Agg(a, names) => Ok(AstOp::Agg(
                Boxed::new(alloc, a.get().copy(alloc)?)?,
                names.copy(alloc)?,
            )),
            AstOp::Map(a, defs) => Ok(AstOp::Map(
                Boxed::new(alloc, a.get().copy(alloc)?)?,
                defs.copy(alloc)?,
            )),
            AstOp::Filter(a, expr) => Ok(AstOp::Filter(
                Boxed::new(alloc, a.get().copy(alloc)?)?,
                expr.copy(alloc)?,
            )),
            AstOp::Promote(a, def) => Ok(AstOp::Promote(
                Boxed::new(alloc, a.get().copy(alloc)?)?,
                def.copy(alloc)?,
            )),
            AstOp::Rename(a, pairs) => Ok(AstOp::Rename(
                Boxed::new(alloc, a.get().copy(alloc)?)?,
                pairs.copy(alloc)?,
            )),
            AstOp::Apply(a, call) => Ok(AstOp::Apply(
                Boxed::new(alloc, a.get().copy(alloc)?)?,
                call.copy(alloc)?,
            )),
        }
    }
}

impl Copied for AstKeyCol {
    fn copy(&self, alloc: Global) -> Result<AstKeyCol, AllocError> {
        Ok(AstKeyCol {
            name: self.name.copy(alloc)?,
            ty: self.ty,
        })
    }
}

impl Copied for AstValCol {
    fn copy(&self, alloc: Global) -> Result<AstValCol, AllocError> {
        Ok(AstValCol {
            name: self.name.copy(alloc)?,
            ty: self.ty,
        })
    }
}

impl Copied for AstType {
    fn copy(&self, alloc: Global) -> Result<AstType, AllocError> {
        Ok(AstType {
            keys: self.keys.copy(alloc)?,
            vals: self.vals.copy(alloc)?,
        })
    }
}

impl Copied for AstEntry {
    fn copy(&self, alloc: Global) -> Result<AstEntry, AllocError>
        ensures same { IfOk result (λ r. r ≡ self.now) }
        ensures empty { self.now.key ≡ [] → self.now.row ≡ [] → IsOk result }
    {
        Ok(AstEntry {
            at: self.at,
            key: self.key.copy(alloc)?,
            row: self.row.copy(alloc)?,
        })
    }
}

impl Copied for AstLit {
    fn copy(&self, alloc: Global) -> Result<AstLit, AllocError>
        ensures same { IfOk result (λ r. r ≡ self.now) }
        ensures exact { IsTrue (is_plain_value self.now.value) → IsOk result }
    {
        Ok(AstLit {
            at: self.at,
            value: self.value.copy(alloc)?,
        })
    }
}

impl Copied for AstValue {
    fn copy(&self, alloc: Global) -> Result<AstValue, AllocError>
        ensures same { IfOk result (λ r. r ≡ self.now) }
        ensures exact { IsTrue (is_plain_value self.now) → IsOk result }
    {
        match self {
            AstValue::Number(n) => Ok(AstValue::Number(*n)),
            AstValue::Text(text) => Ok(AstValue::Text(text.copy(alloc)?)),
            AstValue::Flag(flag) => Ok(AstValue::Flag(*flag)),
            AstValue::Inf => Ok(AstValue::Inf),
            AstValue::None => Ok(AstValue::None),
        }
    }
}
