//! Expressions over the columns of one entry.
ghost use Rattle.std.specs.Prelude.{◌≡◌, IsTrue, IfOk, IsOk};
ghost use Rattle.lara_data.specs.Atoms.{is_atom};

use lara_base::{Boxed, Content, Copied, Name};
use std::alloc::{AllocError, Global};

/// An operator between two expressions.
#[derive(Clone, Copy, Debug, PartialEq, Eq)]
pub enum TwoOp {
    Or,
    And,
    Eq,
    Ne,
    Lt,
    Le,
    Gt,
    Ge,
    Cat,
    Add,
    Mul,
}

/// A function of one expression, from one type to another.
#[derive(Clone, Copy, Debug, PartialEq, Eq)]
pub enum FunOp {
    Num,
    Dist,
    Len,
    Path,
    Text,
}

/// An expression. `Inf` is the endless distance of `minplus`, `None` the absent path.
pub enum Expr {
    Column(Name),
    Number(u64),
    Text(Content),
    Flag(bool),
    Inf,
    None,
    Two(TwoOp, Boxed<Expr>, Boxed<Expr>),
    Not(Boxed<Expr>),
    If(Boxed<Expr>, Boxed<Expr>, Boxed<Expr>),
    Fun(FunOp, Boxed<Expr>),
}

impl Drop for Expr {
    fn drop(self) {
        match self {
            Expr::Column(_name) => {}
            Expr::Number(_n) => {}
            Expr::Text(_text) => {}
            Expr::Flag(_b) => {}
            Expr::Inf => {}
            Expr::None => {}
            Expr::Two(_op, a, b) => {
                let _a = a.into_inner();
                let _b = b.into_inner();
            }
            Expr::Not(a) => {
                let _a = a.into_inner();
            }
            Expr::If(c, a, b) => {
                let _c = c.into_inner();
                let _a = a.into_inner();
                let _b = b.into_inner();
            }
            Expr::Fun(_f, a) => {
                let _a = a.into_inner();
            }
        }
    }
}

impl Copied for TwoOp {
    fn copy(&self, _alloc: Global) -> Result<TwoOp, AllocError>
        ensures same { IfOk result (λ r. r ≡ self.now) }
        ensures exact { IsOk result }
    {
        Ok(*self)
    }
}

impl Copied for FunOp {
    fn copy(&self, _alloc: Global) -> Result<FunOp, AllocError>
        ensures same { IfOk result (λ r. r ≡ self.now) }
        ensures exact { IsOk result }
    {
        Ok(*self)
    }
}

impl Copied for Expr {
    fn copy(&self, alloc: Global) -> Result<Expr, AllocError>
        ensures same { IfOk result (λ r. r ≡ self.now) }
        ensures exact { IsTrue (is_atom self.now) → IsOk result }
    {
        match self {
            Expr::Column(name) => Ok(Expr::Column(name.copy(alloc)?)),
            Expr::Number(n) => Ok(Expr::Number(*n)),
            Expr::Text(text) => Ok(Expr::Text(text.copy(alloc)?)),
            Expr::Flag(b) => Ok(Expr::Flag(*b)),
            Expr::Inf => Ok(Expr::Inf),
            Expr::None => Ok(Expr::None),
            Expr::Two(op, a, b) => Ok(Expr::Two(
                *op,
                Boxed::new(alloc, a.get().copy(alloc)?)?,
                Boxed::new(alloc, b.get().copy(alloc)?)?,
            )),
            Expr::Not(a) => Ok(Expr::Not(Boxed::new(alloc, a.get().copy(alloc)?)?)),
            Expr::If(c, a, b) => Ok(Expr::If(
                Boxed::new(alloc, c.get().copy(alloc)?)?,
                Boxed::new(alloc, a.get().copy(alloc)?)?,
                Boxed::new(alloc, b.get().copy(alloc)?)?,
            )),
            Expr::Fun(f, a) => Ok(Expr::Fun(*f, Boxed::new(alloc, a.get().copy(alloc)?)?)),
        }
    }
}
