//! What operators are given beside their operands.
ghost use Rattle.std.specs.Prelude.{◌≡◌, IsTrue, IfOk, IsOk};
ghost use Rattle.lara_data.specs.Atoms.{is_plain_arg};

use crate::expr::Expr;
use crate::table_type::{KeyCol, ValCol};
use lara_base::{Copied, List, Name};
use lara_key::KeyVal;
use std::alloc::{AllocError, Global};

/// An argument of a plugin: a key column of the operand, or a value.
#[derive(Drop)]
pub enum Arg {
    Column(Name),
    Literal(KeyVal),
}

/// A call of a plugin, with the key columns that it adds.
#[derive(Drop)]
pub struct Call {
    pub plugin: Name,
    pub args: List<Arg>,
    pub cols: List<KeyCol>,
}

/// A value column and what it is computed from.
#[derive(Drop)]
pub struct Def {
    pub col: ValCol,
    pub expr: Expr,
}

/// A new key column and what it is computed from.
#[derive(Drop)]
pub struct KeyDef {
    pub col: KeyCol,
    pub expr: Expr,
}

/// A column's name and its new one.
#[derive(Drop)]
pub struct NamePair {
    pub old: Name,
    pub new: Name,
}

impl Copied for Arg {
    fn copy(&self, alloc: Global) -> Result<Arg, AllocError>
        ensures same { IfOk result (λ r. r ≡ self.now) }
        ensures exact { IsTrue (is_plain_arg self.now) → IsOk result }
    {
        match self {
            Arg::Column(name) => Ok(Arg::Column(name.copy(alloc)?)),
            Arg::Literal(value) => Ok(Arg::Literal(value.copy(alloc)?)),
        }
    }
}

impl Copied for Call {
    fn copy(&self, alloc: Global) -> Result<Call, AllocError> {
        Ok(Call {
            plugin: self.plugin.copy(alloc)?,
            args: self.args.copy(alloc)?,
            cols: self.cols.copy(alloc)?,
        })
    }
}

impl Copied for Def {
    fn copy(&self, alloc: Global) -> Result<Def, AllocError> {
        Ok(Def {
            col: self.col.copy(alloc)?,
            expr: self.expr.copy(alloc)?,
        })
    }
}

impl Copied for KeyDef {
    fn copy(&self, alloc: Global) -> Result<KeyDef, AllocError> {
        Ok(KeyDef {
            col: self.col.copy(alloc)?,
            expr: self.expr.copy(alloc)?,
        })
    }
}

impl Copied for NamePair {
    fn copy(&self, alloc: Global) -> Result<NamePair, AllocError> {
        Ok(NamePair {
            old: self.old.copy(alloc)?,
            new: self.new.copy(alloc)?,
        })
    }
}
