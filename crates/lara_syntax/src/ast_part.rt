//! What the operators of a table hold: definitions, pairs of names and calls.
ghost use Rattle.std.specs.Prelude.{◌≡◌, ◌<◌, [], length, MatchOption};

use crate::ast::{AstKeyCol, AstName, AstValCol};
use crate::ast_expr::AstExpr;
use lara_base::{Content, Copied, List};
use std::alloc::{AllocError, Global};
use std::marker::Model;

/// A value column and what it is for each row.
#[derive(Drop)]
pub struct AstDef {
    pub col: AstValCol,
    pub expr: AstExpr,
}

/// The definitions of a map, at least one.
#[derive(Drop)]
pub struct AstDefs {
    list: List<AstDef>,
}

impl Model for AstDefs {
    ghost use Rattle.std.specs.Prelude.{◌<◌, List, length};
    ghost use Rattle.std.specs.Coded.{codes};
    ghost use Rattle.lara_syntax.specs.declared.ast_part.AstDef.{AstDef};
    ghost use Rattle.lara_syntax.specs.contracts.ast_expr.AstForm as form;

    ghost Value = { List AstDef };

    ghost coded = { Prim.hlevel (codes, form.the_row.coded) };

    ghost view = { λ d. d.list };

    ghost invariant = { λ d. 0 < length d.list };
}

impl AstDefs {
    /// These definitions, where there is one at least.
    pub fn new(list: List<AstDef>) -> Option<AstDefs>
        ensures { MatchOption result (list ≡ []) (λ d. d ≡ list) }
    {
        if list.is_empty() {
            None
        } else {
            Some(AstDefs { list })
        }
    }

    /// These definitions, of which there is one at least.
    pub fn of(list: List<AstDef>) -> AstDefs
        requires { 0 < length list }
        ensures { result ≡ list }
    {
        AstDefs { list }
    }

    /// The definitions in place, with no copy.
    pub fn list(&self) -> &List<AstDef>
        ensures value { result.now ≡ self.now }
        ensures some { 0 < length self.now }
    {
        &self.list
    }
}

impl Copied for AstDefs {
    fn copy(&self, alloc: Global) -> Result<AstDefs, AllocError> {
        Ok(AstDefs {
            list: self.list.copy(alloc)?,
        })
    }
}

/// A key column and what it is for each row.
#[derive(Drop)]
pub struct AstKeyDef {
    pub col: AstKeyCol,
    pub expr: AstExpr,
}

/// A column's name, and the name that it gets.
#[derive(Drop)]
pub struct AstPair {
    pub old: AstName,
    pub new: AstName,
}

/// A plugin, with what it is called on.
#[derive(Drop)]
pub struct AstCall {
    pub plugin: AstName,
    pub args: List<AstArg>,
    pub cols: List<AstName>,
}

/// An argument of a plugin.
#[derive(Drop)]
pub enum AstArg {
    Column(AstName),
    Literal(AstArgLit),
}

/// A literal argument, at its place.
#[derive(Drop)]
pub struct AstArgLit {
    pub at: u32,
    pub value: AstArgValue,
}

/// The value of a literal argument, which is neither `inf` nor `none`.
#[derive(Drop)]
pub enum AstArgValue {
    Number(u64),
    Text(Content),
    Flag(bool),
}
