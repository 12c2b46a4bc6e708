//! The tree of a script, with the places of its words. A place is a byte of the script, counted from 0.
use crate::ast_expr::AstExpr;
use crate::ast_part::{AstCall, AstDefs, AstKeyDef, AstPair};
use lara_base::{Boxed, Content, List, Name};
use lara_key::KeyType;
use lara_semiring::ValType;
use std::marker::Model;

/// A script.
#[derive(Drop)]
pub struct Ast {
    pub statements: List<AstStatement>,
}

/// A name at its place.
#[derive(Drop)]
pub struct AstName {
    pub name: Name,
    pub at: u32,
}

/// The word `by` of a print, with the order behind it.
#[derive(Drop)]
pub struct AstBy {
    pub at: u32,
    pub names: List<AstName>,
}

/// A statement; `at` is its first word.
#[derive(Drop)]
pub enum AstStatement {
    Assign {
        at: u32,
        name: AstName,
        node: AstNode,
    },
    Print {
        at: u32,
        name: AstName,
        by: Option<AstBy>,
    },
    /// What stands under `old` is stored under `new`.
    Store {
        at: u32,
        old: AstName,
        new: AstName,
    },
}

/// A table; `at` is its first token other than `(`.
#[cycle(ast_node)]
pub struct AstNode {
    pub at: u32,
    pub op: AstOp,
}

/// What makes a table.
#[cycle(ast_node)]
pub enum AstOp {
    Load(AstName),
    Named(AstName),
    Literal(AstType, List<AstEntry>),
    Join(Boxed<AstNode>, Boxed<AstNode>),
    Union(Boxed<AstNode>, Boxed<AstNode>),
    Agg(Boxed<AstNode>, List<AstName>),
    Map(Boxed<AstNode>, AstDefs),
    Filter(Boxed<AstNode>, AstExpr),
    Promote(Boxed<AstNode>, AstKeyDef),
    Rename(Boxed<AstNode>, List<AstPair>),
    Apply(Boxed<AstNode>, AstCall),
}

impl Drop for AstNode {
    #[cycle(drop_node)]
    fn drop(self) {
        let AstNode { at: _at, op: _op } = self;
    }
}

impl Drop for AstOp {
    #[cycle(drop_node)]
    fn drop(self) {
        match self {
            AstOp::Load(_name) => {}
            AstOp::Named(_name) => {}
            AstOp::Literal(_ty, _entries) => {}
            AstOp::Join(a, b) => {
                let _a = a.into_inner();
                let _b = b.into_inner();
            }
            AstOp::Union(a, b) => {
                let _a = a.into_inner();
                let _b = b.into_inner();
            }
            AstOp::Agg(a, _names) => {
                let _a = a.into_inner();
            }
            AstOp::Map(a, _defs) => {
                let _a = a.into_inner();
            }
            AstOp::Filter(a, _test) => {
                let _a = a.into_inner();
            }
            AstOp::Promote(a, _def) => {
                let _a = a.into_inner();
            }
            AstOp::Rename(a, _pairs) => {
                let _a = a.into_inner();
            }
            AstOp::Apply(a, _call) => {
                let _a = a.into_inner();
            }
        }
    }
}

/// A key column of a literal.
#[derive(Drop)]
pub struct AstKeyCol {
    pub name: AstName,
    pub ty: KeyType,
}

/// A value column of a literal.
#[derive(Drop)]
pub struct AstValCol {
    pub name: AstName,
    pub ty: ValType,
}

/// The columns of a literal, at least one of them a value column.
#[derive(Drop)]
pub struct AstType {
    pub keys: List<AstKeyCol>,
    pub vals: List<AstValCol>,
}

impl Model for AstType {
    ghost use Rattle.std.specs.Prelude.{◌<◌, length};
    ghost use Rattle.lara_syntax.specs.AstTypes.{AstColumns};

    ghost Value = { AstColumns };

    ghost view = { λ t. record { keys = t.keys; vals = t.vals } };

    ghost invariant = { λ t. 0 < length t.vals };
}

/// A key and a row of a literal; `at` is its first word.
#[derive(Drop)]
pub struct AstEntry {
    pub at: u32,
    pub key: List<AstLit>,
    pub row: List<AstLit>,
}

/// A value as it is written.
#[derive(Drop)]
pub struct AstLit {
    pub at: u32,
    pub value: AstValue,
}

/// The value of a literal, before its column's type is known.
#[derive(Drop)]
pub enum AstValue {
    Number(u64),
    Text(Content),
    Flag(bool),
    Inf,
    None,
}
