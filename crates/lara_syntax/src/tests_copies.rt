//! Copies of tokens and of parts of a tree, each by the bound alone. A copy is compared with the text that shows it.
ghost use Rattle.std.specs.Prelude.{◌<◌, length, IfOk};

use crate::ast::{
    AstEntry, AstKeyCol, AstLit, AstName, AstNode, AstOp, AstStatement, AstType, AstValCol,
    AstValue,
};
use crate::ast_expr::{AstExpr, AstForm};
use crate::ast_part::{AstArg, AstArgLit, AstArgValue, AstCall, AstDef, AstDefs, AstKeyDef};
use crate::tests_exprs::behind_expr;
use crate::tests_grammar::{behind_name, behind_names, behind_node, behind_statement};
use crate::tests_shown::{behind, behind_number, behind_place, copy_of, is_end};
use crate::tests_tokens::{are_shown, behind_word};
use crate::token::{Token, TokenList, TokenWord};
use lara_base::{Boxed, Content, Copied, List, Name};
use lara_data::{FunOp, Kind, Refusal, TwoOp};
use lara_key::KeyType;
use lara_semiring::ValType;
use std::alloc::{AllocError, Global};
use std::test::Fail;

// What a copy of it is; each type is copied through the bound.
fn copied<T: Copied + Drop>(alloc: Global, made: Result<T, AllocError>) -> Result<T, AllocError> {
    copy_of(alloc, &made?)
}

fn both<A: Drop, B: Drop>(
    a: Result<A, AllocError>,
    b: Result<B, AllocError>,
) -> Result<(A, B), AllocError> {
    Ok((a?, b?))
}

// The list of one element.
fn one<T: Drop>(alloc: Global, made: Result<T, AllocError>) -> Result<List<T>, AllocError>
    ensures { IfOk result (λ list. 0 < length list) }
{
    let mut list = List::new(alloc);
    list.push(made?)?;
    Ok(list)
}

fn name(alloc: Global, letter: u8) -> Result<Name, AllocError> {
    Name::new(List::from_slice(alloc, &[letter])?).ok_or(AllocError)
}

fn text(alloc: Global, letter: u8) -> Result<Content, AllocError> {
    Content::new(List::from_slice(alloc, &[letter])?).ok_or(AllocError)
}

// The name at the place 7.
fn placed(alloc: Global, letter: u8) -> Result<AstName, AllocError> {
    Ok(AstName {
        name: name(alloc, letter)?,
        at: 7,
    })
}

// ---- expressions

fn number(n: u64) -> AstExpr {
    AstExpr {
        at: 4,
        form: AstForm::Number(n),
    }
}

fn boxed(alloc: Global, n: u64) -> Result<Boxed<AstExpr>, AllocError> {
    Ok(Boxed::new(alloc, number(n))?)
}

fn column(alloc: Global) -> Result<AstForm, AllocError> {
    Ok(AstForm::Column(name(alloc, b'c')?))
}

fn text_form(alloc: Global) -> Result<AstForm, AllocError> {
    Ok(AstForm::Text(text(alloc, b't')?))
}

fn sum(alloc: Global) -> Result<AstForm, AllocError> {
    let (a, b) = both(boxed(alloc, 2), boxed(alloc, 3))?;
    Ok(AstForm::Two(TwoOp::Add, a, b))
}

fn negation(alloc: Global) -> Result<AstForm, AllocError> {
    Ok(AstForm::Not(boxed(alloc, 2)?))
}

fn choice(alloc: Global) -> Result<AstForm, AllocError> {
    let branches = both(boxed(alloc, 3), boxed(alloc, 4));
    let (test, (a, b)) = both(boxed(alloc, 2), branches)?;
    Ok(AstForm::If(test, a, b))
}

fn fun(alloc: Global) -> Result<AstForm, AllocError> {
    Ok(AstForm::Fun(FunOp::Num, boxed(alloc, 2)?))
}

// Whether the text shows the copy of an expression of this form at the place 4.
fn is_copied_as(
    alloc: Global,
    form: Result<AstForm, AllocError>,
    want: &[u8],
) -> Result<bool, AllocError> {
    let expr = AstExpr { at: 4, form: form? };
    let copy = copy_of(alloc, &expr)?;
    Ok(is_end(behind_expr(want, &copy)))
}

#[test]
fn leaves_of_expressions_are_copied(rt: HostRuntime) -> Result<(), Fail> {
    let alloc = rt.alloc();
    assert!(rt; is_copied_as(alloc, Ok(AstForm::Number(5)), b"4 5 ")?);
    assert!(rt; is_copied_as(alloc, column(alloc), b"4 c ")?);
    assert!(rt; is_copied_as(alloc, text_form(alloc), b"4 t! ")?);
    assert!(rt; is_copied_as(alloc, Ok(AstForm::Flag(true)), b"4 true ")?);
    assert!(rt; is_copied_as(alloc, Ok(AstForm::Inf), b"4 inf ")?);
    assert!(rt; is_copied_as(alloc, Ok(AstForm::None), b"4 none ")?);
    Ok(())
}

#[test]
fn operators_of_expressions_are_copied(rt: HostRuntime) -> Result<(), Fail> {
    let alloc = rt.alloc();
    assert!(rt; is_copied_as(alloc, sum(alloc), b"4 + 4 2 4 3 ")?);
    assert!(rt; is_copied_as(alloc, negation(alloc), b"4 not 4 2 ")?);
    assert!(rt; is_copied_as(alloc, choice(alloc), b"4 if 4 2 4 3 4 4 ")?);
    assert!(rt; is_copied_as(alloc, fun(alloc), b"4 num 4 2 ")?);
    Ok(())
}

// ---- tables

fn key_col(alloc: Global) -> Result<AstKeyCol, AllocError> {
    Ok(AstKeyCol {
        name: placed(alloc, b'k')?,
        ty: KeyType::Nat,
    })
}

fn val_col(alloc: Global) -> Result<AstValCol, AllocError> {
    Ok(AstValCol {
        name: placed(alloc, b'v')?,
        ty: ValType::Count,
    })
}

fn columns(alloc: Global) -> Result<AstType, AllocError> {
    let keys = one(alloc, key_col(alloc))?;
    let vals = one(alloc, val_col(alloc))?;
    Ok(AstType { keys, vals })
}

fn text_value(alloc: Global) -> Result<AstValue, AllocError> {
    Ok(AstValue::Text(text(alloc, b't')?))
}

// The literal of a copied value at the place 7.
fn lit(alloc: Global, value: Result<AstValue, AllocError>) -> Result<AstLit, AllocError> {
    Ok(AstLit {
        at: 7,
        value: copied(alloc, value)?,
    })
}

// A key that is a text, and one value.
fn entry(alloc: Global, value: AstValue) -> Result<AstEntry, AllocError> {
    let key = lit(alloc, text_value(alloc));
    let (key, row) = both(one(alloc, key), one(alloc, lit(alloc, Ok(value))))?;
    Ok(AstEntry { at: 7, key, row })
}

fn literal_op(alloc: Global, value: AstValue) -> Result<AstOp, AllocError> {
    let entries = one(alloc, entry(alloc, value));
    let (ty, entries) = both(copied(alloc, columns(alloc)), entries)?;
    Ok(AstOp::Literal(ty, entries))
}

// The table of a name at the place 7.
fn named(alloc: Global) -> Result<Boxed<AstNode>, AllocError> {
    let op = AstOp::Named(placed(alloc, b'T')?);
    Ok(Boxed::new(alloc, AstNode { at: 7, op })?)
}

fn def(alloc: Global) -> Result<AstDef, AllocError> {
    Ok(AstDef {
        col: val_col(alloc)?,
        expr: number(5),
    })
}

fn key_def(alloc: Global) -> Result<AstKeyDef, AllocError> {
    Ok(AstKeyDef {
        col: key_col(alloc)?,
        expr: number(6),
    })
}

fn column_arg(alloc: Global) -> Result<AstArg, AllocError> {
    Ok(AstArg::Column(placed(alloc, b'a')?))
}

fn literal_arg(value: AstArgValue) -> AstArg {
    AstArg::Literal(AstArgLit { at: 7, value })
}

fn text_arg(alloc: Global) -> Result<AstArg, AllocError> {
    Ok(literal_arg(AstArgValue::Text(text(alloc, b't')?)))
}

// A call with one argument and one column.
fn call(alloc: Global, arg: Result<AstArg, AllocError>) -> Result<AstCall, AllocError> {
    let lists = both(one(alloc, arg), one(alloc, placed(alloc, b'c')));
    let (plugin, (args, cols)) = both(placed(alloc, b'p'), lists)?;
    Ok(AstCall { plugin, args, cols })
}

fn defs(alloc: Global) -> Result<AstDefs, AllocError> {
    AstDefs::new(one(alloc, def(alloc))?).ok_or(AllocError)
}

fn map_op(alloc: Global) -> Result<AstOp, AllocError> {
    let (a, defs) = both(named(alloc), defs(alloc))?;
    Ok(AstOp::Map(a, defs))
}

fn filter_op(alloc: Global) -> Result<AstOp, AllocError> {
    Ok(AstOp::Filter(named(alloc)?, number(5)))
}

fn promote_op(alloc: Global) -> Result<AstOp, AllocError> {
    let (a, def) = both(named(alloc), copied(alloc, key_def(alloc)))?;
    Ok(AstOp::Promote(a, def))
}

fn apply_op(alloc: Global, arg: Result<AstArg, AllocError>) -> Result<AstOp, AllocError> {
    let (a, call) = both(named(alloc), copied(alloc, call(alloc, arg)))?;
    Ok(AstOp::Apply(a, call))
}

fn behind_arg_value<'a>(want: &'a [u8], value: &AstArgValue) -> Option<&'a [u8]> {
    match value {
        AstArgValue::Number(n) => behind_number(want, *n),
        AstArgValue::Text(text) => behind(behind(want, text.bytes().as_slice())?, b"!"),
        AstArgValue::Flag(true) => behind(want, b"true"),
        AstArgValue::Flag(false) => behind(want, b"false"),
    }
}

// What is left behind `VALUE@PLACE `.
fn behind_arg<'a>(want: &'a [u8], lit: &AstArgLit) -> Option<&'a [u8]> {
    behind_place(behind(behind_arg_value(want, &lit.value)?, b"@")?, lit.at)
}

fn behind_args<'a>(want: &'a [u8], args: &[AstArg]) -> Option<&'a [u8]> {
    let mut rest = want;
    for arg in args {
        rest = match arg {
            AstArg::Column(name) => behind_name(rest, name)?,
            AstArg::Literal(lit) => behind_arg(rest, lit)?,
        };
    }
    Some(rest)
}

// What is left behind a table that no rule of the grammar makes: its place, its word and what follows.
fn behind_table<'a>(want: &'a [u8], node: &AstNode) -> Option<&'a [u8]> {
    let rest = behind_place(want, node.at)?;
    match &node.op {
        AstOp::Apply(a, call) => {
            let rest = behind_node(behind(rest, b"apply ")?, a.get())?;
            let rest = behind_args(behind_name(rest, &call.plugin)?, call.args.as_slice())?;
            behind_names(behind(rest, b"by ")?, call.cols.as_slice())
        }
        _ => behind_node(want, node),
    }
}

// Whether the text shows the copy of what this makes at the place 7.
fn is_table_copied_as(
    alloc: Global,
    op: Result<AstOp, AllocError>,
    want: &[u8],
) -> Result<bool, AllocError> {
    let node = AstNode { at: 7, op: op? };
    let copy = copy_of(alloc, &node)?;
    Ok(is_end(behind_table(want, &copy)))
}

#[test]
fn literals_are_copied(rt: HostRuntime) -> Result<(), Fail> {
    let alloc = rt.alloc();
    let inf = literal_op(alloc, AstValue::Inf);
    assert!(rt;
        is_table_copied_as(
            alloc,
            inf,
            b"7 table k@7 nat : v@7 count { 7: t!@7 : inf@7 } "
        )?
    );
    let none = literal_op(alloc, AstValue::None);
    assert!(rt;
        is_table_copied_as(
            alloc,
            none,
            b"7 table k@7 nat : v@7 count { 7: t!@7 : none@7 } "
        )?
    );
    Ok(())
}

#[test]
fn operators_are_copied(rt: HostRuntime) -> Result<(), Fail> {
    let alloc = rt.alloc();
    assert!(rt; is_table_copied_as(alloc, map_op(alloc), b"7 map 7 T@7 v@7 count 4 5 ")?);
    assert!(rt; is_table_copied_as(alloc, filter_op(alloc), b"7 filter 7 T@7 4 5 ")?);
    assert!(rt; is_table_copied_as(alloc, promote_op(alloc), b"7 promote 7 T@7 k@7 nat 4 6 ")?);
    Ok(())
}

#[test]
fn calls_are_copied(rt: HostRuntime) -> Result<(), Fail> {
    let alloc = rt.alloc();
    let column = apply_op(alloc, column_arg(alloc));
    assert!(rt; is_table_copied_as(alloc, column, b"7 apply 7 T@7 p@7 a@7 by c@7 ")?);
    let flag = apply_op(alloc, Ok(literal_arg(AstArgValue::Flag(true))));
    assert!(rt; is_table_copied_as(alloc, flag, b"7 apply 7 T@7 p@7 true@7 by c@7 ")?);
    let text = apply_op(alloc, text_arg(alloc));
    assert!(rt; is_table_copied_as(alloc, text, b"7 apply 7 T@7 p@7 t!@7 by c@7 ")?);
    Ok(())
}

fn store(alloc: Global) -> Result<AstStatement, AllocError> {
    let (old, new) = both(placed(alloc, b'i'), placed(alloc, b'j'))?;
    Ok(AstStatement::Store { at: 7, old, new })
}

fn is_store_copied_as(alloc: Global, want: &[u8]) -> Result<bool, AllocError> {
    let copy = copied(alloc, store(alloc))?;
    Ok(is_end(behind_statement(want, &copy)))
}

#[test]
fn statements_are_copied(rt: HostRuntime) -> Result<(), Fail> {
    assert!(rt; is_store_copied_as(rt.alloc(), b"7 store i@7 j@7 ")?);
    Ok(())
}

// ---- tokens

fn text_word(alloc: Global) -> Result<TokenWord, AllocError> {
    Ok(TokenWord::Text(text(alloc, b't')?))
}

fn is_word_copied_as(
    alloc: Global,
    word: Result<TokenWord, AllocError>,
    want: &[u8],
) -> Result<bool, AllocError> {
    let copy = copied(alloc, word)?;
    Ok(is_end(behind_word(want, &copy)))
}

// The list of one token, behind which there is a byte that is none.
fn token_list(alloc: Global) -> Result<TokenList, AllocError> {
    let token = Token {
        at: 2,
        len: 1,
        word: TokenWord::Number(9),
    };
    Ok(TokenList {
        list: one(alloc, Ok(token))?,
        stopped: Some(Refusal {
            at: 3,
            kind: Kind::BadByte,
        }),
    })
}

fn is_list_copied_as(alloc: Global, want: &[u8]) -> Result<bool, AllocError> {
    let copy = copied(alloc, token_list(alloc))?;
    Ok(are_shown(want, &copy))
}

#[test]
fn tokens_are_copied(rt: HostRuntime) -> Result<(), Fail> {
    let alloc = rt.alloc();
    assert!(rt; is_word_copied_as(alloc, text_word(alloc), b"text 74 , ")?);
    assert!(rt; is_word_copied_as(alloc, Ok(TokenWord::Name), b"name, ")?);
    assert!(rt; is_word_copied_as(alloc, Ok(TokenWord::Keyword), b"keyword, ")?);
    assert!(rt; is_word_copied_as(alloc, Ok(TokenWord::Sign), b"sign, ")?);
    assert!(rt; is_list_copied_as(alloc, b"2+1 number 9, 3 BadByte")?);
    Ok(())
}
