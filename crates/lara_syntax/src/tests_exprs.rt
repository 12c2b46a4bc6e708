//! The trees of small scripts with expressions, and the refusals of broken ones, with their places, worked out by hand.
ghost use Rattle.std.specs.Prelude.{◌≤◌, length};

use crate::ast_expr::{AstExpr, AstForm};
use crate::ast_part::{AstDef, AstKeyDef};
use crate::tests_grammar::{are_parsed_as, behind_key, behind_val, is_parsed_as};
use crate::tests_shown::{behind, behind_number, behind_place};
use lara_data::{FunOp, TwoOp};
use std::alloc::AllocError;

// Each script with its tree: an expression at its place by its word and its parts; or its refusal.
const CASES: [(&[u8], &str); 12] = [
    (
        b"M = map A to v: count = a + b * 2, w: flag = not (a < 3) and true;",
        "0 M@0 = 4 map 8 A@8 v@13 count 26 + 24 a 30 * 28 b 32 2 w@35 flag 57 and 45 not 52 < 50 a 54 3 61 true ",
    ),
    (
        b"P = promote A to k: text = if f then \"x\" else text(none);",
        "0 P@0 = 4 promote 12 A@12 k@17 text 27 if 30 f 37 x! 46 text 51 none ",
    ),
    (
        b"F = filter (A) where num(inf == dist(1)) >= len(\"\" ++ t) or path(t) != none;",
        "0 F@0 = 4 filter 12 A@12 57 or 41 >= 21 num 29 == 25 inf 32 dist 37 1 44 len 51 ++ 48 ! 54 t 68 != 60 path 65 t 71 none ",
    ),
    (
        b"F = filter A where false > (a <= 1);",
        "0 F@0 = 4 filter 11 A@11 25 > 19 false 30 <= 28 a 33 1 ",
    ),
    (b"F = filter T where", "18 Unexpected"),
    (b"F = filter T where a < b < c;", "25 Unexpected"),
    (b"F = filter T to a;", "13 Unexpected"),
    (b"M = map T;", "9 Unexpected"),
    (b"M = map T to;", "12 Unexpected"),
    (b"M = map T to v: nat = 1;", "16 Unexpected"),
    (b"M = map T to v: count = 1,;", "26 Unexpected"),
    (b"P = promote T to k = 1;", "19 Unexpected"),
];

fn two_text(op: TwoOp) -> &'static [u8] {
    match op {
        TwoOp::Or => b"or ",
        TwoOp::And => b"and ",
        TwoOp::Eq => b"== ",
        TwoOp::Ne => b"!= ",
        TwoOp::Lt => b"< ",
        TwoOp::Le => b"<= ",
        TwoOp::Gt => b"> ",
        TwoOp::Ge => b">= ",
        TwoOp::Cat => b"++ ",
        TwoOp::Add => b"+ ",
        TwoOp::Mul => b"* ",
    }
}

fn fun_text(op: FunOp) -> &'static [u8] {
    match op {
        FunOp::Num => b"num ",
        FunOp::Dist => b"dist ",
        FunOp::Len => b"len ",
        FunOp::Path => b"path ",
        FunOp::Text => b"text ",
    }
}

/// What is left behind an expression: its place, its word and what follows, each part likewise.
pub fn behind_expr<'a>(want: &'a [u8], expr: &AstExpr) -> Option<&'a [u8]> {
    let rest = behind_place(want, expr.at)?;
    match &expr.form {
        AstForm::Column(name) => behind(behind(rest, name.bytes().as_slice())?, b" "),
        AstForm::Number(n) => behind(behind_number(rest, *n)?, b" "),
        AstForm::Text(text) => behind(behind(rest, text.bytes().as_slice())?, b"! "),
        AstForm::Flag(true) => behind(rest, b"true "),
        AstForm::Flag(false) => behind(rest, b"false "),
        AstForm::Inf => behind(rest, b"inf "),
        AstForm::None => behind(rest, b"none "),
        AstForm::Two(op, a, b) => {
            behind_expr(behind_expr(behind(rest, two_text(*op))?, a.get())?, b.get())
        }
        AstForm::Not(a) => behind_expr(behind(rest, b"not ")?, a.get()),
        AstForm::If(test, a, b) => {
            let rest = behind_expr(behind(rest, b"if ")?, test.get())?;
            behind_expr(behind_expr(rest, a.get())?, b.get())
        }
        AstForm::Fun(op, a) => behind_expr(behind(rest, fun_text(*op))?, a.get()),
    }
}

/// What is left behind definitions: each a column and its expression.
pub fn behind_defs<'a>(want: &'a [u8], defs: &[AstDef]) -> Option<&'a [u8]> {
    let mut rest = want;
    for def in defs {
        rest = behind_expr(behind_val(rest, &def.col)?, &def.expr)?;
    }
    Some(rest)
}

/// What is left behind a key column and its expression.
pub fn behind_key_def<'a>(want: &'a [u8], def: &AstKeyDef) -> Option<&'a [u8]> {
    behind_expr(behind_key(want, &def.col)?, &def.expr)
}

#[test]
fn expressions_have_their_tree_or_their_refusal(rt: HostRuntime) -> Result<(), AllocError> {
    for (script, want) in CASES {
        if script.len() <= 1048576 {
            let is = is_parsed_as(rt.alloc(), script, want.as_bytes())?;
            assert!(rt; is, "at {want}");
        }
    }
    Ok(())
}

#[test]
fn a_65th_level_of_an_expression_is_refused(rt: HostRuntime) -> Result<(), AllocError> {
    let before: &[u8] = b"T=filter A where ";
    let alone = are_parsed_as(rt.alloc(), before, 65, b"(", b"", b"81 TooMany")?;
    assert!(rt; alone);
    // One level is left to the table, and its expression opens two.
    let behind: &[u8] = b"filter A where ((";
    let inside = are_parsed_as(rt.alloc(), b"T=", 63, b"(", behind, b"81 TooMany")?;
    assert!(rt; inside);
    Ok(())
}

#[test]
fn a_1025th_sign_is_refused(rt: HostRuntime) -> Result<(), AllocError> {
    let before: &[u8] = b"T=filter A where a";
    let more = are_parsed_as(rt.alloc(), before, 1024, b"+a", b"*a;", b"2066 TooMany")?;
    assert!(rt; more);
    // With 1,024 the statement ends, and a sign that begins none is behind it.
    let most = are_parsed_as(rt.alloc(), before, 1024, b"+a", b";;", b"2067 Unexpected")?;
    assert!(rt; most);
    Ok(())
}
