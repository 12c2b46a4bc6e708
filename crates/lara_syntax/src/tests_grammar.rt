//! The trees of small scripts, and the refusals of broken ones, with their places, worked out by hand.
ghost use Rattle.std.specs.Prelude.{◌≤◌, length};

use crate::ast::{
    Ast, AstBy, AstEntry, AstKeyCol, AstLit, AstName, AstNode, AstOp, AstStatement, AstType,
    AstValCol, AstValue,
};
use crate::ast_part::AstPair;
use crate::parsing::parse;
use crate::tests_exprs::{behind_defs, behind_expr, behind_key_def};
use crate::tests_shown::{behind, behind_number, behind_place, copy_of, is_end, is_refusal};
use lara_data::ReadFault;
use lara_key::KeyType;
use lara_semiring::ValType;
use std::alloc::{AllocError, Global};

// Each script with its tree: a statement, a table, an entry, a name and a value each with its place, and the types of
// columns; or its refusal.
const CASES: [(&[u8], &str); 46] = [
    (b"", ""),
    (b"# nothing\n", ""),
    (
        b"T=table[k:nat:v:count]{1:2;};print T by k;",
        "0 T@0 = 2 table k@8 nat : v@14 count { 23: 1@23 : 2@25 } 29 print T@35 37 by k@40 ",
    ),
    (
        b"T=table[:a:count,b:count]{:1,2;:3,4};",
        "0 T@0 = 2 table : a@9 count b@17 count { 26: : 1@27 2@29 31: : 3@32 4@34 } ",
    ),
    (
        b"T=table[k:nat,l:nat:v:count]{};print T by;print T;",
        "0 T@0 = 2 table k@8 nat l@14 nat : v@20 count { } 31 print T@37 39 by 42 print T@48 ",
    ),
    (
        b"T=table[n:nat,t:text,f:flag:c:count,d:minplus,w:maxmin,g:flag,l:last,p:path]{7,\"\\x41\\\"\",false:1,inf,2,true,\"\",none};",
        "0 T@0 = 2 table n@8 nat t@14 text f@21 flag : c@28 count d@36 minplus w@46 maxmin g@55 flag l@62 last p@69 path { 77: 7@77 A\"!@79 false@88 : 1@94 inf@96 2@100 true@102 !@107 none@110 } ",
    ),
    (
        b"C = agg (join A B) by i, j;",
        "0 C@0 = 4 agg 9 join 14 A@14 16 B@16 by i@22 j@25 ",
    ),
    (
        b"C = union load A ((agg T by));",
        "0 C@0 = 4 union 10 load A@15 19 agg 23 T@23 by ",
    ),
    (b"C = ((T));", "0 C@0 = 6 T@6 "),
    (
        b"B = rename (A) a to b, c to d;",
        "0 B@0 = 4 rename 12 A@12 a@15 b@20 c@23 d@28 ",
    ),
    (b"T = ;", "4 Unexpected"),
    (b"T = join A;", "10 Unexpected"),
    (b"T = join A agg B by;", "11 Unexpected"),
    (b"T = (A;", "6 Unexpected"),
    (b"T = (A", "6 Unexpected"),
    (b"T = agg A;", "9 Unexpected"),
    (b"T = agg A by i,;", "15 Unexpected"),
    (b"T = rename A a b;", "15 Unexpected"),
    (b"T = rename A a to;", "17 Unexpected"),
    (b"T = load;", "8 Unexpected"),
    (b"T = A B;", "6 Unexpected"),
    (b"T = ", "4 Unexpected"),
    (b"T", "1 Unexpected"),
    (b"= 1", "0 Unexpected"),
    (b"print", "5 Unexpected"),
    (b"print 5;", "6 Unexpected"),
    (b"print inf;", "6 Unexpected"),
    (b"print T by ,;", "11 Unexpected"),
    (b"print T by a,;", "13 Unexpected"),
    (b"print T by a b;", "13 Unexpected"),
    (b"T=table[];", "8 Unexpected"),
    (b"T=table[k:nat]{};", "13 Unexpected"),
    (b"T=table[k:count:v:count]{};", "10 Unexpected"),
    (b"T=table[k:nat:v:nat]{};", "16 Unexpected"),
    (b"T=table[:v:text]{};", "11 Unexpected"),
    (b"T=table[:v:count]{:1;;};", "21 Unexpected"),
    (b"T=table[:v:count]{;};", "18 Unexpected"),
    (b"T=table[:v:count]{1};", "19 Unexpected"),
    (b"T=table[:v:count]{1,:2};", "20 Unexpected"),
    (b"T=table[:v:count]{}", "19 Unexpected"),
    (b"T = \"x\";", "4 Unexpected"),
    (b"print 5 ! = =", "6 Unexpected"),
    (b"print T ! ;", "8 BadByte"),
    (b"print T;!", "8 BadByte"),
    (b"T = \"x", "4 BadText"),
    (
        b"print b1234567890123456789012345678901234567890123456789012345678901_34;",
        "6 TooLong",
    ),
];

// What is left behind `NAME@PLACE `.
pub fn behind_name<'a>(want: &'a [u8], name: &AstName) -> Option<&'a [u8]> {
    let rest = behind(want, name.name.bytes().as_slice())?;
    behind_place(behind(rest, b"@")?, name.at)
}

pub fn behind_names<'a>(want: &'a [u8], names: &[AstName]) -> Option<&'a [u8]> {
    let mut rest = want;
    for name in names {
        rest = behind_name(rest, name)?;
    }
    Some(rest)
}

fn behind_value<'a>(want: &'a [u8], value: &AstValue) -> Option<&'a [u8]> {
    match value {
        AstValue::Number(n) => behind_number(want, *n),
        AstValue::Text(text) => behind(behind(want, text.bytes().as_slice())?, b"!"),
        AstValue::Flag(true) => behind(want, b"true"),
        AstValue::Flag(false) => behind(want, b"false"),
        AstValue::Inf => behind(want, b"inf"),
        AstValue::None => behind(want, b"none"),
    }
}

// What is left behind `VALUE@PLACE `.
fn behind_lit<'a>(want: &'a [u8], lit: &AstLit) -> Option<&'a [u8]> {
    behind_place(behind(behind_value(want, &lit.value)?, b"@")?, lit.at)
}

fn behind_lits<'a>(want: &'a [u8], lits: &[AstLit]) -> Option<&'a [u8]> {
    let mut rest = want;
    for lit in lits {
        rest = behind_lit(rest, lit)?;
    }
    Some(rest)
}

fn behind_entry<'a>(want: &'a [u8], entry: &AstEntry) -> Option<&'a [u8]> {
    let rest = behind(behind_number(want, u64::from(entry.at))?, b": ")?;
    let rest = behind_lits(rest, entry.key.as_slice())?;
    behind_lits(behind(rest, b": ")?, entry.row.as_slice())
}

fn behind_entries<'a>(want: &'a [u8], entries: &[AstEntry]) -> Option<&'a [u8]> {
    let mut rest = behind(want, b"{ ")?;
    for entry in entries {
        rest = behind_entry(rest, entry)?;
    }
    behind(rest, b"} ")
}

// What is left behind a keyword and a space.
fn behind_word<'a>(want: &'a [u8], word: &[u8]) -> Option<&'a [u8]> {
    behind(behind(want, word)?, b" ")
}

fn key_type_name(ty: KeyType) -> &'static [u8] {
    match ty {
        KeyType::Nat => b"nat",
        KeyType::Text => b"text",
        KeyType::Flag => b"flag",
    }
}

fn val_type_name(ty: ValType) -> &'static [u8] {
    match ty {
        ValType::Count => b"count",
        ValType::MinPlus => b"minplus",
        ValType::MaxMin => b"maxmin",
        ValType::Flag => b"flag",
        ValType::Last => b"last",
        ValType::Path => b"path",
    }
}

// What is left behind a key column: its name and its type.
pub fn behind_key<'a>(want: &'a [u8], col: &AstKeyCol) -> Option<&'a [u8]> {
    behind_word(behind_name(want, &col.name)?, key_type_name(col.ty))
}

// What is left behind a value column likewise.
pub fn behind_val<'a>(want: &'a [u8], col: &AstValCol) -> Option<&'a [u8]> {
    behind_word(behind_name(want, &col.name)?, val_type_name(col.ty))
}

fn behind_keys<'a>(want: &'a [u8], keys: &[AstKeyCol]) -> Option<&'a [u8]> {
    let mut rest = want;
    for col in keys {
        rest = behind_key(rest, col)?;
    }
    Some(rest)
}

fn behind_vals<'a>(want: &'a [u8], vals: &[AstValCol]) -> Option<&'a [u8]> {
    let mut rest = want;
    for col in vals {
        rest = behind_val(rest, col)?;
    }
    Some(rest)
}

fn behind_type<'a>(want: &'a [u8], ty: &AstType) -> Option<&'a [u8]> {
    let rest = behind_keys(want, ty.keys.as_slice())?;
    behind_vals(behind(rest, b": ")?, ty.vals.as_slice())
}

fn behind_pairs<'a>(want: &'a [u8], pairs: &[AstPair]) -> Option<&'a [u8]> {
    let mut rest = want;
    for pair in pairs {
        rest = behind_name(behind_name(rest, &pair.old)?, &pair.new)?;
    }
    Some(rest)
}

// What is left behind a table: its place, its word and what follows, each operand likewise.
pub fn behind_node<'a>(want: &'a [u8], node: &AstNode) -> Option<&'a [u8]> {
    let rest = behind_place(want, node.at)?;
    match &node.op {
        AstOp::Load(name) => behind_name(behind(rest, b"load ")?, name),
        AstOp::Named(name) => behind_name(rest, name),
        AstOp::Literal(ty, entries) => {
            let rest = behind_type(behind(rest, b"table ")?, ty)?;
            behind_entries(rest, entries.as_slice())
        }
        AstOp::Join(a, b) => behind_node(behind_node(behind(rest, b"join ")?, a.get())?, b.get()),
        AstOp::Union(a, b) => {
            behind_node(behind_node(behind(rest, b"union ")?, a.get())?, b.get())
        }
        AstOp::Agg(a, names) => {
            let rest = behind_node(behind(rest, b"agg ")?, a.get())?;
            behind_names(behind(rest, b"by ")?, names.as_slice())
        }
        AstOp::Map(a, defs) => {
            let rest = behind_node(behind(rest, b"map ")?, a.get())?;
            behind_defs(rest, defs.list().as_slice())
        }
        AstOp::Filter(a, test) => {
            behind_expr(behind_node(behind(rest, b"filter ")?, a.get())?, test)
        }
        AstOp::Promote(a, def) => {
            behind_key_def(behind_node(behind(rest, b"promote ")?, a.get())?, def)
        }
        AstOp::Rename(a, pairs) => {
            let rest = behind_node(behind(rest, b"rename ")?, a.get())?;
            behind_pairs(rest, pairs.as_slice())
        }
        _ => None,
    }
}

fn behind_by<'a>(want: &'a [u8], by: &AstBy) -> Option<&'a [u8]> {
    let rest = behind(behind_place(want, by.at)?, b"by ")?;
    behind_names(rest, by.names.as_slice())
}

pub fn behind_statement<'a>(want: &'a [u8], statement: &AstStatement) -> Option<&'a [u8]> {
    match statement {
        AstStatement::Assign { at, name, node } => {
            let rest = behind_name(behind_place(want, *at)?, name)?;
            behind_node(behind(rest, b"= ")?, node)
        }
        AstStatement::Print { at, name, by } => {
            let rest = behind_name(behind(behind_place(want, *at)?, b"print ")?, name)?;
            match by {
                Some(by) => behind_by(rest, by),
                None => Some(rest),
            }
        }
        AstStatement::Store { at, old, new } => {
            let rest = behind(behind_place(want, *at)?, b"store ")?;
            behind_name(behind_name(rest, old)?, new)
        }
    }
}

fn behind_statements<'a>(want: &'a [u8], statements: &[AstStatement]) -> Option<&'a [u8]> {
    let mut rest = want;
    for statement in statements {
        rest = behind_statement(rest, statement)?;
    }
    Some(rest)
}

fn are_statements(want: &[u8], statements: &[AstStatement]) -> bool {
    is_end(behind_statements(want, statements))
}

// Whether the text shows a copy of the tree, so that copies are seen to be made.
fn is_copied_as(alloc: Global, ast: &Ast, want: &[u8]) -> Result<bool, AllocError> {
    let copy = copy_of(alloc, ast)?;
    Ok(are_statements(want, copy.statements.as_slice()))
}

// Whether the text shows the tree of the script, or its refusal.
pub fn is_parsed_as(alloc: Global, script: &[u8], want: &[u8]) -> Result<bool, AllocError>
    requires { length script.now ≤ 1048576 }
{
    match parse(alloc, script) {
        Ok(ast) => is_copied_as(alloc, &ast, want),
        Err(ReadFault::Refused(refusal)) => Ok(is_refusal(want, refusal)),
        Err(ReadFault::Memory) => Err(AllocError),
    }
}

#[test]
fn scripts_have_their_tree_or_their_refusal(rt: HostRuntime) -> Result<(), AllocError> {
    for (script, want) in CASES {
        if script.len() <= 1048576 {
            let is = is_parsed_as(rt.alloc(), script, want.as_bytes())?;
            assert!(rt; is, "at {want}");
        }
    }
    Ok(())
}

// A text, as many times another, and what stands behind them.
fn repeated(
    alloc: Global,
    before: &[u8],
    times: usize,
    text: &[u8],
    behind: &[u8],
) -> Result<Vec<u8>, AllocError> {
    let mut script = Vec::new(alloc);
    script.extend_from_slice(before)?;
    for _ in 0..times {
        script.extend_from_slice(text)?;
    }
    script.extend_from_slice(behind)?;
    Ok(script)
}

// Whether the text shows the tree or the refusal of as many times another between two.
pub fn are_parsed_as(
    alloc: Global,
    before: &[u8],
    times: usize,
    text: &[u8],
    behind: &[u8],
    want: &[u8],
) -> Result<bool, AllocError> {
    let script = repeated(alloc, before, times, text, behind)?;
    let bytes = script.as_slice();
    if bytes.len() > 1048576 {
        return Ok(false);
    }
    is_parsed_as(alloc, bytes, want)
}

#[test]
fn the_257th_statement_is_refused(rt: HostRuntime) -> Result<(), AllocError> {
    // Behind 256 statements of 8 bytes.
    let cases: [(&[u8], &str); 4] = [
        (b"print T;", "2048 TooMany"),
        (b" T", "2049 TooMany"),
        (b";", "2048 Unexpected"),
        (b"!", "2048 BadByte"),
    ];
    for (behind, want) in cases {
        let is = are_parsed_as(rt.alloc(), b"", 256, b"print T;", behind, want.as_bytes())?;
        assert!(rt; is, "at {want}");
    }
    Ok(())
}

#[test]
fn a_text_of_1025_bytes_is_refused(rt: HostRuntime) -> Result<(), AllocError> {
    let before: &[u8] = b"T=table[:v:last]{:\"";
    let is = are_parsed_as(rt.alloc(), before, 1025, b"a", b"\"};", b"18 BadText")?;
    assert!(rt; is);
    Ok(())
}

fn last_is(want: &[u8], statements: &[AstStatement]) -> bool {
    match statements.last() {
        Some(last) => is_end(behind_statement(want, last)),
        None => false,
    }
}

// How many statements a script has, where the text shows the last of them.
fn ends_as(alloc: Global, script: &[u8], want: &[u8]) -> Result<usize, ReadFault>
    requires { length script.now ≤ 1048576 }
{
    let ast = parse(alloc, script)?;
    if last_is(want, ast.statements.as_slice()) {
        Ok(ast.statements.len())
    } else {
        Ok(0)
    }
}

#[test]
fn the_256th_statement_is_read(rt: HostRuntime) -> Result<(), ReadFault> {
    let script = repeated(rt.alloc(), b"", 256, b"print T;", b"")?;
    let bytes = script.as_slice();
    if bytes.len() <= 1048576 {
        let count = ends_as(rt.alloc(), bytes, b"2040 print T@2046 ")?;
        assert_eq!(rt; count, 256);
    }
    Ok(())
}

// `T=`, as many times what opens a level, what stands inside, as many times `)`, and `;`.
fn nested(alloc: Global, times: usize, open: &[u8], inside: &[u8]) -> Result<Vec<u8>, AllocError> {
    let mut script = Vec::new(alloc);
    script.extend_from_slice(b"T=")?;
    for _ in 0..times {
        script.extend_from_slice(open)?;
    }
    script.extend_from_slice(inside)?;
    for _ in 0..times {
        script.push(b')')?;
    }
    script.push(b';')?;
    Ok(script)
}

#[test]
fn the_64th_level_is_read(rt: HostRuntime) -> Result<(), AllocError> {
    let script = nested(rt.alloc(), 64, b"(", b"A")?;
    let bytes = script.as_slice();
    if bytes.len() <= 1048576 {
        let is = is_parsed_as(rt.alloc(), bytes, b"0 T@0 = 66 A@66 ")?;
        assert!(rt; is);
    }
    Ok(())
}

#[test]
fn the_65th_level_is_refused(rt: HostRuntime) -> Result<(), AllocError> {
    let is = are_parsed_as(rt.alloc(), b"T=", 65, b"(", b"", b"66 TooMany")?;
    assert!(rt; is);
    Ok(())
}

#[test]
fn the_65th_operator_is_refused(rt: HostRuntime) -> Result<(), AllocError> {
    // Behind 63 operator words and as many levels, which take 506 bytes.
    let cases: [(&[u8], &str); 5] = [
        (b"agg A by ,", "515 Unexpected"),
        (b"union A (join", "515 TooMany"),
        (b"rename (rename", "514 TooMany"),
        (b"map (filter", "511 TooMany"),
        (b"union A join", "514 Unexpected"),
    ];
    for (behind, want) in cases {
        let is = are_parsed_as(rt.alloc(), b"T=", 63, b"join A (", behind, want.as_bytes())?;
        assert!(rt; is, "at {want}");
    }
    Ok(())
}

// Whether the text shows what is innermost on the right side of joins.
fn innermost_is(want: &[u8], node: &AstNode) -> bool {
    match &node.op {
        AstOp::Join(_, b) => innermost_is(want, b.get()),
        _ => is_end(behind_node(want, node)),
    }
}

fn assigns_innermost(want: &[u8], statements: &[AstStatement]) -> bool {
    match statements {
        [AstStatement::Assign { node, .. }] => innermost_is(want, node),
        _ => false,
    }
}

// Whether a script assigns joins, on whose right side the text shows what is innermost.
fn joins_innermost(alloc: Global, script: &[u8], want: &[u8]) -> Result<bool, ReadFault>
    requires { length script.now ≤ 1048576 }
{
    let ast = parse(alloc, script)?;
    Ok(assigns_innermost(want, ast.statements.as_slice()))
}

#[test]
fn the_64th_operator_is_read(rt: HostRuntime) -> Result<(), ReadFault> {
    let script = nested(rt.alloc(), 63, b"join A (", b"union A A")?;
    let bytes = script.as_slice();
    if bytes.len() <= 1048576 {
        let is = joins_innermost(rt.alloc(), bytes, b"506 union 512 A@512 514 A@514 ")?;
        assert!(rt; is);
    }
    Ok(())
}
