//! Scripts where there is memory, with what they are refused for worked out by hand.
ghost use Rattle.std.specs.Prelude.{◌≡◌, ◌≤◌, true, length, map, IfOk};
ghost use Rattle.lara_data.specs.Names.{distinct};

use crate::check;
use crate::tests::{columns, name};
use crate::tests_made::{both, one};
use lara_base::{Boxed, Content, Copied, List};
use lara_data::{Kind, Op, ReadFault, Schema, Script, Statement};
use lara_key::KeyType;
use lara_semiring::ValType;
use lara_syntax::{
    Ast, AstCall, AstDef, AstDefs, AstEntry, AstExpr, AstForm, AstKeyCol, AstKeyDef, AstLit,
    AstName, AstNode, AstOp, AstStatement, AstType, AstValCol, AstValue, parse,
};
use std::alloc::{AllocError, Global};
use std::test::Fail;

// Over no stored tables.
#[tactic(auto, unfolding(lara_data::specs::Names::distinct))]
fn checked(alloc: Global, tree: &Ast) -> Result<Script, ReadFault> {
    let stored: List<Schema> = List::new(alloc);
    check(alloc, tree, &stored, &Vec::new(alloc))
}

// Two stored tables, B with the key column k and C with i, each with the value column v.
#[tactic(auto, unfolding(lara_data::specs::Names::distinct, lara_data::specs::Names::has, lara_data::specs::Names::same_name))]
fn two_stored(alloc: Global) -> Result<List<Schema>, AllocError>
    ensures { IfOk result (λ ss. distinct (map (λ s. s.name) ss) ≡ true) }
{
    let mut stored = List::new(alloc);
    stored.push(Schema {
        name: name(alloc, b'B')?,
        ty: columns(alloc, b"k", b"v")?,
    })?;
    stored.push(Schema {
        name: name(alloc, b'C')?,
        ty: columns(alloc, b"i", b"v")?,
    })?;
    Ok(stored)
}

// The script of a text, over the two stored tables.
fn read(alloc: Global, script: &[u8]) -> Result<Script, ReadFault>
    requires { length script.now ≤ 1048576 }
{
    let tree = parse(alloc, script)?;
    let stored = two_stored(alloc)?;
    check(alloc, &tree, &stored, &Vec::new(alloc))
}

fn refuses(checked: Result<Script, ReadFault>, at: u32, kind: Kind) -> bool {
    match checked {
        Ok(_) => false,
        Err(ReadFault::Memory) => false,
        Err(ReadFault::Refused(refusal)) => refusal.at == at && refusal.kind == kind,
    }
}

fn is_accepted(checked: Result<Script, ReadFault>) -> bool {
    checked.is_ok()
}

// Whether a text is refused for this, over the two stored tables.
fn is_refused(alloc: Global, script: &[u8], at: u32, kind: Kind) -> bool
    requires { length script.now ≤ 1048576 }
{
    refuses(read(alloc, script), at, kind)
}

// Whether a text has a typed script of so many statements, over the two stored tables.
fn has_statements(alloc: Global, script: &[u8], statements: usize) -> bool
    requires { length script.now ≤ 1048576 }
{
    match read(alloc, script) {
        Ok(script) => script.statements.len() == statements,
        Err(_) => false,
    }
}

#[test]
fn loads_have_the_type_that_is_stored(rt: HostRuntime) {
    let alloc = rt.alloc();
    assert!(rt; has_statements(alloc, b"A=load B;print A by k;", 2));
    assert!(rt; has_statements(alloc, b"A=load C;print A by i;", 2));
    assert!(rt; is_refused(alloc, b"A=load C;print A by k;", 17, Kind::NotAnOrder));
    assert!(rt; is_refused(alloc, b"A=load K;", 7, Kind::NoTable));
}

#[test]
fn scripts_are_refused_at_the_word(rt: HostRuntime) {
    let alloc = rt.alloc();
    assert!(rt;
        is_refused(
            alloc,
            b"T=table[k:nat:v:count]{};print T by v;",
            33,
            Kind::NotAnOrder
        )
    );
}

// An agg that breaks both of its rules, one that breaks the second, and a join of two unknown names.
#[test]
fn the_first_broken_rule_is_the_refusal(rt: HostRuntime) {
    let alloc = rt.alloc();
    assert!(rt;
        is_refused(
            alloc,
            b"A=table[i:nat:v:count]{};B=agg A by i,i,z;",
            40,
            Kind::NotAKey
        )
    );
    assert!(rt;
        is_refused(
            alloc,
            b"A=table[i:nat:v:count]{};B=agg A by i,i;",
            38,
            Kind::NameTwice
        )
    );
    assert!(rt; is_refused(alloc, b"A=join U V;", 7, Kind::NoName));
}

#[test]
fn operators_have_types(rt: HostRuntime) {
    let alloc = rt.alloc();
    assert!(rt;
        has_statements(
            alloc,
            b"A=table[k:nat:v:count]{1:2};B=union A A;C=join A B;D=agg C by;print D;print C;",
            6
        )
    );
}

// How many entries the literal has that a statement assigns.
fn entries_of(statement: Option<&Statement>) -> Option<usize> {
    match statement {
        Some(Statement::Assign(_, node)) => match &node.op {
            Op::Literal(entries) => Some(entries.len()),
            _ => None,
        },
        _ => None,
    }
}

// Whether the first statement of a typed script assigns a literal of so many entries.
fn starts_with(script: &Script, entries: usize) -> bool {
    entries_of(script.statements.as_slice().first()) == Some(entries)
}

fn copy_of<T: Copied>(alloc: Global, value: &T) -> Result<T, AllocError> {
    value.copy(alloc)
}

// Whether a copy of the script starts so.
fn copy_starts_with(alloc: Global, script: &Script, entries: usize) -> bool {
    match copy_of(alloc, script) {
        Ok(copy) => starts_with(&copy, entries),
        Err(_) => false,
    }
}

// Whether the typed script of a text starts so, and its copy.
fn both_start_with(alloc: Global, script: &[u8], entries: usize) -> bool
    requires { length script.now ≤ 1048576 }
{
    match read(alloc, script) {
        Ok(script) => { starts_with(&script, entries) && copy_starts_with(alloc, &script, entries) }
        Err(_) => false,
    }
}

#[test]
fn literals_and_prints_have_types(rt: HostRuntime) {
    let alloc = rt.alloc();
    let script = b"T=table[k:nat:v:count]{1:2;3:4;};print T by k;";
    assert!(rt; has_statements(alloc, script, 2));
    assert!(rt; both_start_with(alloc, script, 2));
}

// Stores the name of one letter, at byte 50, under another.
fn store(alloc: Global, letter: u8) -> Result<AstStatement, AllocError> {
    let (old, new) = both(name(alloc, letter), name(alloc, b'K'))?;
    Ok(AstStatement::Store {
        at: 44,
        old: AstName { name: old, at: 50 },
        new: AstName { name: new, at: 52 },
    })
}

// A script that assigns T and then stores the table of a name.
fn stored_after(alloc: Global, letter: u8) -> Result<Script, ReadFault> {
    let mut tree = parse(alloc, b"T=table[:v:count]{};")?;
    tree.statements.push(store(alloc, letter)?)?;
    checked(alloc, &tree)
}

#[test]
fn stores_name_what_was_assigned(rt: HostRuntime) {
    let alloc = rt.alloc();
    assert!(rt; is_accepted(stored_after(alloc, b'T')));
    assert!(rt; refuses(stored_after(alloc, b'U'), 50, Kind::NoName));
}

// A name at the byte 9.
fn placed(alloc: Global, letter: u8) -> Result<AstName, AllocError> {
    Ok(AstName {
        name: name(alloc, letter)?,
        at: 9,
    })
}

fn key_col(alloc: Global) -> Result<AstKeyCol, AllocError> {
    Ok(AstKeyCol {
        name: placed(alloc, b'k')?,
        ty: KeyType::Nat,
    })
}

fn val_col(alloc: Global) -> Result<AstValCol, AllocError> {
    Ok(AstValCol {
        name: placed(alloc, b'v')?,
        ty: ValType::Count,
    })
}

fn columns_of_literal(alloc: Global) -> Result<AstType, AllocError> {
    let keys = one(alloc, key_col(alloc))?;
    let vals = one(alloc, val_col(alloc))?;
    Ok(AstType { keys, vals })
}

fn lit(at: u32, value: AstValue) -> AstLit {
    AstLit { at, value }
}

// The literal `table[k:nat:v:count]{..}` with one entry of these values, the key at byte 20 and the value at byte 22.
fn literal(alloc: Global, key: AstValue, value: AstValue) -> Result<AstOp, AllocError> {
    let key = one(alloc, Ok(lit(20, key)));
    let (key, row) = both(key, one(alloc, Ok(lit(22, value))))?;
    let entry = AstEntry { at: 20, key, row };
    let (ty, entries) = both(columns_of_literal(alloc), one(alloc, Ok(entry)))?;
    Ok(AstOp::Literal(ty, entries))
}

// The script that assigns the table of an operator at byte 2.
fn assigned(alloc: Global, op: Result<AstOp, AllocError>) -> Result<Ast, AllocError> {
    let (name, op) = both(placed(alloc, b'T'), op)?;
    let node = AstNode { at: 2, op };
    let statements = one(alloc, Ok(AstStatement::Assign { at: 0, name, node }))?;
    Ok(Ast { statements })
}

fn checked_op(alloc: Global, op: Result<AstOp, AllocError>) -> Result<Script, ReadFault> {
    let tree = assigned(alloc, op)?;
    checked(alloc, &tree)
}

// Whether the literal of these values has no type for the value at this byte.
fn differs(alloc: Global, key: AstValue, value: AstValue, at: u32) -> bool {
    refuses(
        checked_op(alloc, literal(alloc, key, value)),
        at,
        Kind::TypesDiffer,
    )
}

fn a_text(alloc: Global) -> Result<AstValue, AllocError> {
    let content = Content::new(List::from_slice(alloc, b"t")?).ok_or(AllocError)?;
    Ok(AstValue::Text(content))
}

fn number(n: u64) -> AstValue {
    AstValue::Number(n)
}

#[test]
fn literals_have_the_kind_of_their_column(rt: HostRuntime) -> Result<(), Fail> {
    let alloc = rt.alloc();
    assert!(rt; is_accepted(checked_op(alloc, literal(alloc, number(1), number(2)))));
    assert!(rt; differs(alloc, a_text(alloc)?, number(2), 20));
    assert!(rt; differs(alloc, AstValue::Flag(true), AstValue::Inf, 20));
    assert!(rt; differs(alloc, AstValue::Inf, AstValue::None, 20));
    assert!(rt; differs(alloc, AstValue::None, number(2), 20));
    assert!(rt; differs(alloc, number(1), a_text(alloc)?, 22));
    assert!(rt; differs(alloc, number(1), AstValue::Flag(true), 22));
    assert!(rt; differs(alloc, number(1), AstValue::Inf, 22));
    assert!(rt; differs(alloc, number(1), AstValue::None, 22));
    Ok(())
}

// The table of a name, which no script assigned.
fn operand(alloc: Global) -> Result<Boxed<AstNode>, AllocError> {
    let op = AstOp::Named(placed(alloc, b'U')?);
    Ok(Boxed::new(alloc, AstNode { at: 9, op })?)
}

fn expr() -> AstExpr {
    AstExpr {
        at: 9,
        form: AstForm::Number(1),
    }
}

// The definition of one value column.
fn defs(alloc: Global) -> Result<AstDefs, AllocError> {
    let col = val_col(alloc)?;
    let expr = expr();
    AstDefs::new(one(alloc, Ok(AstDef { col, expr }))?).ok_or(AllocError)
}

fn map(alloc: Global) -> Result<AstOp, AllocError> {
    let (a, defs) = both(operand(alloc), defs(alloc))?;
    Ok(AstOp::Map(a, defs))
}

fn filter(alloc: Global) -> Result<AstOp, AllocError> {
    Ok(AstOp::Filter(operand(alloc)?, expr()))
}

fn promote(alloc: Global) -> Result<AstOp, AllocError> {
    let (a, col) = both(operand(alloc), key_col(alloc))?;
    let expr = expr();
    Ok(AstOp::Promote(a, AstKeyDef { col, expr }))
}

fn rename(alloc: Global) -> Result<AstOp, AllocError> {
    Ok(AstOp::Rename(operand(alloc)?, List::new(alloc)))
}

fn apply(alloc: Global) -> Result<AstOp, AllocError> {
    let (a, plugin) = both(operand(alloc), placed(alloc, b'p'))?;
    let call = AstCall {
        plugin,
        args: List::new(alloc),
        cols: List::new(alloc),
    };
    Ok(AstOp::Apply(a, call))
}

// Whether the script that assigns the table of an operator is refused for its operand, of which no table is known.
fn lacks_its_operand(alloc: Global, op: Result<AstOp, AllocError>) -> bool {
    refuses(checked_op(alloc, op), 9, Kind::NoName)
}

#[test]
fn operands_come_before_operators(rt: HostRuntime) {
    let alloc = rt.alloc();
    assert!(rt; lacks_its_operand(alloc, map(alloc)));
    assert!(rt; lacks_its_operand(alloc, filter(alloc)));
    assert!(rt; lacks_its_operand(alloc, promote(alloc)));
    assert!(rt; lacks_its_operand(alloc, rename(alloc)));
}

#[test]
fn operators_without_a_rule_are_refused_at_their_word(rt: HostRuntime) {
    let alloc = rt.alloc();
    assert!(rt; refuses(checked_op(alloc, apply(alloc)), 2, Kind::Unexpected));
}
