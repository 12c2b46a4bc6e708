//! Operators and functions at the ends of their ranges, and expressions over one entry, with answers worked out by hand.
//! What a test compares, a helper answers.
use crate::functions::fun_value;
use crate::operators::two_value;
use crate::{eval, to_key, to_val};
use lara_base::{Boxed, Content, List, Name, Text};
use lara_data::{Expr, ExprVal, FunOp, KeyCol, TableType, TwoOp, ValCol};
use lara_key::{KeyType, KeyVal, Tuple};
use lara_semiring::{PathText, Row, ValType, Value};
use std::alloc::{AllocError, Global};
use std::test::Fail;

// A value as a test writes it: a text or a path of more than 1,024 bytes is `over`.
#[derive(Clone, Copy)]
enum Val<'a> {
    Number(u64),
    Distance(u64),
    Text(&'a [u8]),
    Path(&'a [u8]),
    Absent,
    Flag(bool),
}

// The number past the range; the distance past the range, and no way at all.
const OVER: u64 = u64::MAX;

const FAR: u64 = u64::MAX - 1;

const INF: u64 = u64::MAX;

const LONGEST: [u8; 1024] = [120; 1024];

const TOO_LONG: [u8; 1025] = [120; 1025];

fn text(alloc: Global, bytes: &[u8]) -> Result<Text, AllocError> {
    match Content::new(List::from_slice(alloc, bytes)?) {
        Some(content) => Ok(Text::Within(content)),
        None => Ok(Text::Over),
    }
}

fn path(alloc: Global, bytes: &[u8]) -> Result<PathText, AllocError> {
    match Content::new(List::from_slice(alloc, bytes)?) {
        Some(content) => Ok(PathText::Within(content)),
        None => Ok(PathText::Over),
    }
}

fn value(alloc: Global, val: Val) -> Result<ExprVal, AllocError> {
    match val {
        Val::Number(n) => Ok(ExprVal::Number(n)),
        Val::Distance(n) => Ok(ExprVal::MinPlus(n)),
        Val::Text(bytes) => Ok(ExprVal::Text(text(alloc, bytes)?)),
        Val::Path(bytes) => Ok(ExprVal::Path(path(alloc, bytes)?)),
        Val::Absent => Ok(ExprVal::Path(PathText::Absent)),
        Val::Flag(b) => Ok(ExprVal::Flag(b)),
    }
}

fn is_text(text: &Text, bytes: &[u8]) -> bool {
    match text {
        Text::Within(content) => content.bytes().as_slice() == bytes,
        Text::Over => bytes.len() > 1024,
    }
}

fn is_path(path: &PathText, bytes: &[u8]) -> bool {
    match path {
        PathText::Within(content) => content.bytes().as_slice() == bytes,
        PathText::Over => bytes.len() > 1024,
        PathText::Absent => false,
    }
}

fn is(value: &ExprVal, want: Val) -> bool {
    match (value, want) {
        (ExprVal::Number(a), Val::Number(b)) => *a == b,
        (ExprVal::MinPlus(a), Val::Distance(b)) => *a == b,
        (ExprVal::Text(a), Val::Text(b)) => is_text(a, b),
        (ExprVal::Path(a), Val::Path(b)) => is_path(a, b),
        (ExprVal::Path(PathText::Absent), Val::Absent) => true,
        (ExprVal::Flag(a), Val::Flag(b)) => *a == b,
        _ => false,
    }
}

// Whether the operator makes this of two values.
fn makes(alloc: Global, op: TwoOp, a: Val, b: Val, want: Val) -> Result<bool, AllocError> {
    let answer = two_value(alloc, op, value(alloc, a)?, value(alloc, b)?)?;
    Ok(is(&answer, want))
}

// Whether the function makes this of a value.
fn gives(alloc: Global, f: FunOp, a: Val, want: Val) -> Result<bool, AllocError> {
    let answer = fun_value(alloc, f, value(alloc, a)?);
    Ok(is(&answer, want))
}

#[test]
fn sums_and_products_stop_at_the_ends_of_their_ranges(rt: HostRuntime) -> Result<(), Fail> {
    let alloc = rt.alloc();
    for (i, (op, a, b, want)) in [
        (
            TwoOp::Add,
            Val::Number(OVER - 2),
            Val::Number(1),
            Val::Number(OVER - 1),
        ),
        (
            TwoOp::Add,
            Val::Number(OVER - 1),
            Val::Number(1),
            Val::Number(OVER),
        ),
        (
            TwoOp::Add,
            Val::Number(OVER),
            Val::Number(OVER),
            Val::Number(OVER),
        ),
        (
            TwoOp::Mul,
            Val::Number(0),
            Val::Number(OVER),
            Val::Number(0),
        ),
        (
            TwoOp::Mul,
            Val::Number(1 << 32),
            Val::Number(1 << 32),
            Val::Number(OVER),
        ),
        (
            TwoOp::Add,
            Val::Distance(FAR),
            Val::Distance(7),
            Val::Distance(7),
        ),
        (
            TwoOp::Add,
            Val::Distance(INF),
            Val::Distance(FAR),
            Val::Distance(FAR),
        ),
        (
            TwoOp::Mul,
            Val::Distance(FAR - 2),
            Val::Distance(1),
            Val::Distance(FAR - 1),
        ),
        (
            TwoOp::Mul,
            Val::Distance(FAR - 1),
            Val::Distance(1),
            Val::Distance(FAR),
        ),
        (
            TwoOp::Mul,
            Val::Distance(FAR),
            Val::Distance(INF),
            Val::Distance(INF),
        ),
        (
            TwoOp::Add,
            Val::Path(b"aa"),
            Val::Path(b"b"),
            Val::Path(b"b"),
        ),
        (
            TwoOp::Add,
            Val::Absent,
            Val::Path(&TOO_LONG),
            Val::Path(&TOO_LONG),
        ),
        (
            TwoOp::Mul,
            Val::Path(b"ab"),
            Val::Path(b"c"),
            Val::Path(b"abc"),
        ),
        (
            TwoOp::Mul,
            Val::Path(&LONGEST),
            Val::Path(b"c"),
            Val::Path(&TOO_LONG),
        ),
        (TwoOp::Mul, Val::Path(&TOO_LONG), Val::Absent, Val::Absent),
        (
            TwoOp::Cat,
            Val::Text(b"ab"),
            Val::Text(b"c"),
            Val::Text(b"abc"),
        ),
        (
            TwoOp::Cat,
            Val::Text(&LONGEST),
            Val::Text(b""),
            Val::Text(&LONGEST),
        ),
        (
            TwoOp::Cat,
            Val::Text(b"c"),
            Val::Text(&LONGEST),
            Val::Text(&TOO_LONG),
        ),
        (
            TwoOp::Cat,
            Val::Text(b""),
            Val::Text(&TOO_LONG),
            Val::Text(&TOO_LONG),
        ),
    ]
    .iter()
    .enumerate()
    {
        assert!(rt; makes(alloc, *op, *a, *b, *want)?, "at {i}");
    }
    Ok(())
}

#[test]
fn comparisons_go_by_the_order_of_the_type(rt: HostRuntime) -> Result<(), Fail> {
    let alloc = rt.alloc();
    for (i, (op, a, b, want)) in [
        (TwoOp::Lt, Val::Number(OVER - 1), Val::Number(OVER), true),
        (TwoOp::Eq, Val::Number(OVER), Val::Number(OVER), true),
        (TwoOp::Lt, Val::Distance(FAR), Val::Distance(INF), true),
        (TwoOp::Gt, Val::Text(b"b"), Val::Text(b"ab"), true),
        (TwoOp::Ge, Val::Text(&LONGEST), Val::Text(&TOO_LONG), false),
        (TwoOp::Lt, Val::Path(b"b"), Val::Path(b"ab"), true),
        (TwoOp::Ge, Val::Path(&TOO_LONG), Val::Absent, false),
        (TwoOp::Lt, Val::Flag(false), Val::Flag(true), true),
        (TwoOp::Lt, Val::Number(3), Val::Number(3), false),
        (TwoOp::Le, Val::Number(3), Val::Number(3), true),
        (TwoOp::Ne, Val::Text(b"a"), Val::Text(b"a"), false),
        (TwoOp::Or, Val::Flag(false), Val::Flag(true), true),
        (TwoOp::And, Val::Flag(false), Val::Flag(true), false),
    ]
    .iter()
    .enumerate()
    {
        assert!(rt; makes(alloc, *op, *a, *b, Val::Flag(*want))?, "at {i}");
    }
    Ok(())
}

#[test]
fn functions_go_from_type_to_type(rt: HostRuntime) -> Result<(), Fail> {
    let alloc = rt.alloc();
    for (i, (f, a, want)) in [
        (FunOp::Num, Val::Distance(FAR - 1), Val::Number(FAR - 1)),
        (FunOp::Num, Val::Distance(FAR), Val::Number(OVER)),
        (FunOp::Num, Val::Distance(INF), Val::Number(OVER)),
        (FunOp::Num, Val::Flag(true), Val::Number(1)),
        (FunOp::Num, Val::Flag(false), Val::Number(0)),
        (FunOp::Dist, Val::Number(FAR - 1), Val::Distance(FAR - 1)),
        (FunOp::Dist, Val::Number(OVER - 1), Val::Distance(FAR)),
        (FunOp::Dist, Val::Number(OVER), Val::Distance(FAR)),
        (FunOp::Len, Val::Text(b""), Val::Number(0)),
        (FunOp::Len, Val::Text(&LONGEST), Val::Number(1024)),
        (FunOp::Len, Val::Text(&TOO_LONG), Val::Number(OVER)),
        (FunOp::Path, Val::Text(b"a"), Val::Path(b"a")),
        (FunOp::Path, Val::Text(&TOO_LONG), Val::Path(&TOO_LONG)),
        (FunOp::Text, Val::Path(b"a"), Val::Text(b"a")),
        (FunOp::Text, Val::Path(&TOO_LONG), Val::Text(&TOO_LONG)),
        (FunOp::Text, Val::Absent, Val::Text(b"")),
    ]
    .iter()
    .enumerate()
    {
        assert!(rt; gives(alloc, *f, *a, *want)?, "at {i}");
    }
    Ok(())
}

fn name(alloc: Global, letter: u8) -> Result<Name, AllocError> {
    Name::new(List::from_slice(alloc, &[letter])?).ok_or(AllocError)
}

// The key column k of texts, and the value columns v of numbers and d of distances.
fn columns(alloc: Global) -> Result<TableType, AllocError> {
    let mut keys = List::new(alloc);
    keys.push(KeyCol {
        name: name(alloc, b'k')?,
        ty: KeyType::Text,
    })?;
    let mut vals = List::new(alloc);
    vals.push(ValCol {
        name: name(alloc, b'v')?,
        ty: ValType::Count,
    })?;
    vals.push(ValCol {
        name: name(alloc, b'd')?,
        ty: ValType::MinPlus,
    })?;
    TableType::new(keys, vals).ok_or(AllocError)
}

fn key(alloc: Global) -> Result<Tuple, AllocError> {
    let mut key = List::new(alloc);
    key.push(KeyVal::Text(text(alloc, b"ab")?))?;
    Ok(key)
}

fn row(alloc: Global) -> Result<Row, AllocError> {
    let mut row = List::new(alloc);
    row.push(Value::Count(7))?;
    row.push(Value::MinPlus(INF))?;
    Ok(row)
}

// Whether the expression comes to this for the entry "ab":7,inf.
fn comes_to(alloc: Global, e: &Expr, want: Val) -> Result<bool, AllocError> {
    let answer = eval(alloc, e, &columns(alloc)?, &key(alloc)?, &row(alloc)?)?;
    Ok(is(&answer, want))
}

fn column(alloc: Global, letter: u8) -> Result<Boxed<Expr>, AllocError> {
    Ok(Boxed::new(alloc, Expr::Column(name(alloc, letter)?))?)
}

// len(k) < v
fn is_short(alloc: Global) -> Result<Boxed<Expr>, AllocError> {
    let len = Boxed::new(alloc, Expr::Fun(FunOp::Len, column(alloc, b'k')?))?;
    Ok(Boxed::new(alloc, Expr::Two(TwoOp::Lt, len, column(alloc, b'v')?))?)
}

// if a then v * v else 5, where a is `len(k) < v` or not that.
fn squared(alloc: Global, turned: bool) -> Result<Expr, AllocError> {
    let test = is_short(alloc)?;
    let test = if turned {
        Boxed::new(alloc, Expr::Not(test))?
    } else {
        test
    };
    let square = Expr::Two(TwoOp::Mul, column(alloc, b'v')?, column(alloc, b'v')?);
    Ok(Expr::If(
        test,
        Boxed::new(alloc, square)?,
        Boxed::new(alloc, Expr::Number(5))?,
    ))
}

// "x" ++ k
fn longer(alloc: Global) -> Result<Expr, AllocError> {
    match text(alloc, b"x")? {
        Text::Within(x) => Ok(Expr::Two(
            TwoOp::Cat,
            Boxed::new(alloc, Expr::Text(x))?,
            column(alloc, b'k')?,
        )),
        Text::Over => Err(AllocError),
    }
}

#[test]
fn expressions_come_to_values(rt: HostRuntime) -> Result<(), Fail> {
    let alloc = rt.alloc();
    let distance = Expr::Column(name(alloc, b'd')?);
    assert!(rt; comes_to(alloc, &distance, Val::Distance(INF))?);
    assert!(rt; comes_to(alloc, &squared(alloc, false)?, Val::Number(49))?);
    assert!(rt; comes_to(alloc, &squared(alloc, true)?, Val::Number(5))?);
    assert!(rt; comes_to(alloc, &longer(alloc)?, Val::Text(b"xab"))?);
    assert!(rt; comes_to(alloc, &Expr::Flag(true), Val::Flag(true))?);
    assert!(rt; comes_to(alloc, &Expr::Inf, Val::Distance(INF))?);
    assert!(rt; comes_to(alloc, &Expr::None, Val::Absent)?);
    Ok(())
}

fn key_number(val: ExprVal) -> u64 {
    match to_key(KeyType::Nat, val) {
        KeyVal::Nat(n) => n,
        _ => 77,
    }
}

fn widest_number(alloc: Global, val: ExprVal) -> u64 {
    match to_val(alloc, ValType::MaxMin, val) {
        Value::MaxMin(n) => n,
        _ => 77,
    }
}

#[test]
fn values_stand_in_columns(rt: HostRuntime) -> Result<(), Fail> {
    assert_eq!(rt; key_number(ExprVal::Number(OVER)), OVER);
    assert_eq!(rt; widest_number(rt.alloc(), ExprVal::Number(OVER)), OVER);
    Ok(())
}
