//! The calls where there is memory, with sums and products worked out by hand.
ghost use Rattle.std.specs.Prelude.{◌≡◌, ◌∷◌, [], ◌↔◌, true, IsTrue, IfOk};
ghost use Rattle.lara_semiring.specs.Rows.{row_has};
ghost use Rattle.lara_semiring.specs.Values.{has_type};
ghost use Rattle.lara_semiring.specs.declared.value.ValType.TheVariants.{Count, Last, Path};

use crate::{
    CountVal, FlagVal, LastVal, MaxMinVal, MinPlusVal, PathText, PathVal, Row, Semiring, Text,
    ValType, Value, is_default, is_over, is_row_over, plus, row_plus, row_times, times, zero,
};
use lara_base::{Content, Copied, List};
use std::alloc::{AllocError, Global};
use std::test::Fail;

const OVER: u64 = u64::MAX;

// The number of a count, a distance or a width.
fn number(value: &Value) -> u64 {
    match value {
        Value::Count(n) | Value::MinPlus(n) | Value::MaxMin(n) => *n,
        _ => 77,
    }
}

fn copy_of<T: Copied>(alloc: Global, value: &T) -> Result<T, AllocError> {
    value.copy(alloc)
}

/// The identity of the sum and that of the product.
fn identities<T: Semiring>(alloc: Global) -> (T, T) {
    (T::zero(alloc), T::one(alloc))
}

/// Whether the value is zero, and whether it is over.
fn zero_or_over<T: Semiring>(value: &T) -> (bool, bool) {
    (value.is_zero(), value.is_over())
}

/// The sum in the other order, which is the same by the laws.
fn turned<T: Semiring>(alloc: Global, a: &T, b: &T) -> Result<T, AllocError>
    ensures { IfOk result (λ r. r ≡ T.sum b.now a.now) }
{
    a.known();
    b.known();
    a.plus(alloc, b)
}

/// The product with a sum, summand by summand, which is the same by the laws.
fn spread<T: Semiring>(alloc: Global, a: &T, b: &T, c: &T) -> Result<T, AllocError>
    ensures { IfOk result (λ r. r ≡ T.product a.now (T.sum b.now c.now)) }
{
    a.known();
    b.known();
    c.known();
    let first = a.times(alloc, b)?;
    let second = a.times(alloc, c)?;
    first.plus(alloc, &second)
}

#[tactic(auto, unfolding(crate::specs::Values::has_type))]
fn sum(alloc: Global, a: u64, b: u64) -> Result<u64, AllocError> {
    let sum = plus(alloc, &ValType::Count, &Value::Count(a), &Value::Count(b))?;
    Ok(number(&sum))
}

#[tactic(auto, unfolding(crate::specs::Values::has_type))]
fn product(alloc: Global, a: u64, b: u64) -> Result<u64, AllocError> {
    let product = times(alloc, &ValType::Count, &Value::Count(a), &Value::Count(b))?;
    Ok(number(&product))
}

fn turned_sum(alloc: Global, a: u64, b: u64) -> Result<CountVal, AllocError> {
    turned(alloc, &CountVal { number: a }, &CountVal { number: b })
}

fn spread_product(alloc: Global, a: u64, b: u64, c: u64) -> Result<CountVal, AllocError> {
    spread(
        alloc,
        &CountVal { number: a },
        &CountVal { number: b },
        &CountVal { number: c },
    )
}

#[test]
fn counts_add_up_to_over(rt: HostRuntime) -> Result<(), Fail> {
    let alloc = rt.alloc();
    for (a, b, want) in [
        (3, 4, 7),
        (0, 0, 0),
        (OVER - 2, 1, OVER - 1),
        (OVER - 1, 1, OVER),
        (OVER - 1, OVER - 1, OVER),
        (OVER, 0, OVER),
    ] {
        assert_eq!(rt; sum(alloc, a, b)?, want, "at {a} and {b}");
        let turned = turned_sum(alloc, a, b)?;
        assert_eq!(rt; turned.number, want, "at {a} and {b}");
        let (is_zero, is_over) = zero_or_over(&turned);
        assert_eq!(rt; is_zero, want == 0, "at {a} and {b}");
        assert_eq!(rt; is_over, want == OVER, "at {a} and {b}");
    }
    Ok(())
}

#[test]
fn counts_multiply_up_to_over(rt: HostRuntime) -> Result<(), Fail> {
    let alloc = rt.alloc();
    for (a, b, want) in [
        (3, 4, 12),
        (1, 9, 9),
        (0, OVER, 0),
        (OVER, 0, 0),
        (4_294_967_296, 4_294_967_296, OVER),
        (6_148_914_691_236_517_205, 3, OVER),
        (OVER, OVER, OVER),
    ] {
        assert_eq!(rt; product(alloc, a, b)?, want, "at {a} and {b}");
    }
    assert_eq!(rt; spread_product(alloc, 3, 4, 5)?.number, 27);
    Ok(())
}

#[test]
fn counts_have_a_zero_and_a_one(rt: HostRuntime) {
    let (zero, one) = identities::<CountVal>(rt.alloc());
    assert_eq!(rt; zero.number, 0);
    assert_eq!(rt; one.number, 1);
}

fn two_counts(alloc: Global) -> Result<List<ValType>, AllocError>
    ensures { IfOk result (λ r. r ≡ Count ∷ Count ∷ []) }
{
    List::from_slice(alloc, &[ValType::Count, ValType::Count])
}

#[tactic(auto, unfolding(crate::specs::Rows::row_has, crate::specs::Values::has_type))]
fn pair(alloc: Global, first: u64, second: u64) -> Result<Row, AllocError>
    ensures { IfOk result (λ r. row_has (Count ∷ Count ∷ []) r ≡ true) }
{
    let mut row = List::new(alloc);
    row.push(Value::Count(first))?;
    row.push(Value::Count(second))?;
    Ok(row)
}

// The numbers of a row of two columns.
fn numbers(row: &Row) -> Option<(u64, u64)> {
    match row.as_slice() {
        [first, second] => Some((number(first), number(second))),
        _ => None,
    }
}

// The sum of (1, over) and (20, 300).
fn sum_of_rows(alloc: Global) -> Result<Row, AllocError> {
    let tys = two_counts(alloc)?;
    let a = pair(alloc, 1, OVER)?;
    let b = pair(alloc, 20, 300)?;
    row_plus(alloc, &tys, &a, &b)
}

// The product of (6, over) and (7, 0).
fn product_of_rows(alloc: Global) -> Result<Row, AllocError> {
    let tys = two_counts(alloc)?;
    let a = pair(alloc, 6, OVER)?;
    let b = pair(alloc, 7, 0)?;
    row_times(alloc, &tys, &a, &b)
}

// Whether the product of (1, 0) and (0, 1) is default.
fn is_product_default(alloc: Global) -> Result<bool, AllocError> {
    let tys = two_counts(alloc)?;
    let a = pair(alloc, 1, 0)?;
    let b = pair(alloc, 0, 1)?;
    let product = row_times(alloc, &tys, &a, &b)?;
    Ok(is_default(&tys, &product))
}

fn is_pair_default(alloc: Global, first: u64, second: u64) -> Result<bool, AllocError> {
    let tys = two_counts(alloc)?;
    let row = pair(alloc, first, second)?;
    Ok(is_default(&tys, &row))
}

#[test]
fn rows_add_in_each_column(rt: HostRuntime) -> Result<(), Fail> {
    let alloc = rt.alloc();
    let copy = copy_of(alloc, &sum_of_rows(alloc)?)?;
    assert_eq!(rt; numbers(&copy), Some((21, OVER)));
    Ok(())
}

#[test]
fn rows_multiply_in_each_column(rt: HostRuntime) -> Result<(), Fail> {
    let alloc = rt.alloc();
    assert_eq!(rt; numbers(&product_of_rows(alloc)?), Some((42, 0)));
    assert!(rt; is_product_default(alloc)?);
    Ok(())
}

#[test]
fn rows_of_zeros_are_default(rt: HostRuntime) -> Result<(), Fail> {
    let alloc = rt.alloc();
    assert!(rt; is_pair_default(alloc, 0, 0)?);
    assert!(rt; !is_pair_default(alloc, 0, 1)?);
    assert!(rt; !is_pair_default(alloc, 1, 0)?);
    Ok(())
}

fn is_pair_over(alloc: Global, first: u64, second: u64) -> Result<bool, AllocError> {
    let tys = two_counts(alloc)?;
    let row = pair(alloc, first, second)?;
    Ok(is_row_over(&tys, &row))
}

#[test]
fn rows_are_over_where_a_column_is(rt: HostRuntime) -> Result<(), Fail> {
    let alloc = rt.alloc();
    assert!(rt; is_pair_over(alloc, 3, OVER)?);
    assert!(rt; is_pair_over(alloc, OVER, 3)?);
    assert!(rt; !is_pair_over(alloc, 3, OVER - 1)?);
    Ok(())
}

fn copy_of_types(alloc: Global) -> Result<List<ValType>, AllocError> {
    copy_of(alloc, &two_counts(alloc)?)
}

#[test]
fn types_and_values_are_copied(rt: HostRuntime) -> Result<(), Fail> {
    let alloc = rt.alloc();
    let two = [ValType::Count, ValType::Count];
    assert_eq!(rt; copy_of_types(alloc)?.as_slice(), two.as_slice());
    assert_eq!(rt; copy_of(alloc, &ValType::Count)?, ValType::Count);
    assert_eq!(rt; number(&copy_of(alloc, &Value::Count(OVER))?), OVER);
    Ok(())
}

#[test]
#[tactic(auto, unfolding(crate::specs::Values::has_type))]
fn values_of_a_type(rt: HostRuntime) {
    assert_eq!(rt; number(&zero(rt.alloc(), &ValType::Count)), 0);
    assert!(rt; is_over(&ValType::Count, &Value::Count(OVER)));
    assert!(rt; !is_over(&ValType::Count, &Value::Count(OVER - 1)));
}

// The sum and the product of two values of a type.
fn of_type(alloc: Global, ty: &ValType, a: &Value, b: &Value) -> Result<(Value, Value), AllocError>
    requires left { has_type ty.now a.now ≡ true }
    requires right { has_type ty.now b.now ≡ true }
{
    Ok((plus(alloc, ty, a, b)?, times(alloc, ty, a, b)?))
}

#[tactic(auto, unfolding(crate::specs::Values::has_type))]
fn of_distances(alloc: Global, a: u64, b: u64) -> Result<(u64, u64), AllocError> {
    let (sum, product) = of_type(
        alloc,
        &ValType::MinPlus,
        &Value::MinPlus(a),
        &Value::MinPlus(b),
    )?;
    Ok((number(&sum), number(&product)))
}

#[tactic(auto, unfolding(crate::specs::Values::has_type))]
fn of_widths(alloc: Global, a: u64, b: u64) -> Result<(u64, u64), AllocError> {
    let (sum, product) = of_type(
        alloc,
        &ValType::MaxMin,
        &Value::MaxMin(a),
        &Value::MaxMin(b),
    )?;
    Ok((number(&sum), number(&product)))
}

fn is_set(value: &Value) -> bool {
    matches!(value, Value::Flag(true))
}

#[tactic(auto, unfolding(crate::specs::Values::has_type))]
fn of_flags(alloc: Global, a: bool, b: bool) -> Result<(bool, bool), AllocError> {
    let (sum, product) = of_type(alloc, &ValType::Flag, &Value::Flag(a), &Value::Flag(b))?;
    Ok((is_set(&sum), is_set(&product)))
}

#[tactic(auto, unfolding(crate::specs::Values::has_type))]
fn last_value(alloc: Global, bytes: &[u8]) -> Result<Value, AllocError>
    ensures { IfOk result (λ r. has_type Last r ≡ true) }
{
    let text = text_of(alloc, bytes)?;
    text.known();
    Ok(Value::Last(text))
}

fn is_last_value(value: &Value, bytes: &[u8]) -> bool {
    match value {
        Value::Last(text) => is_text(text, bytes),
        _ => false,
    }
}

// Whether the sum is the second and the product the first.
fn is_later_value(alloc: Global, a: &[u8], b: &[u8]) -> Result<bool, AllocError> {
    let first = last_value(alloc, a)?;
    let second = last_value(alloc, b)?;
    let (sum, product) = of_type(alloc, &ValType::Last, &first, &second)?;
    Ok(is_last_value(&copy_of(alloc, &sum)?, b) && is_last_value(&product, a))
}

#[tactic(auto, unfolding(crate::specs::Values::has_type))]
fn path_value(alloc: Global, bytes: &[u8]) -> Result<Value, AllocError>
    ensures { IfOk result (λ r. has_type Path r ≡ true) }
{
    let path = path_of(alloc, bytes)?;
    Semiring::known(&path);
    Ok(Value::Path(path))
}

fn is_path_value(value: &Value, bytes: &[u8]) -> bool {
    match value {
        Value::Path(path) => is_path(path, bytes),
        _ => false,
    }
}

// Whether the sum and the product of two paths are these.
fn are_path_values(
    alloc: Global,
    a: &[u8],
    b: &[u8],
    sum: &[u8],
    product: &[u8],
) -> Result<bool, AllocError> {
    let first = path_value(alloc, a)?;
    let second = path_value(alloc, b)?;
    let (lesser, joined) = of_type(alloc, &ValType::Path, &first, &second)?;
    Ok(is_path_value(&copy_of(alloc, &lesser)?, sum) && is_path_value(&joined, product))
}

#[test]
fn each_type_adds_and_multiplies_as_it_does(rt: HostRuntime) -> Result<(), Fail> {
    let alloc = rt.alloc();
    assert_eq!(rt; of_distances(alloc, 7, 6)?, (6, 13));
    assert_eq!(rt; of_distances(alloc, u64::MAX, 6)?, (6, u64::MAX));
    assert_eq!(rt; of_widths(alloc, 7, 6)?, (7, 6));
    assert_eq!(rt; of_flags(alloc, false, true)?, (true, false));
    assert!(rt; is_later_value(alloc, b"ab", b"b")?);
    assert!(rt; are_path_values(alloc, b"ab", b"c", b"c", b"abc")?);
    Ok(())
}

#[test]
fn each_type_has_its_zero(rt: HostRuntime) {
    let alloc = rt.alloc();
    assert_eq!(rt; number(&zero(alloc, &ValType::MinPlus)), u64::MAX);
    assert_eq!(rt; number(&zero(alloc, &ValType::MaxMin)), 0);
    assert!(rt; matches!(zero(alloc, &ValType::Flag), Value::Flag(false)));
    assert!(rt; is_last_value(&zero(alloc, &ValType::Last), b""));
    assert!(rt; matches!(zero(alloc, &ValType::Path), Value::Path(PathText::Absent)));
}

// The sum and the product.
fn sum_and_product<T: Semiring>(alloc: Global, a: &T, b: &T) -> Result<(T, T), AllocError> {
    Ok((a.plus(alloc, b)?, a.times(alloc, b)?))
}

fn distances(alloc: Global, a: u64, b: u64) -> Result<(u64, u64), AllocError> {
    let (sum, product) = sum_and_product(
        alloc,
        &MinPlusVal { number: a },
        &MinPlusVal { number: b },
    )?;
    Ok((sum.number, product.number))
}

const INF: u64 = u64::MAX;

#[test]
fn distances_add_up_to_over(rt: HostRuntime) -> Result<(), Fail> {
    let alloc = rt.alloc();
    for (a, b, want) in [
        (3, 4, (3, 7)),
        (INF - 3, 1, (1, INF - 2)),
        (INF - 2, 1, (1, INF - 1)),
        (INF - 2, INF - 2, (INF - 2, INF - 1)),
        (INF - 1, 0, (0, INF - 1)),
        (INF, 5, (5, INF)),
        (5, INF, (5, INF)),
        (INF, INF - 1, (INF - 1, INF)),
    ] {
        assert_eq!(rt; distances(alloc, a, b)?, want, "at {a} and {b}");
    }
    Ok(())
}

fn widths(alloc: Global, a: u64, b: u64) -> Result<(u64, u64), AllocError> {
    let (sum, product) = sum_and_product(
        alloc,
        &MaxMinVal { number: a },
        &MaxMinVal { number: b },
    )?;
    Ok((sum.number, product.number))
}

#[test]
fn widths_have_the_greater_and_the_lesser(rt: HostRuntime) -> Result<(), Fail> {
    let alloc = rt.alloc();
    for (a, b, want) in [(3, 4, (4, 3)), (0, OVER, (OVER, 0)), (OVER, 9, (OVER, 9))] {
        assert_eq!(rt; widths(alloc, a, b)?, want, "at {a} and {b}");
    }
    Ok(())
}

fn flags(alloc: Global, a: bool, b: bool) -> Result<(bool, bool), AllocError> {
    let (sum, product) = sum_and_product(alloc, &FlagVal { is_set: a }, &FlagVal { is_set: b })?;
    Ok((sum.is_set, product.is_set))
}

#[test]
fn flags_have_or_and_and(rt: HostRuntime) -> Result<(), Fail> {
    let alloc = rt.alloc();
    assert_eq!(rt; flags(alloc, false, false)?, (false, false));
    assert_eq!(rt; flags(alloc, true, false)?, (true, false));
    assert_eq!(rt; flags(alloc, false, true)?, (true, false));
    assert_eq!(rt; flags(alloc, true, true)?, (true, true));
    Ok(())
}

fn content_of(alloc: Global, bytes: &[u8]) -> Result<Content, AllocError> {
    Content::new(List::from_slice(alloc, bytes)?).ok_or(AllocError)
}

fn text_of(alloc: Global, bytes: &[u8]) -> Result<LastVal, AllocError> {
    Ok(Text::Within(content_of(alloc, bytes)?))
}

fn is_text(text: &LastVal, bytes: &[u8]) -> bool {
    match text {
        Text::Within(content) => content.bytes().as_slice() == bytes,
        Text::Over => false,
    }
}

// Whether the sum is the second and the product the first.
fn is_later(alloc: Global, a: &[u8], b: &[u8]) -> Result<bool, AllocError> {
    let (sum, product) = sum_and_product(alloc, &text_of(alloc, a)?, &text_of(alloc, b)?)?;
    Ok(is_text(&sum, b) && is_text(&product, a))
}

// Whether with `over` the sum is `over` and the product this text.
fn is_before_over(alloc: Global, a: &[u8]) -> Result<bool, AllocError> {
    let (sum, product) = sum_and_product(alloc, &text_of(alloc, a)?, &Text::Over)?;
    Ok(Semiring::is_over(&sum) && is_text(&product, a))
}

#[test]
fn the_later_text_stays(rt: HostRuntime) -> Result<(), Fail> {
    let alloc = rt.alloc();
    assert!(rt; is_later(alloc, b"ab", b"b")?);
    assert!(rt; is_later(alloc, b"", b"\0")?);
    assert!(rt; is_before_over(alloc, b"\xff")?);
    let (zero, one) = identities::<LastVal>(alloc);
    assert_eq!(rt; zero_or_over(&zero), (true, false));
    assert_eq!(rt; zero_or_over(&one), (false, true));
    Ok(())
}

fn path_of(alloc: Global, bytes: &[u8]) -> Result<PathVal, AllocError> {
    Ok(PathText::Within(content_of(alloc, bytes)?))
}

fn is_path(path: &PathVal, bytes: &[u8]) -> bool {
    match path {
        PathText::Within(content) => content.bytes().as_slice() == bytes,
        _ => false,
    }
}

// Whether the sum and the product of two paths are these.
fn are_paths(
    alloc: Global,
    a: &[u8],
    b: &[u8],
    sum: &[u8],
    product: &[u8],
) -> Result<bool, AllocError> {
    let (lesser, joined) = sum_and_product(alloc, &path_of(alloc, a)?, &path_of(alloc, b)?)?;
    Ok(is_path(&lesser, sum) && is_path(&joined, product))
}

fn is_joined_over(alloc: Global, a: &[u8], b: &[u8]) -> Result<bool, AllocError> {
    let (_, joined) = sum_and_product(alloc, &path_of(alloc, a)?, &path_of(alloc, b)?)?;
    Ok(copy_of(alloc, &joined)?.is_over())
}

// Whether with no path the sum is this text and the product no path.
fn is_before_none(alloc: Global, a: &[u8]) -> Result<bool, AllocError> {
    let (sum, product) = sum_and_product(alloc, &PathText::Absent, &path_of(alloc, a)?)?;
    Ok(is_path(&sum, a) && product.is_zero())
}

#[test]
fn paths_are_least_and_go_end_to_end(rt: HostRuntime) -> Result<(), Fail> {
    let alloc = rt.alloc();
    assert!(rt; are_paths(alloc, b"ab", b"c", b"c", b"abc")?);
    assert!(rt; are_paths(alloc, b"ac", b"ab", b"ab", b"acab")?);
    assert!(rt; !is_joined_over(alloc, &[b'a'; 1000], &[b'a'; 24])?);
    assert!(rt; is_joined_over(alloc, &[b'a'; 1000], &[b'a'; 25])?);
    assert!(rt; is_before_none(alloc, b"ab")?);
    let (zero, one) = identities::<PathVal>(alloc);
    assert_eq!(rt; zero_or_over(&zero), (true, false));
    assert_eq!(rt; zero_or_over(&one), (false, false));
    Ok(())
}
