//! The calls where there is memory, with entries worked out by hand. What a test compares, a helper answers.
ghost use Rattle.std.specs.Prelude.{◌≡◌, ◌∷◌, [], true, IfOk};
ghost use Rattle.lara_key.specs.Keys.{tuple_has};
ghost use Rattle.lara_key.specs.declared.key.KeyType.TheVariants.{Nat};
ghost use Rattle.lara_semiring.specs.Rows.{row_has};
ghost use Rattle.lara_semiring.specs.declared.value.ValType.TheVariants.{Count};
ghost use Rattle.lara_data.specs.KeyedTables.{AllKeys, all_have};

use crate::joins::agg_of_join;
use crate::{Assoc, agg, join, union};
use lara_base::{Copied, List, Name};
use lara_data::{Entry, KeyCol, TableType, ValCol};
use lara_key::{KeyType, KeyVal, Tuple};
use lara_semiring::{Row, ValType, Value};
use std::alloc::{AllocError, Global};
use std::collections::btree_map;
use std::test::Fail;

// The name of one letter. In the contracts below 105 is i, 106 j, 107 k, 118 v and 119 w.
pub(crate) fn name(alloc: Global, letter: u8) -> Result<Name, AllocError>
    ensures { IfOk result (λ n. n ≡ letter ∷ []) }
{
    match Name::new(List::from_slice(alloc, &[letter])?) {
        Some(name) => Ok(name),
        None => Err(AllocError),
    }
}

pub(crate) fn key_col(alloc: Global, letter: u8) -> Result<KeyCol, AllocError>
    ensures { IfOk result (λ k. k ≡ record { name = letter ∷ []; ty = Nat }) }
{
    Ok(KeyCol {
        name: name(alloc, letter)?,
        ty: KeyType::Nat,
    })
}

pub(crate) fn val_col(alloc: Global, letter: u8) -> Result<ValCol, AllocError>
    ensures { IfOk result (λ v. v ≡ record { name = letter ∷ []; ty = Count }) }
{
    Ok(ValCol {
        name: name(alloc, letter)?,
        ty: ValType::Count,
    })
}

fn typed(keys: List<KeyCol>, vals: List<ValCol>) -> Result<TableType, AllocError>
    ensures { IfOk result (λ t. t ≡ record { keys = keys; vals = vals }) }
{
    match TableType::new(keys, vals) {
        Some(ty) => Ok(ty),
        None => Err(AllocError),
    }
}

// The type with two key columns and one value column.
fn matrix_type(alloc: Global, i: u8, j: u8, v: u8) -> Result<TableType, AllocError>
    ensures { IfOk result (λ t. t ≡ record { keys = record { name = i ∷ []; ty = Nat } ∷ record { name = j ∷ []; ty = Nat } ∷ []; vals = record { name = v ∷ []; ty = Count } ∷ [] }) }
{
    let mut keys = List::new(alloc);
    keys.push(key_col(alloc, i)?)?;
    keys.push(key_col(alloc, j)?)?;
    let mut vals = List::new(alloc);
    vals.push(val_col(alloc, v)?)?;
    typed(keys, vals)
}

// The type with one key column and one value column.
fn vector_type(alloc: Global, i: u8, v: u8) -> Result<TableType, AllocError>
    ensures { IfOk result (λ t. t ≡ record { keys = record { name = i ∷ []; ty = Nat } ∷ []; vals = record { name = v ∷ []; ty = Count } ∷ [] }) }
{
    let mut keys = List::new(alloc);
    keys.push(key_col(alloc, i)?)?;
    let mut vals = List::new(alloc);
    vals.push(val_col(alloc, v)?)?;
    typed(keys, vals)
}

// The type with one key column and two value columns.
fn pairs_type(alloc: Global, i: u8, v: u8, w: u8) -> Result<TableType, AllocError>
    ensures { IfOk result (λ t. t ≡ record { keys = record { name = i ∷ []; ty = Nat } ∷ []; vals = record { name = v ∷ []; ty = Count } ∷ record { name = w ∷ []; ty = Count } ∷ [] }) }
{
    let mut keys = List::new(alloc);
    keys.push(key_col(alloc, i)?)?;
    let mut vals = List::new(alloc);
    vals.push(val_col(alloc, v)?)?;
    vals.push(val_col(alloc, w)?)?;
    typed(keys, vals)
}

// An entry of a matrix: its two key columns and its value.
type Cell = (u64, u64, u64);

// An entry of a vector: its key column and its value.
pub(crate) type Item = (u64, u64);

#[tactic(auto, unfolding(lara_key::specs::Keys::tuple_has, lara_key::specs::Keys::has_key_type))]
fn pair_key(alloc: Global, i: u64, j: u64) -> Result<Tuple, AllocError>
    ensures { IfOk result (λ k. tuple_has (Nat ∷ Nat ∷ []) k ≡ true) }
{
    let mut key = List::new(alloc);
    key.push(KeyVal::Nat(i))?;
    key.push(KeyVal::Nat(j))?;
    Ok(key)
}

#[tactic(auto, unfolding(lara_key::specs::Keys::tuple_has, lara_key::specs::Keys::has_key_type))]
fn one_key(alloc: Global, i: u64) -> Result<Tuple, AllocError>
    ensures { IfOk result (λ k. tuple_has (Nat ∷ []) k ≡ true) }
{
    let mut key = List::new(alloc);
    key.push(KeyVal::Nat(i))?;
    Ok(key)
}

#[tactic(auto, unfolding(lara_semiring::specs::Rows::row_has, lara_semiring::specs::Values::has_type))]
fn one_row(alloc: Global, v: u64) -> Result<Row, AllocError>
    ensures { IfOk result (λ r. row_has (Count ∷ []) r ≡ true) }
{
    let mut row = List::new(alloc);
    row.push(Value::Count(v))?;
    Ok(row)
}

#[tactic(auto, unfolding(lara_semiring::specs::Rows::row_has, lara_semiring::specs::Values::has_type))]
fn pair_row(alloc: Global, v: u64, w: u64) -> Result<Row, AllocError>
    ensures { IfOk result (λ r. row_has (Count ∷ Count ∷ []) r ≡ true) }
{
    let mut row = List::new(alloc);
    row.push(Value::Count(v))?;
    row.push(Value::Count(w))?;
    Ok(row)
}

#[tactic(auto, using(crate::specs::EntryLists::entry_steps))]
fn cells_of(alloc: Global, cells: &[Cell]) -> Result<List<Entry>, AllocError>
    ensures keys { IfOk result (AllKeys (λ k. tuple_has (Nat ∷ Nat ∷ []) k ≡ true)) }
    ensures rows { IfOk result (λ es. all_have (Count ∷ []) es ≡ true) }
{
    let mut entries = List::new(alloc);
    for (i, j, v) in cells {
        entries.push(Entry {
            key: pair_key(alloc, *i, *j)?,
            row: one_row(alloc, *v)?,
        })?;
    }
    Ok(entries)
}

#[tactic(auto, using(crate::specs::EntryLists::entry_steps))]
fn items_of(alloc: Global, items: &[Item]) -> Result<List<Entry>, AllocError>
    ensures keys { IfOk result (AllKeys (λ k. tuple_has (Nat ∷ []) k ≡ true)) }
    ensures rows { IfOk result (λ es. all_have (Count ∷ []) es ≡ true) }
{
    let mut entries = List::new(alloc);
    for (i, v) in items {
        entries.push(Entry {
            key: one_key(alloc, *i)?,
            row: one_row(alloc, *v)?,
        })?;
    }
    Ok(entries)
}

// One entry with two values.
#[tactic(auto, using(crate::specs::EntryLists::entry_steps))]
fn one_entry(alloc: Global, i: u64, v: u64, w: u64) -> Result<List<Entry>, AllocError>
    ensures keys { IfOk result (AllKeys (λ k. tuple_has (Nat ∷ []) k ≡ true)) }
    ensures rows { IfOk result (λ es. all_have (Count ∷ Count ∷ []) es ≡ true) }
{
    let mut entries = List::new(alloc);
    entries.push(Entry {
        key: one_key(alloc, i)?,
        row: pair_row(alloc, v, w)?,
    })?;
    Ok(entries)
}

#[tactic(auto, unfolding(lara_data::specs::Tables::table_of))]
fn matrix(alloc: Global, i: u8, j: u8, cells: &[Cell]) -> Result<Assoc, AllocError>
    ensures { IfOk result (λ a. a.ty ≡ record { keys = record { name = i ∷ []; ty = Nat } ∷ record { name = j ∷ []; ty = Nat } ∷ []; vals = record { name = 118 ∷ []; ty = Count } ∷ [] }) }
{
    let ty = matrix_type(alloc, i, j, b'v')?;
    let entries = cells_of(alloc, cells)?;
    Assoc::total(alloc, &ty, &entries)
}

#[tactic(auto, unfolding(lara_data::specs::Tables::table_of))]
pub(crate) fn vector(alloc: Global, v: u8, items: &[Item]) -> Result<Assoc, AllocError>
    ensures { IfOk result (λ a. a.ty ≡ record { keys = record { name = 105 ∷ []; ty = Nat } ∷ []; vals = record { name = v ∷ []; ty = Count } ∷ [] }) }
{
    let ty = vector_type(alloc, b'i', v)?;
    let entries = items_of(alloc, items)?;
    Assoc::total(alloc, &ty, &entries)
}

// The table over i with the values v and w, and one entry.
#[tactic(auto, unfolding(lara_data::specs::Tables::table_of))]
fn one_pair(alloc: Global, i: u64, v: u64, w: u64) -> Result<Assoc, AllocError>
    ensures { IfOk result (λ a. a.ty ≡ record { keys = record { name = 105 ∷ []; ty = Nat } ∷ []; vals = record { name = 118 ∷ []; ty = Count } ∷ record { name = 119 ∷ []; ty = Count } ∷ [] }) }
{
    let ty = pairs_type(alloc, b'i', b'v', b'w')?;
    let entries = one_entry(alloc, i, v, w)?;
    Assoc::total(alloc, &ty, &entries)
}

// The join of a table over i, k and one over k, j.
#[tactic(auto, unfolding(lara_data::specs::Algebra::join_tables, lara_data::specs::Names::has, lara_data::specs::Names::same_name, lara_data::specs::Vals::has_col, lara_data::specs::Vals::same_col))]
fn product(alloc: Global, left: &[Cell], right: &[Cell]) -> Result<Assoc, AllocError>
    ensures { IfOk result (λ a. a.ty ≡ record { keys = record { name = 105 ∷ []; ty = Nat } ∷ record { name = 107 ∷ []; ty = Nat } ∷ record { name = 106 ∷ []; ty = Nat } ∷ []; vals = record { name = 118 ∷ []; ty = Count } ∷ [] }) }
{
    let a = matrix(alloc, b'i', b'k', left)?;
    let b = matrix(alloc, b'k', b'j', right)?;
    join(alloc, &a, &b)
}

fn names_ij(alloc: Global) -> Result<List<Name>, AllocError>
    ensures { IfOk result (λ ns. ns ≡ (105 ∷ []) ∷ (106 ∷ []) ∷ []) }
{
    let mut names = List::new(alloc);
    names.push(name(alloc, b'i')?)?;
    names.push(name(alloc, b'j')?)?;
    Ok(names)
}

// The product summed by i and j, with no table of the products.
fn summed_at_once(alloc: Global, left: &[Cell], right: &[Cell]) -> Result<Assoc, AllocError> {
    let a = matrix(alloc, b'i', b'k', left)?;
    let b = matrix(alloc, b'k', b'j', right)?;
    let names = names_ij(alloc)?;
    agg_of_join(alloc, &a, &b, &names)
}

// The product summed by i and j.
fn summed(alloc: Global, left: &[Cell], right: &[Cell]) -> Result<Assoc, AllocError> {
    let all = product(alloc, left, right)?;
    let names = names_ij(alloc)?;
    agg(alloc, &all, &names)
}

// The union of a table of v by i and one of w by i.
fn both(alloc: Global, left: &[Item], right: &[Item]) -> Result<Assoc, AllocError> {
    let a = vector(alloc, b'v', left)?;
    let b = vector(alloc, b'w', right)?;
    union(alloc, &a, &b)
}

// The join of two tables of one entry by i with the values v and w.
fn joined_pairs(alloc: Global, left: (u64, u64), right: (u64, u64)) -> Result<Assoc, AllocError> {
    let a = one_pair(alloc, 1, left.0, left.1)?;
    let b = one_pair(alloc, 1, right.0, right.1)?;
    join(alloc, &a, &b)
}

fn is_key(key: &[KeyVal], want: &[u64]) -> bool {
    if key.len() != want.len() {
        return false;
    }
    for (i, k) in key.iter().enumerate() {
        if *k != KeyVal::Nat(want[i]) {
            return false;
        }
    }
    true
}

fn is_row(row: &[Value], want: &[u64]) -> bool {
    if row.len() != want.len() {
        return false;
    }
    for (i, v) in row.iter().enumerate() {
        match v {
            Value::Count(n) if *n == want[i] => {}
            _ => return false,
        }
    }
    true
}

// Whether these are the keys with their rows.
fn are(cells: btree_map::Iter<'_, Tuple, Row>, want: &[(&[u64], &[u64])]) -> bool {
    let mut seen = 0usize;
    for (key, row) in cells {
        if seen >= want.len() {
            return false;
        }
        let (numbers, values) = want[seen];
        if !is_key(key.as_slice(), numbers) || !is_row(row.as_slice(), values) {
            return false;
        }
        seen += 1;
    }
    seen == want.len()
}

// Whether a table has these keys with these rows, and no others.
pub(crate) fn has(table: &Assoc, want: &[(&[u64], &[u64])]) -> bool {
    table.len() == want.len() && are(table.iter(), want)
}

fn product_has(
    alloc: Global,
    left: &[Cell],
    right: &[Cell],
    want: &[(&[u64], &[u64])],
) -> Result<bool, AllocError> {
    let all = product(alloc, left, right)?;
    Ok(has(&all, want))
}

fn sums_have(
    alloc: Global,
    left: &[Cell],
    right: &[Cell],
    want: &[(&[u64], &[u64])],
) -> Result<bool, AllocError> {
    let sums = summed(alloc, left, right)?;
    Ok(has(&sums, want))
}

fn sums_at_once_have(
    alloc: Global,
    left: &[Cell],
    right: &[Cell],
    want: &[(&[u64], &[u64])],
) -> Result<bool, AllocError> {
    let sums = summed_at_once(alloc, left, right)?;
    Ok(has(&sums, want))
}

fn both_have(
    alloc: Global,
    left: &[Item],
    right: &[Item],
    want: &[(&[u64], &[u64])],
) -> Result<bool, AllocError> {
    let all = both(alloc, left, right)?;
    Ok(has(&all, want))
}

fn joined_pairs_have(
    alloc: Global,
    left: (u64, u64),
    right: (u64, u64),
    want: &[(&[u64], &[u64])],
) -> Result<bool, AllocError> {
    let all = joined_pairs(alloc, left, right)?;
    Ok(has(&all, want))
}

// How many key columns and how many value columns a table has.
fn widths(table: &Assoc) -> (usize, usize) {
    (table.ty().keys.len(), table.ty().vals.len())
}

#[test]
fn a_product_has_an_entry_for_each_two_that_agree(rt: HostRuntime) -> Result<(), Fail> {
    let alloc = rt.alloc();
    assert!(rt;
        product_has(
            alloc,
            &[(1, 1, 2), (1, 2, 3)],
            &[(1, 5, 10), (2, 5, 100)],
            &[(&[1, 1, 5], &[20]), (&[1, 2, 5], &[300])],
        )?
    );
    Ok(())
}

#[test]
fn keys_that_agree_with_none_are_in_no_product(rt: HostRuntime) -> Result<(), Fail> {
    let alloc = rt.alloc();
    assert!(rt; product_has(alloc, &[(1, 2, 3)], &[(1, 5, 10)], &[])?);
    assert!(rt; sums_have(alloc, &[(1, 2, 3)], &[], &[])?);
    Ok(())
}

#[test]
fn the_sum_of_a_product_is_the_product_of_matrices(rt: HostRuntime) -> Result<(), Fail> {
    let alloc = rt.alloc();
    assert!(rt;
        sums_have(
            alloc,
            &[(1, 1, 2), (1, 2, 3)],
            &[(1, 5, 10), (2, 5, 100)],
            &[(&[1, 5], &[320])],
        )?
    );
    Ok(())
}

#[test]
fn a_product_is_summed_at_once(rt: HostRuntime) -> Result<(), Fail> {
    let alloc = rt.alloc();
    assert!(rt;
        sums_at_once_have(
            alloc,
            &[(1, 1, 2), (1, 2, 3)],
            &[(1, 5, 10), (2, 5, 100)],
            &[(&[1, 5], &[320])],
        )?
    );
    Ok(())
}

#[test]
fn a_union_has_the_values_of_both(rt: HostRuntime) -> Result<(), Fail> {
    let alloc = rt.alloc();
    assert!(rt;
        both_have(
            alloc,
            &[(1, 5)],
            &[(1, 7), (2, 9)],
            &[(&[1], &[5, 7]), (&[2], &[0, 9])],
        )?
    );
    assert!(rt; both_have(alloc, &[], &[], &[])?);
    Ok(())
}

#[test]
fn a_product_of_zeros_is_no_entry(rt: HostRuntime) -> Result<(), Fail> {
    let alloc = rt.alloc();
    assert!(rt; joined_pairs_have(alloc, (3, 0), (0, 4), &[])?);
    assert!(rt; joined_pairs_have(alloc, (3, 2), (0, 4), &[(&[1], &[0, 8])])?);
    Ok(())
}

fn product_widths(alloc: Global) -> Result<(usize, usize), AllocError> {
    Ok(widths(&product(alloc, &[], &[])?))
}

fn sum_widths(alloc: Global) -> Result<(usize, usize), AllocError> {
    Ok(widths(&summed(alloc, &[], &[])?))
}

fn union_widths(alloc: Global) -> Result<(usize, usize), AllocError> {
    Ok(widths(&both(alloc, &[], &[])?))
}

#[test]
fn each_operation_has_its_columns(rt: HostRuntime) -> Result<(), Fail> {
    let alloc = rt.alloc();
    assert_eq!(rt; product_widths(alloc)?, (3, 1));
    assert_eq!(rt; sum_widths(alloc)?, (2, 1));
    assert_eq!(rt; union_widths(alloc)?, (1, 2));
    Ok(())
}

fn copy_of<T: Copied>(alloc: Global, value: &T) -> Result<T, AllocError> {
    value.copy(alloc)
}

fn copy_has(alloc: Global, cells: &[Cell], want: &[(&[u64], &[u64])]) -> Result<bool, AllocError> {
    let a = matrix(alloc, b'i', b'j', cells)?;
    let copy = copy_of(alloc, &a)?;
    Ok(has(&copy, want))
}

#[test]
fn a_copy_has_the_same_entries(rt: HostRuntime) -> Result<(), Fail> {
    let alloc = rt.alloc();
    assert!(rt;
        copy_has(
            alloc,
            &[(2, 5, 10), (1, 6, 2)],
            &[(&[1, 6], &[2]), (&[2, 5], &[10])],
        )?
    );
    Ok(())
}

// Whether a table over i, j has these entries in the order j, i.
fn turned_has(
    alloc: Global,
    cells: &[Cell],
    want: &[(&[u64], &[u64])],
) -> Result<bool, AllocError> {
    let a = matrix(alloc, b'i', b'j', cells)?;
    let mut order = List::new(alloc);
    order.push(name(alloc, b'j')?)?;
    order.push(name(alloc, b'i')?)?;
    let turned = a.entries_by(alloc, &order)?;
    Ok(are(turned.iter(), want))
}

#[test]
fn entries_are_stored_in_the_order_of_the_columns(rt: HostRuntime) -> Result<(), Fail> {
    let alloc = rt.alloc();
    assert!(rt;
        turned_has(
            alloc,
            &[(2, 5, 10), (1, 6, 2)],
            &[(&[5, 2], &[10]), (&[6, 1], &[2])],
        )?
    );
    Ok(())
}

// How many entries a table over i, j has in a list of them.
fn listed(alloc: Global, cells: &[Cell]) -> Result<usize, AllocError> {
    let a = matrix(alloc, b'i', b'j', cells)?;
    Ok(a.entries(alloc)?.len())
}

// Whether i, j is the order of a table over i and this column.
fn is_order_ij(alloc: Global, second: u8) -> Result<bool, AllocError> {
    let a = matrix(alloc, b'i', second, &[])?;
    Ok(a.is_own_order(&names_ij(alloc)?))
}

#[test]
fn entries_are_listed_and_orders_are_known(rt: HostRuntime) -> Result<(), Fail> {
    let alloc = rt.alloc();
    assert_eq!(rt; listed(alloc, &[(2, 5, 10), (1, 6, 2), (2, 5, 1)])?, 2);
    assert!(rt; is_order_ij(alloc, b'j')?);
    assert!(rt; !is_order_ij(alloc, b'k')?);
    Ok(())
}

fn in_range(alloc: Global, cells: &[Item]) -> Result<bool, AllocError> {
    let a = vector(alloc, b'v', cells)?;
    Ok(a.is_in_range())
}

#[test]
fn a_sum_past_the_range_is_out_of_range(rt: HostRuntime) -> Result<(), Fail> {
    let alloc = rt.alloc();
    let most = u64::MAX - 1;
    assert!(rt; in_range(alloc, &[])?);
    assert!(rt; in_range(alloc, &[(most, 1), (1, most - 1), (1, 1)])?);
    assert!(rt; !in_range(alloc, &[(1, most), (1, 1)])?);
    assert!(rt; !in_range(alloc, &[(u64::MAX, 1)])?);
    Ok(())
}
