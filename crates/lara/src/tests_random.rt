//! Random small tables: what the program prints of their joins, unions and aggs is the text of the plain operations'.
ghost use Rattle.std.specs.Prelude.{◌≡◌, ◌<◌, ◌∷◌, [], true, IfOk};
ghost use Rattle.lara_key.specs.Keys.{tuple_has};
ghost use Rattle.lara_key.specs.declared.key.KeyType.TheVariants.{Nat};
ghost use Rattle.lara_semiring.specs.declared.value.ValType.TheVariants.{Count};
ghost use Rattle.lara_data.specs.KeyedTables.{AllKeys, all_have};

use crate::tests::{Case, NONE, status};
use crate::tests_tables::{key, key_col, name, row, text_of, val_cols};
use itoa::Buffer;
use lara_assoc::{Assoc, agg, join, union};
use lara_base::{Bytes, List, Name};
use lara_data::{Entry, TableType};
use lara_key::Tuple;
use std::alloc::{AllocError, Global};
use std::test::Fail;

// Numbers that look random and are the same in each run: a linear congruential generator, whose high bits are taken.
#[derive(Drop)]
struct Random {
    state: u64,
}

impl Random {
    fn below(&mut self, end: u64) -> u64
        requires { 0 < end }
        ensures { result < end }
    {
        self.state = self
            .state
            .wrapping_mul(6_364_136_223_846_793_005)
            .wrapping_add(1_442_695_040_888_963_407);
        (self.state >> 33) % end
    }
}

// An entry of a table with two key columns and one value column.
#[derive(Clone, Copy)]
struct Cell {
    first: u64,
    second: u64,
    value: u64,
}

// The entries of A over i and k, and of B over k and j.
#[derive(Drop)]
struct Pair {
    a: List<Cell>,
    b: List<Cell>,
}

// Up to six entries, with so few keys and so small values that keys repeat and products vanish.
fn cells(alloc: Global, random: &mut Random) -> Result<List<Cell>, AllocError> {
    let mut cells = List::new(alloc);
    for _ in 0..random.below(7) {
        cells.push(Cell {
            first: random.below(4),
            second: random.below(4),
            value: random.below(6),
        })?;
    }
    Ok(cells)
}

fn random_pair(alloc: Global, seed: u64) -> Result<Pair, AllocError> {
    let mut random = Random { state: seed };
    Ok(Pair {
        a: cells(alloc, &mut random)?,
        b: cells(alloc, &mut random)?,
    })
}

fn add_number(text: &mut Bytes, n: u64) -> Result<(), AllocError> {
    let mut buffer = Buffer::new();
    text.extend_from_slice(buffer.format(n).as_bytes())
}

fn add_cell(text: &mut Bytes, cell: &Cell) -> Result<(), AllocError> {
    text.extend_from_slice(b" ")?;
    add_number(text, cell.first)?;
    text.extend_from_slice(b",")?;
    add_number(text, cell.second)?;
    text.extend_from_slice(b":")?;
    add_number(text, cell.value)?;
    text.extend_from_slice(b";")
}

// Adds the statement that begins with these words and lists the entries.
fn add_table(text: &mut Bytes, begin: &[u8], cells: &List<Cell>) -> Result<(), AllocError> {
    text.extend_from_slice(begin)?;
    for cell in cells.as_slice() {
        add_cell(text, cell)?;
    }
    text.extend_from_slice(b" };\n")
}

// The script that makes A and B and ends with these statements.
fn script(alloc: Global, pair: &Pair, end: &[u8]) -> Result<Bytes, AllocError> {
    let mut text = List::new(alloc);
    add_table(
        &mut text,
        b"A = table [i: nat, k: nat : v: count] {",
        &pair.a,
    )?;
    add_table(
        &mut text,
        b"B = table [k: nat, j: nat : v: count] {",
        &pair.b,
    )?;
    text.extend_from_slice(end)?;
    Ok(text)
}

// Whether the program is done with the script and writes this text.
fn prints(alloc: Global, script: &[u8], text: &[u8]) -> Result<bool, AllocError> {
    let case = Case {
        words: &[b"run"],
        script,
        out: text,
        err: b"",
    };
    Ok(status(alloc, &case, 4096, &NONE)? == Some(0))
}

// The name k alone.
fn name_k(alloc: Global) -> Result<List<Name>, AllocError>
    ensures { IfOk result (λ ns. ns ≡ (107 ∷ []) ∷ []) }
{
    let mut names = List::new(alloc);
    names.push(name(alloc, b'k')?)?;
    Ok(names)
}

// The type with these two key columns and the value column v.
fn columns(alloc: Global, first: u8, second: u8) -> Result<TableType, AllocError>
    ensures { IfOk result (λ t. t ≡ record { keys = record { name = first ∷ []; ty = Nat } ∷ record { name = second ∷ []; ty = Nat } ∷ []; vals = record { name = 118 ∷ []; ty = Count } ∷ [] }) }
{
    let mut keys = List::new(alloc);
    keys.push(key_col(alloc, first)?)?;
    keys.push(key_col(alloc, second)?)?;
    match TableType::new(keys, val_cols(alloc)?) {
        Some(ty) => Ok(ty),
        None => Err(AllocError),
    }
}

// The key of two numbers.
#[tactic(auto, unfolding(lara_key::specs::Keys::tuple_has, lara_key::specs::Keys::has_key_type))]
fn pair_key(alloc: Global, first: u64, second: u64) -> Result<Tuple, AllocError>
    ensures { IfOk result (λ k. tuple_has (Nat ∷ Nat ∷ []) k ≡ true) }
{
    key(alloc, &[first, second])
}

#[tactic(auto, using(lara_assoc::specs::EntryLists::entry_steps))]
fn entries(alloc: Global, cells: &List<Cell>) -> Result<List<Entry>, AllocError>
    ensures keys { IfOk result (AllKeys (λ k. tuple_has (Nat ∷ Nat ∷ []) k ≡ true)) }
    ensures rows { IfOk result (λ es. all_have (Count ∷ []) es ≡ true) }
{
    let mut entries = List::new(alloc);
    for cell in cells.as_slice() {
        entries.push(Entry {
            key: pair_key(alloc, cell.first, cell.second)?,
            row: row(alloc, cell.value)?,
        })?;
    }
    Ok(entries)
}

#[tactic(auto, unfolding(lara_data::specs::Tables::table_of))]
fn table(alloc: Global, first: u8, second: u8, cells: &List<Cell>) -> Result<Assoc, AllocError>
    ensures { IfOk result (λ a. a.ty ≡ record { keys = record { name = first ∷ []; ty = Nat } ∷ record { name = second ∷ []; ty = Nat } ∷ []; vals = record { name = 118 ∷ []; ty = Count } ∷ [] }) }
{
    let ty = columns(alloc, first, second)?;
    let entries = entries(alloc, cells)?;
    Assoc::total(alloc, &ty, &entries)
}

fn joined(alloc: Global, pair: &Pair) -> Result<Assoc, AllocError> {
    let a = table(alloc, b'i', b'k', &pair.a)?;
    let b = table(alloc, b'k', b'j', &pair.b)?;
    join(alloc, &a, &b)
}

fn united(alloc: Global, pair: &Pair) -> Result<Assoc, AllocError> {
    let a = table(alloc, b'i', b'k', &pair.a)?;
    let b = table(alloc, b'k', b'j', &pair.b)?;
    union(alloc, &a, &b)
}

fn summed(alloc: Global, pair: &Pair) -> Result<Assoc, AllocError> {
    let a = table(alloc, b'i', b'k', &pair.a)?;
    let keys = name_k(alloc)?;
    agg(alloc, &a, &keys)
}

// Whether the program printed the table's text, and whether the table has an entry.
#[derive(Clone, Copy)]
struct Compared {
    same: bool,
    has_entry: bool,
}

// Runs the script of the pair with these last statements, which are to print this table in this order.
fn compare(
    alloc: Global,
    pair: &Pair,
    end: &[u8],
    table: &Assoc,
    order: &[u8],
) -> Result<Compared, AllocError> {
    let script = script(alloc, pair, end)?;
    let text = text_of(alloc, table, b'C', order)?;
    let same = prints(alloc, script.as_slice(), text.as_slice())?;
    let has_entry = !table.entries(alloc)?.is_empty();
    Ok(Compared { same, has_entry })
}

fn compare_join(alloc: Global, round: u64) -> Result<Compared, AllocError> {
    let pair = random_pair(alloc, round)?;
    let table = joined(alloc, &pair)?;
    let end = b"C = join A B;\nprint C by j, i, k;\n";
    compare(alloc, &pair, end, &table, b"jik")
}

fn compare_union(alloc: Global, round: u64) -> Result<Compared, AllocError> {
    let pair = random_pair(alloc, round)?;
    let table = united(alloc, &pair)?;
    let end = b"C = union A B;\nprint C by k;\n";
    compare(alloc, &pair, end, &table, b"k")
}

fn compare_agg(alloc: Global, round: u64) -> Result<Compared, AllocError> {
    let pair = random_pair(alloc, round)?;
    let table = summed(alloc, &pair)?;
    let end = b"C = agg A by k;\nprint C by k;\n";
    compare(alloc, &pair, end, &table, b"k")
}

// The least of a test's hundred tables that are to have an entry, since empty ones would show little.
const LEAST: u64 = 34;

#[test]
fn joins_print_as_plain_tables(rt: HostRuntime) -> Result<(), Fail> {
    let mut full = 0u64;
    for round in 0..100u64 {
        let compared = compare_join(rt.alloc(), round)?;
        assert!(rt; compared.same, "at {round}");
        if compared.has_entry {
            full += 1;
        }
    }
    assert!(rt; full >= LEAST);
    Ok(())
}

#[test]
fn unions_print_as_plain_tables(rt: HostRuntime) -> Result<(), Fail> {
    let mut full = 0u64;
    for round in 100..200u64 {
        let compared = compare_union(rt.alloc(), round)?;
        assert!(rt; compared.same, "at {round}");
        if compared.has_entry {
            full += 1;
        }
    }
    assert!(rt; full >= LEAST);
    Ok(())
}

#[test]
fn aggs_print_as_plain_tables(rt: HostRuntime) -> Result<(), Fail> {
    let mut full = 0u64;
    for round in 200..300u64 {
        let compared = compare_agg(rt.alloc(), round)?;
        assert!(rt; compared.same, "at {round}");
        if compared.has_entry {
            full += 1;
        }
    }
    assert!(rt; full >= LEAST);
    Ok(())
}
