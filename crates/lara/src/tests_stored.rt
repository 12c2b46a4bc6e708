//! Loads of a stored table and stores, checked and evaluated: no command of the program has stored tables yet.
ghost use Rattle.std.specs.Prelude.{◌≡◌, ◌≤◌, ◌∷◌, [], true, map, length, IfOk};
ghost use Rattle.lara_key.specs.declared.key.KeyType.TheVariants.{Nat};
ghost use Rattle.lara_key.specs.declared.key.KeyVal.TheVariants as key;
ghost use Rattle.lara_semiring.specs.declared.value.ValType.TheVariants.{Count};
ghost use Rattle.lara_semiring.specs.declared.value.Value.TheVariants as value;
ghost use Rattle.lara_data.specs.Fits.{TablesOf};
ghost use Rattle.lara_data.specs.Names.{distinct};
ghost use Rattle.lara_data.specs.TypedTables.{IsTypedTable};

use crate::tests_tables::{key_col, name, val_cols};
use lara_assoc::{Answers, Assoc, NamedTable, eval};
use lara_base::{List, Name};
use lara_data::{Entry, KeyCol, Plugin, Schema, TableType};
use lara_key::KeyVal;
use lara_semiring::Value;
use lara_syntax::{Ast, AstName, AstStatement, parse};
use lara_types::check;
use std::alloc::{AllocError, Global};
use std::test::Fail;

fn key_cols(alloc: Global) -> Result<List<KeyCol>, AllocError>
    ensures { IfOk result (λ keys. keys ≡ record { name = 107 ∷ []; ty = Nat } ∷ []) }
{
    let mut keys = List::new(alloc);
    keys.push(key_col(alloc, b'k')?)?;
    Ok(keys)
}

// The key column k and the value column v.
fn columns(alloc: Global) -> Result<TableType, AllocError>
    ensures { IfOk result (λ t. t ≡ record { keys = record { name = 107 ∷ []; ty = Nat } ∷ []; vals = record { name = 118 ∷ []; ty = Count } ∷ [] }) }
{
    let keys = key_cols(alloc)?;
    match TableType::new(keys, val_cols(alloc)?) {
        Some(ty) => Ok(ty),
        None => Err(AllocError),
    }
}

// At the key 1 the value 3.
fn entries(alloc: Global) -> Result<List<Entry>, AllocError>
    ensures { IfOk result (λ es. es ≡ record { key = key.Nat 1 ∷ []; row = value.Count 3 ∷ [] } ∷ []) }
{
    let mut key = List::new(alloc);
    key.push(KeyVal::Nat(1))?;
    let mut row = List::new(alloc);
    row.push(Value::Count(3))?;
    let mut entries = List::new(alloc);
    entries.push(Entry { key, row })?;
    Ok(entries)
}

fn table(alloc: Global) -> Result<Assoc, AllocError>
    ensures columns { IfOk result (λ t. t.ty ≡ record { keys = record { name = 107 ∷ []; ty = Nat } ∷ []; vals = record { name = 118 ∷ []; ty = Count } ∷ [] }) }
    ensures typed { IfOk result IsTypedTable }
{
    let ty = columns(alloc)?;
    let entries = entries(alloc)?;
    Assoc::total(alloc, &ty, &entries)
}

// The one stored table, B.
fn tables(alloc: Global) -> Result<List<NamedTable>, AllocError>
    ensures { IfOk result (λ ts. TablesOf (record { name = 66 ∷ []; ty = record { keys = record { name = 107 ∷ []; ty = Nat } ∷ []; vals = record { name = 118 ∷ []; ty = Count } ∷ [] } } ∷ []) ts) }
{
    let name = name(alloc, b'B')?;
    let table = table(alloc)?;
    let mut tables = List::new(alloc);
    tables.push(NamedTable { name, table })?;
    Ok(tables)
}

// Its name and type.
#[tactic(auto, unfolding(lara_data::specs::Names::distinct, lara_data::specs::Names::has))]
fn schemas(alloc: Global) -> Result<List<Schema>, AllocError>
    ensures names { IfOk result (λ ss. distinct (map (λ s. s.name) ss) ≡ true) }
    ensures is { IfOk result (λ ss. ss ≡ record { name = 66 ∷ []; ty = record { keys = record { name = 107 ∷ []; ty = Nat } ∷ []; vals = record { name = 118 ∷ []; ty = Count } ∷ [] } } ∷ []) }
{
    let mut schemas = List::new(alloc);
    schemas.push(Schema {
        name: name(alloc, b'B')?,
        ty: columns(alloc)?,
    })?;
    Ok(schemas)
}

// What a tree prints and stores over stored tables of these names and types.
fn evaluated(
    alloc: Global,
    tree: &Ast,
    schemas: &List<Schema>,
    tables: &List<NamedTable>,
) -> Result<Answers, AllocError>
    requires names { distinct (map (λ s. s.name) schemas.now) ≡ true }
    requires of { TablesOf schemas.now tables.now }
{
    let plugins: Vec<Box<dyn Plugin>> = Vec::new(alloc);
    match check(alloc, tree, schemas, &plugins) {
        Ok(script) => {
            if script.statements.len() < 9 {
                eval(alloc, &script, tables, &plugins)
            } else {
                Err(AllocError)
            }
        }
        Err(_) => Err(AllocError),
    }
}

fn evaluated_over_one(alloc: Global, tree: &Ast) -> Result<Answers, AllocError> {
    let tables = tables(alloc)?;
    let schemas = schemas(alloc)?;
    evaluated(alloc, tree, &schemas, &tables)
}

fn placed(alloc: Global, letter: u8) -> Result<AstName, AllocError> {
    Ok(AstName {
        name: name(alloc, letter)?,
        at: 0,
    })
}

// `A=load B;print A;`, and A stored as K.
fn script(alloc: Global) -> Result<Ast, AllocError> {
    let Ok(mut tree) = parse(alloc, b"A=load B;print A;") else {
        return Err(AllocError);
    };
    tree.statements.push(AstStatement::Store {
        at: 0,
        old: placed(alloc, b'A')?,
        new: placed(alloc, b'K')?,
    })?;
    Ok(tree)
}

fn is_letter(name: &Name, letter: u8) -> bool {
    name.bytes().as_slice() == [letter].as_slice()
}

fn is_cell(entry: &Entry) -> bool {
    match (entry.key.as_slice(), entry.row.as_slice()) {
        ([KeyVal::Nat(1)], [Value::Count(3)]) => true,
        _ => false,
    }
}

// Whether a table has the one entry of B.
fn is_b(alloc: Global, table: &Assoc) -> Result<bool, AllocError> {
    let entries = table.entries(alloc)?;
    match entries.as_slice() {
        [entry] => Ok(is_cell(entry)),
        _ => Ok(false),
    }
}

// Whether one table was printed, A by the second statement, and it is B.
fn is_printed(alloc: Global, answers: &Answers) -> Result<bool, AllocError> {
    match answers.prints.as_slice() {
        [print] => {
            let is_b = is_b(alloc, &print.table)?;
            Ok(is_b && print.statement == 2 && is_letter(&print.name, b'A'))
        }
        _ => Ok(false),
    }
}

// Whether one table was stored, as K by the third statement, and it is B.
fn is_stored(alloc: Global, answers: &Answers) -> Result<bool, AllocError> {
    match answers.stores.as_slice() {
        [store] => {
            let is_b = is_b(alloc, &store.table)?;
            Ok(is_b && store.statement == 3 && is_letter(&store.name, b'K'))
        }
        _ => Ok(false),
    }
}

fn script_prints_and_stores(alloc: Global) -> Result<(bool, bool), AllocError> {
    let tree = script(alloc)?;
    let answers = evaluated_over_one(alloc, &tree)?;
    Ok((is_printed(alloc, &answers)?, is_stored(alloc, &answers)?))
}

#[test]
fn a_stored_table_is_printed_and_stored(rt: HostRuntime) -> Result<(), Fail> {
    assert_eq!(rt; script_prints_and_stores(rt.alloc())?, (true, true));
    Ok(())
}
