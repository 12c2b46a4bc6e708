//! The columns of a table as text.
ghost use Rattle.std.specs.Prelude.{◌≡◌, ◌++◌, codes, OnOk};
ghost use Rattle.std.specs.List.{flat_map, join_by};
ghost use Rattle.lara_text.specs.TableTexts.{key_type_text, val_type_text, key_column_text, val_column_text, key_columns_text};

use lara_base::{Bytes, List};
use lara_data::{KeyCol, ValCol};
use lara_key::KeyType;
use lara_semiring::ValType;
use std::alloc::AllocError;

#[tactic(auto, unfolding(crate::specs::TableTexts::key_type_text))]
fn add_key_type(text: &mut Bytes, ty: KeyType) -> Result<(), AllocError>
    ensures { OnOk result (text.new ≡ text.old ++ key_type_text ty) }
{
    match ty {
        KeyType::Nat => text.extend_from_slice(b"nat"),
        KeyType::Text => text.extend_from_slice(b"text"),
        KeyType::Flag => text.extend_from_slice(b"flag"),
    }
}

#[tactic(auto, unfolding(crate::specs::TableTexts::val_type_text))]
fn add_val_type(text: &mut Bytes, ty: ValType) -> Result<(), AllocError>
    ensures { OnOk result (text.new ≡ text.old ++ val_type_text ty) }
{
    match ty {
        ValType::Count => text.extend_from_slice(b"count"),
        ValType::MinPlus => text.extend_from_slice(b"minplus"),
        ValType::MaxMin => text.extend_from_slice(b"maxmin"),
        ValType::Flag => text.extend_from_slice(b"flag"),
        ValType::Last => text.extend_from_slice(b"last"),
        ValType::Path => text.extend_from_slice(b"path"),
    }
}

// Adds a key column with its type.
#[tactic(auto, unfolding(crate::specs::TableTexts::key_column_text))]
fn add_key_column(text: &mut Bytes, key: &KeyCol) -> Result<(), AllocError>
    ensures { OnOk result (text.new ≡ text.old ++ key_column_text key.now) }
{
    text.extend_from_slice(key.name.bytes().as_slice())?;
    text.extend_from_slice(b": ")?;
    add_key_type(text, key.ty)
}

// Adds a value column with its type.
#[tactic(auto, unfolding(crate::specs::TableTexts::val_column_text))]
fn add_val_column(text: &mut Bytes, val: &ValCol) -> Result<(), AllocError>
    ensures { OnOk result (text.new ≡ text.old ++ val_column_text val.now) }
{
    text.extend_from_slice(val.name.bytes().as_slice())?;
    text.extend_from_slice(b": ")?;
    add_val_type(text, val.ty)
}

#[tactic(auto, using(crate::proofs::TextFacts::joined_facts))]
fn add_joined_keys(text: &mut Bytes, keys: &List<KeyCol>) -> Result<(), AllocError>
    ensures { OnOk result (text.new ≡ text.old ++ join_by key_column_text (codes ", ") keys.now) }
{
    match keys.as_slice() {
        [] => Ok(()),
        [first, others @ ..] => {
            add_key_column(text, first)?;
            for key in others {
                text.extend_from_slice(b", ")?;
                add_key_column(text, key)?;
            }
            Ok(())
        }
    }
}

/// Adds key columns with commas between, and a space behind them where there are any.
#[tactic(auto, using(crate::proofs::TextFacts::key_column_facts))]
pub fn add_key_columns(text: &mut Bytes, keys: &List<KeyCol>) -> Result<(), AllocError>
    ensures { OnOk result (text.new ≡ text.old ++ key_columns_text keys.now) }
{
    if keys.is_empty() {
        return Ok(());
    }
    add_joined_keys(text, keys)?;
    text.extend_from_slice(b" ")
}

/// Adds value columns with commas between.
#[tactic(auto, using(crate::proofs::TextFacts::joined_facts))]
pub fn add_val_columns(text: &mut Bytes, vals: &List<ValCol>) -> Result<(), AllocError>
    ensures { OnOk result (text.new ≡ text.old ++ join_by val_column_text (codes ", ") vals.now) }
{
    match vals.as_slice() {
        [] => Ok(()),
        [first, others @ ..] => {
            add_val_column(text, first)?;
            for val in others {
                text.extend_from_slice(b", ")?;
                add_val_column(text, val)?;
            }
            Ok(())
        }
    }
}
