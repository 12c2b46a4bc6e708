//! The columns of a literal: `type = "[" [ key_col { "," key_col } ] ":" val_col { "," val_col } "]"`.
ghost use Rattle.std.specs.Prelude.{◌≡◌, ◌∷◌, ◌+◌, ◌≤◌, ◌<◌, [], length, IfOk};
ghost use Rattle.lara_syntax.specs.Returns.{Returns};
ghost use Rattle.lara_syntax.specs.Steps.{Gives, items_from};
ghost use Rattle.lara_syntax.specs.Reading.{key_col, val_col, comma_key_col, comma_val_col, some_key_cols, val_cols, table_type};
ghost use Rattle.lara_syntax.specs.WordReading.{word_key_type, word_val_type, key_type, val_type};

use crate::ast::{AstKeyCol, AstType, AstValCol};
use crate::fault::{Fault, Stop};
use crate::item::{Item, Keyword, Lexeme, Sign};
use crate::steps::{name, next, sign, stopped};
use lara_base::List;
use lara_data::Kind;
use lara_key::KeyType;
use lara_semiring::ValType;
use std::alloc::Global;

// The type of key columns that a word stands for.
fn word_key_type(lexeme: &Lexeme) -> Option<KeyType>
    ensures { result ≡ word_key_type lexeme.now }
{
    match lexeme {
        Lexeme::Key(Keyword::Nat) => Some(KeyType::Nat),
        Lexeme::Key(Keyword::Text) => Some(KeyType::Text),
        Lexeme::Key(Keyword::Flag) => Some(KeyType::Flag),
        _ => None,
    }
}

// keytype, one word
#[tactic(auto, unfolding(crate::specs::WordReading::key_type))]
fn key_type(items: &[Item]) -> Result<(KeyType, &[Item]), Stop>
    ensures { Returns (λ x. (x.0, x.1.now)) result (key_type items.now) }
{
    let Some((item, rest)) = next(items) else {
        return Err(stopped(items, Kind::Unexpected));
    };
    match word_key_type(&item.lexeme) {
        Some(ty) => Ok((ty, rest)),
        None => Err(stopped(items, Kind::Unexpected)),
    }
}

// The type of value columns that a word stands for.
fn word_val_type(lexeme: &Lexeme) -> Option<ValType>
    ensures { result ≡ word_val_type lexeme.now }
{
    match lexeme {
        Lexeme::Key(Keyword::Count) => Some(ValType::Count),
        Lexeme::Key(Keyword::MinPlus) => Some(ValType::MinPlus),
        Lexeme::Key(Keyword::MaxMin) => Some(ValType::MaxMin),
        Lexeme::Key(Keyword::Flag) => Some(ValType::Flag),
        Lexeme::Key(Keyword::Last) => Some(ValType::Last),
        Lexeme::Key(Keyword::Path) => Some(ValType::Path),
        _ => None,
    }
}

// valtype, one word
#[tactic(auto, unfolding(crate::specs::WordReading::val_type))]
fn val_type(items: &[Item]) -> Result<(ValType, &[Item]), Stop>
    ensures { Returns (λ x. (x.0, x.1.now)) result (val_type items.now) }
{
    let Some((item, rest)) = next(items) else {
        return Err(stopped(items, Kind::Unexpected));
    };
    match word_val_type(&item.lexeme) {
        Some(ty) => Ok((ty, rest)),
        None => Err(stopped(items, Kind::Unexpected)),
    }
}

/// key_col = NAME ":" keytype
#[tactic(auto, unfolding(crate::specs::Reading::key_col))]
pub fn key_col(alloc: Global, items: &[Item]) -> Result<(AstKeyCol, &[Item]), Fault>
    ensures { Gives (λ x. (x.0, x.1.now)) result (key_col items.now) }
{
    let (name, rest) = name(alloc, items)?;
    let (_, rest) = sign(rest, Sign::Colon)?;
    let (ty, rest) = key_type(rest)?;
    Ok((AstKeyCol { name, ty }, rest))
}

// [ "," key_col ]
#[tactic(auto, unfolding(crate::specs::Reading::comma_key_col))]
fn comma_key_col(alloc: Global, items: &[Item]) -> Result<(Option<AstKeyCol>, &[Item]), Fault>
    ensures { Gives (λ x. (x.0, x.1.now)) result (comma_key_col items.now) }
{
    let Some((item, rest)) = next(items) else {
        return Ok((None, items));
    };
    match &item.lexeme {
        Lexeme::Sign(Sign::Comma) => {
            let (x, rest) = key_col(alloc, rest)?;
            Ok((Some(x), rest))
        }
        _ => Ok((None, items)),
    }
}

// { "," key_col }
#[tactic(auto, using(crate::proofs::Turns::items_laws, crate::proofs::RuleReaders::short_laws))]
fn more_key_cols(
    alloc: Global,
    cols: List<AstKeyCol>,
    items: &[Item],
) -> Result<(List<AstKeyCol>, &[Item]), Fault>
    ensures { Gives (λ x. (x.0, x.1.now)) result (items_from comma_key_col cols items.now) }
{
    let mut cols = cols;
    let mut rest = items;
    loop {
        let (x, after) = comma_key_col(alloc, rest)?;
        rest = after;
        match x {
            None => return Ok((cols, rest)),
            Some(x) => cols.push(x)?,
        }
    }
}

// [ key_col { "," key_col } ]
#[tactic(auto, unfolding(crate::specs::Reading::some_key_cols))]
fn some_key_cols(alloc: Global, items: &[Item]) -> Result<(List<AstKeyCol>, &[Item]), Fault>
    ensures { Gives (λ x. (x.0, x.1.now)) result (some_key_cols items.now) }
{
    let mut cols = List::new(alloc);
    let Some((item, _)) = next(items) else {
        return Ok((cols, items));
    };
    match &item.lexeme {
        Lexeme::Name(_) => {
            let (x, rest) = key_col(alloc, items)?;
            cols.push(x)?;
            more_key_cols(alloc, cols, rest)
        }
        _ => Ok((cols, items)),
    }
}

/// val_col = NAME ":" valtype
#[tactic(auto, unfolding(crate::specs::Reading::val_col))]
pub fn val_col(alloc: Global, items: &[Item]) -> Result<(AstValCol, &[Item]), Fault>
    ensures { Gives (λ x. (x.0, x.1.now)) result (val_col items.now) }
{
    let (name, rest) = name(alloc, items)?;
    let (_, rest) = sign(rest, Sign::Colon)?;
    let (ty, rest) = val_type(rest)?;
    Ok((AstValCol { name, ty }, rest))
}

// [ "," val_col ]
#[tactic(auto, unfolding(crate::specs::Reading::comma_val_col))]
fn comma_val_col(alloc: Global, items: &[Item]) -> Result<(Option<AstValCol>, &[Item]), Fault>
    ensures { Gives (λ x. (x.0, x.1.now)) result (comma_val_col items.now) }
{
    let Some((item, rest)) = next(items) else {
        return Ok((None, items));
    };
    match &item.lexeme {
        Lexeme::Sign(Sign::Comma) => {
            let (x, rest) = val_col(alloc, rest)?;
            Ok((Some(x), rest))
        }
        _ => Ok((None, items)),
    }
}

// { "," val_col }
#[tactic(auto, using(crate::proofs::Turns::items_laws, crate::proofs::RuleReaders::short_laws))]
fn more_val_cols(
    alloc: Global,
    cols: List<AstValCol>,
    items: &[Item],
) -> Result<(List<AstValCol>, &[Item]), Fault>
    ensures { Gives (λ x. (x.0, x.1.now)) result (items_from comma_val_col cols items.now) }
{
    let mut cols = cols;
    let mut rest = items;
    loop {
        let (x, after) = comma_val_col(alloc, rest)?;
        rest = after;
        match x {
            None => return Ok((cols, rest)),
            Some(x) => cols.push(x)?,
        }
    }
}

// val_col { "," val_col }
#[tactic(auto, unfolding(crate::specs::Reading::val_cols))]
fn read_val_cols(alloc: Global, items: &[Item]) -> Result<(List<AstValCol>, &[Item]), Fault>
    ensures { Gives (λ x. (x.0, x.1.now)) result (val_cols items.now) }
{
    let mut cols = List::new(alloc);
    let (x, rest) = val_col(alloc, items)?;
    cols.push(x)?;
    more_val_cols(alloc, cols, rest)
}

// The same, of which there is one at least.
#[tactic(auto, using(crate::proofs::Sound::val_cols_some))]
fn val_cols(alloc: Global, items: &[Item]) -> Result<(List<AstValCol>, &[Item]), Fault>
    ensures gives { Gives (λ x. (x.0, x.1.now)) result (val_cols items.now) }
    ensures some { IfOk result (λ x. 0 < length x.0) }
{
    read_val_cols(alloc, items)
}

/// type = "[" [ key_col { "," key_col } ] ":" val_col { "," val_col } "]"
#[tactic(auto, unfolding(crate::specs::Reading::table_type))]
pub fn table_type(alloc: Global, items: &[Item]) -> Result<(AstType, &[Item]), Fault>
    ensures { Gives (λ x. (x.0, x.1.now)) result (table_type items.now) }
{
    let (_, rest) = sign(items, Sign::OpenBracket)?;
    let (keys, rest) = some_key_cols(alloc, rest)?;
    let (_, rest) = sign(rest, Sign::Colon)?;
    let (vals, rest) = val_cols(alloc, rest)?;
    let (_, rest) = sign(rest, Sign::CloseBracket)?;
    Ok((AstType { keys, vals }, rest))
}
