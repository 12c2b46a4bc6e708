//! Values as they are written, and the entries of a literal.
ghost use Rattle.std.specs.Prelude.{◌≡◌, ◌∷◌, ◌+◌, ◌≤◌, ◌<◌, [], length, Some, IfOk, IsOk, IsTrue};
ghost use Rattle.lara_syntax.specs.Atoms.{is_plain_lexeme, HoldNoText};
ghost use Rattle.lara_syntax.specs.Steps.{HasMemory, Gives, items_from};
ghost use Rattle.lara_syntax.specs.Places.{first_at};
ghost use Rattle.lara_syntax.specs.Reading.{comma_lit, lits, some_lits, entry, an_entry, entry_here, semi_entry, some_entries};
ghost use Rattle.lara_syntax.specs.WordReading.{literal_of, is_literal, lit};

use crate::ast::{AstEntry, AstLit, AstValue};
use crate::fault::Fault;
use crate::item::{Item, Keyword, Lexeme, Sign};
use crate::steps::{next, sign, stopped};
use lara_base::{Copied, List};
use lara_data::Kind;
use std::alloc::{AllocError, Global};

// The value of a word that is a literal. A text is copied, and memory is taken for nothing else.
fn literal_of(alloc: Global, lexeme: &Lexeme) -> Result<Option<AstValue>, AllocError>
    ensures value { IfOk result (λ v. v ≡ literal_of lexeme.now) }
    ensures exact { IsTrue (is_plain_lexeme lexeme.now) → IsOk result }
{
    Ok(match lexeme {
        Lexeme::Number(n) => Some(AstValue::Number(*n)),
        Lexeme::Text(content) => Some(AstValue::Text(content.copy(alloc)?)),
        Lexeme::Key(Keyword::True) => Some(AstValue::Flag(true)),
        Lexeme::Key(Keyword::False) => Some(AstValue::Flag(false)),
        Lexeme::Key(Keyword::Inf) => Some(AstValue::Inf),
        Lexeme::Key(Keyword::None) => Some(AstValue::None),
        _ => None,
    })
}

// Whether a word is a literal, with no copy of it.
fn is_literal(lexeme: &Lexeme) -> bool
    ensures { result ≡ is_literal (Some lexeme.now) }
{
    match lexeme {
        Lexeme::Number(_) | Lexeme::Text(_) => true,
        Lexeme::Key(Keyword::True | Keyword::False | Keyword::Inf | Keyword::None) => true,
        _ => false,
    }
}

/// lit, one word
#[tactic(auto, unfolding(crate::specs::WordReading::lit))]
pub fn lit(alloc: Global, items: &[Item]) -> Result<(AstLit, &[Item]), Fault>
    ensures gives { Gives (λ x. (x.0, x.1.now)) result (lit items.now) }
    ensures exact { HoldNoText items.now → HasMemory result }
{
    let Some((item, rest)) = next(items) else {
        return Err(stopped(items, Kind::Unexpected).into());
    };
    match literal_of(alloc, &item.lexeme)? {
        Some(value) => Ok((AstLit { at: item.at, value }, rest)),
        None => Err(stopped(items, Kind::Unexpected).into()),
    }
}

// [ "," lit ]
#[tactic(auto, unfolding(crate::specs::Reading::comma_lit))]
fn comma_lit(alloc: Global, items: &[Item]) -> Result<(Option<AstLit>, &[Item]), Fault>
    ensures gives { Gives (λ x. (x.0, x.1.now)) result (comma_lit items.now) }
    ensures exact { HoldNoText items.now → HasMemory result }
{
    let Some((item, rest)) = next(items) else {
        return Ok((None, items));
    };
    match &item.lexeme {
        Lexeme::Sign(Sign::Comma) => {
            let (x, rest) = lit(alloc, rest)?;
            Ok((Some(x), rest))
        }
        _ => Ok((None, items)),
    }
}

// { "," lit }
#[tactic(auto, using(crate::proofs::Turns::items_laws, crate::proofs::RuleReaders::short_laws))]
fn more_lits(
    alloc: Global,
    lits: List<AstLit>,
    items: &[Item],
) -> Result<(List<AstLit>, &[Item]), Fault>
    ensures { Gives (λ x. (x.0, x.1.now)) result (items_from comma_lit lits items.now) }
{
    let mut lits = lits;
    let mut rest = items;
    loop {
        let (x, after) = comma_lit(alloc, rest)?;
        rest = after;
        match x {
            None => return Ok((lits, rest)),
            Some(x) => lits.push(x)?,
        }
    }
}

// lit { "," lit }
#[tactic(auto, unfolding(crate::specs::Reading::lits))]
fn lits(alloc: Global, items: &[Item]) -> Result<(List<AstLit>, &[Item]), Fault>
    ensures { Gives (λ x. (x.0, x.1.now)) result (lits items.now) }
{
    let mut lits = List::new(alloc);
    let (x, rest) = lit(alloc, items)?;
    lits.push(x)?;
    more_lits(alloc, lits, rest)
}

// [ lit { "," lit } ]
#[tactic(auto, unfolding(crate::specs::Reading::some_lits))]
fn some_lits(alloc: Global, items: &[Item]) -> Result<(List<AstLit>, &[Item]), Fault>
    ensures { Gives (λ x. (x.0, x.1.now)) result (some_lits items.now) }
{
    let Some((item, _)) = next(items) else {
        return Ok((List::new(alloc), items));
    };
    if is_literal(&item.lexeme) {
        lits(alloc, items)
    } else {
        Ok((List::new(alloc), items))
    }
}

// The place of the first of a list, or another.
fn first_at(lits: &[AstLit], at: u32) -> u32
    ensures { result ≡ first_at lits.now at }
{
    match lits {
        [] => at,
        [first, ..] => first.at,
    }
}

// entry = [ lit { "," lit } ] ":" lit { "," lit }
#[tactic(auto, unfolding(crate::specs::Reading::entry))]
fn entry(alloc: Global, items: &[Item]) -> Result<(AstEntry, &[Item]), Fault>
    ensures { Gives (λ x. (x.0, x.1.now)) result (entry items.now) }
{
    let (key, rest) = some_lits(alloc, items)?;
    let (at, rest) = sign(rest, Sign::Colon)?;
    let (row, rest) = lits(alloc, rest)?;
    let at = first_at(key.as_slice(), at);
    Ok((AstEntry { at, key, row }, rest))
}

// entry, where one is known to begin
fn an_entry(alloc: Global, items: &[Item]) -> Result<(Option<AstEntry>, &[Item]), Fault>
    ensures { Gives (λ x. (x.0, x.1.now)) result (an_entry items.now) }
{
    let (x, rest) = entry(alloc, items)?;
    Ok((Some(x), rest))
}

// [ entry ]
#[tactic(auto, unfolding(crate::specs::Reading::entry_here))]
fn entry_here(alloc: Global, items: &[Item]) -> Result<(Option<AstEntry>, &[Item]), Fault>
    ensures { Gives (λ x. (x.0, x.1.now)) result (entry_here items.now) }
{
    let Some((item, _)) = next(items) else {
        return Ok((None, items));
    };
    if let Lexeme::Sign(Sign::Colon) = &item.lexeme {
        return an_entry(alloc, items);
    }
    if is_literal(&item.lexeme) {
        an_entry(alloc, items)
    } else {
        Ok((None, items))
    }
}

// [ ";" [ entry ] ]
#[tactic(auto, unfolding(crate::specs::Reading::semi_entry))]
fn semi_entry(alloc: Global, items: &[Item]) -> Result<(Option<AstEntry>, &[Item]), Fault>
    ensures { Gives (λ x. (x.0, x.1.now)) result (semi_entry items.now) }
{
    let Some((item, rest)) = next(items) else {
        return Ok((None, items));
    };
    match &item.lexeme {
        Lexeme::Sign(Sign::Semi) => entry_here(alloc, rest),
        _ => Ok((None, items)),
    }
}

// { ";" entry } [ ";" ]
#[tactic(auto, using(crate::proofs::Turns::items_laws, crate::proofs::RuleReaders::short_laws))]
fn more_entries(
    alloc: Global,
    entries: List<AstEntry>,
    items: &[Item],
) -> Result<(List<AstEntry>, &[Item]), Fault>
    ensures { Gives (λ x. (x.0, x.1.now)) result (items_from semi_entry entries items.now) }
{
    let mut entries = entries;
    let mut rest = items;
    loop {
        let (x, after) = semi_entry(alloc, rest)?;
        rest = after;
        match x {
            None => return Ok((entries, rest)),
            Some(x) => entries.push(x)?,
        }
    }
}

/// [ entries ], entries = entry { ";" entry } [ ";" ]
#[tactic(auto, unfolding(crate::specs::Reading::some_entries))]
pub fn some_entries(alloc: Global, items: &[Item]) -> Result<(List<AstEntry>, &[Item]), Fault>
    ensures { Gives (λ x. (x.0, x.1.now)) result (some_entries items.now) }
{
    let mut entries = List::new(alloc);
    let (x, rest) = entry_here(alloc, items)?;
    let Some(x) = x else {
        return Ok((entries, rest));
    };
    entries.push(x)?;
    more_entries(alloc, entries, rest)
}
