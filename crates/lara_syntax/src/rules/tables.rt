//! Tables, with what is counted in their statement up to their end.
ghost use Rattle.std.specs.Prelude.{◌≡◌, ◌∷◌, ◌+◌, ◌≤◌, ◌<◌, [], length, IfOk};
ghost use Rattle.lara_syntax.specs.Limits.{most};
ghost use Rattle.lara_syntax.specs.Returns.{Returns};
ghost use Rattle.lara_syntax.specs.Steps.{Gives};
ghost use Rattle.lara_syntax.specs.Reading.{operator_word, join_with, union_with, agg_with, map_with, filter_with, promote_with, rename_with, inside, operand, table};

use crate::ast::{AstNode, AstOp};
use crate::count::Count;
use crate::fault::{Fault, Stop};
use crate::item::{Item, Keyword, Lexeme, Sign};
use crate::rules::defs::{defs, key_def};
use crate::rules::exprs::expr;
use crate::rules::leaves::leaf;
use crate::rules::names::some_names;
use crate::rules::pairs::pairs;
use crate::steps::{keyword, next, sign, stopped};
use lara_base::Boxed;
use lara_data::Kind;
use std::alloc::Global;

// The place of an operator word behind so many others.
#[tactic(auto, unfolding(crate::specs::Reading::operator_word))]
fn operator_word(items: &[Item], taken: Count) -> Result<(u32, &[Item]), Stop>
    ensures gives { Returns (λ x. (x.0, x.1.now)) result (operator_word most.counted taken items.now) }
    ensures room { IfOk result (λ x. taken.operators < most.counted.operators) }
{
    if taken.has_room() {
        let Some((item, rest)) = next(items) else {
            return Err(stopped(items, Kind::Unexpected));
        };
        Ok((item.at, rest))
    } else {
        Err(stopped(items, Kind::TooMany))
    }
}

// "join" operand operand
#[cycle(tables)]
fn join(
    alloc: Global,
    levels: u32,
    taken: Count,
    items: &[Item],
) -> Result<(AstNode, Count, &[Item]), Fault>
    ensures { Gives (λ x. ((x.0, x.1), x.2.now)) result (join_with most.counted (operand most.counted levels) taken items.now) }
{
    let (at, rest) = operator_word(items, taken)?;
    let (a, taken, rest) = operand(alloc, levels, taken.one_operator(), rest)?;
    let (b, taken, rest) = operand(alloc, levels, taken, rest)?;
    let op = AstOp::Join(Boxed::new(alloc, a)?, Boxed::new(alloc, b)?);
    Ok((AstNode { at, op }, taken, rest))
}

// "union" operand operand
#[cycle(tables)]
fn union(
    alloc: Global,
    levels: u32,
    taken: Count,
    items: &[Item],
) -> Result<(AstNode, Count, &[Item]), Fault>
    ensures { Gives (λ x. ((x.0, x.1), x.2.now)) result (union_with most.counted (operand most.counted levels) taken items.now) }
{
    let (at, rest) = operator_word(items, taken)?;
    let (a, taken, rest) = operand(alloc, levels, taken.one_operator(), rest)?;
    let (b, taken, rest) = operand(alloc, levels, taken, rest)?;
    let op = AstOp::Union(Boxed::new(alloc, a)?, Boxed::new(alloc, b)?);
    Ok((AstNode { at, op }, taken, rest))
}

// "agg" operand "by" [ names ]
#[cycle(tables)]
fn agg(
    alloc: Global,
    levels: u32,
    taken: Count,
    items: &[Item],
) -> Result<(AstNode, Count, &[Item]), Fault>
    ensures { Gives (λ x. ((x.0, x.1), x.2.now)) result (agg_with most.counted (operand most.counted levels) taken items.now) }
{
    let (at, rest) = operator_word(items, taken)?;
    let (a, taken, rest) = operand(alloc, levels, taken.one_operator(), rest)?;
    let (_, rest) = keyword(rest, Keyword::By)?;
    let (names, rest) = some_names(alloc, rest)?;
    let op = AstOp::Agg(Boxed::new(alloc, a)?, names);
    Ok((AstNode { at, op }, taken, rest))
}

// "map" operand "to" defs
#[cycle(tables)]
fn map(
    alloc: Global,
    levels: u32,
    taken: Count,
    items: &[Item],
) -> Result<(AstNode, Count, &[Item]), Fault>
    ensures { Gives (λ x. ((x.0, x.1), x.2.now)) result (map_with most.counted levels (operand most.counted levels) taken items.now) }
{
    let (at, rest) = operator_word(items, taken)?;
    let (a, taken, rest) = operand(alloc, levels, taken.one_operator(), rest)?;
    let (_, rest) = keyword(rest, Keyword::To)?;
    let (defs, taken, rest) = defs(alloc, levels, taken, rest)?;
    let op = AstOp::Map(Boxed::new(alloc, a)?, defs);
    Ok((AstNode { at, op }, taken, rest))
}

// "filter" operand "where" expr
#[cycle(tables)]
fn filter(
    alloc: Global,
    levels: u32,
    taken: Count,
    items: &[Item],
) -> Result<(AstNode, Count, &[Item]), Fault>
    ensures { Gives (λ x. ((x.0, x.1), x.2.now)) result (filter_with most.counted levels (operand most.counted levels) taken items.now) }
{
    let (at, rest) = operator_word(items, taken)?;
    let (a, taken, rest) = operand(alloc, levels, taken.one_operator(), rest)?;
    let (_, rest) = keyword(rest, Keyword::Where)?;
    let (test, taken, rest) = expr(alloc, levels, taken, rest)?;
    let op = AstOp::Filter(Boxed::new(alloc, a)?, test);
    Ok((AstNode { at, op }, taken, rest))
}

// "promote" operand "to" key_def
#[cycle(tables)]
fn promote(
    alloc: Global,
    levels: u32,
    taken: Count,
    items: &[Item],
) -> Result<(AstNode, Count, &[Item]), Fault>
    ensures { Gives (λ x. ((x.0, x.1), x.2.now)) result (promote_with most.counted levels (operand most.counted levels) taken items.now) }
{
    let (at, rest) = operator_word(items, taken)?;
    let (a, taken, rest) = operand(alloc, levels, taken.one_operator(), rest)?;
    let (_, rest) = keyword(rest, Keyword::To)?;
    let (def, taken, rest) = key_def(alloc, levels, taken, rest)?;
    let op = AstOp::Promote(Boxed::new(alloc, a)?, def);
    Ok((AstNode { at, op }, taken, rest))
}

// "rename" operand pair { "," pair }
#[cycle(tables)]
fn rename(
    alloc: Global,
    levels: u32,
    taken: Count,
    items: &[Item],
) -> Result<(AstNode, Count, &[Item]), Fault>
    ensures { Gives (λ x. ((x.0, x.1), x.2.now)) result (rename_with most.counted (operand most.counted levels) taken items.now) }
{
    let (at, rest) = operator_word(items, taken)?;
    let (a, taken, rest) = operand(alloc, levels, taken.one_operator(), rest)?;
    let (pairs, rest) = pairs(alloc, rest)?;
    let op = AstOp::Rename(Boxed::new(alloc, a)?, pairs);
    Ok((AstNode { at, op }, taken, rest))
}

// "(" table ")", where so many levels of it may still be opened
#[tactic(auto, using(crate::proofs::Levels::inside_laws))]
#[cycle(tables)]
fn inside(
    alloc: Global,
    levels: u32,
    taken: Count,
    items: &[Item],
) -> Result<(AstNode, Count, &[Item]), Fault>
    ensures { Gives (λ x. ((x.0, x.1), x.2.now)) result (inside most.counted levels taken items.now) }
{
    if levels == 0 {
        return Err(stopped(items, Kind::TooMany).into());
    }
    let Some((_, rest)) = next(items) else {
        return Err(stopped(items, Kind::Unexpected).into());
    };
    let (x, taken, rest) = table(alloc, levels - 1, taken, rest)?;
    let (_, rest) = sign(rest, Sign::Close)?;
    Ok((x, taken, rest))
}

// operand = leaf | "(" table ")"
#[tactic(auto, unfolding(crate::specs::Reading::operand))]
#[cycle(tables)]
fn operand(
    alloc: Global,
    levels: u32,
    taken: Count,
    items: &[Item],
) -> Result<(AstNode, Count, &[Item]), Fault>
    ensures { Gives (λ x. ((x.0, x.1), x.2.now)) result (operand most.counted levels taken items.now) }
{
    if let Some((item, _)) = next(items)
        && let Lexeme::Sign(Sign::Open) = &item.lexeme
    {
        return inside(alloc, levels, taken, items);
    }
    let (x, rest) = leaf(alloc, items)?;
    Ok((x, taken, rest))
}

/// table = "join" operand operand | "union" operand operand | "agg" operand "by" [ names ]
///       | "map" operand "to" defs | "filter" operand "where" expr | "promote" operand "to" key_def
///       | "rename" operand pair { "," pair } | operand
#[tactic(auto, unfolding(crate::specs::Reading::table))]
#[cycle(tables)]
pub fn table(
    alloc: Global,
    levels: u32,
    taken: Count,
    items: &[Item],
) -> Result<(AstNode, Count, &[Item]), Fault>
    ensures { Gives (λ x. ((x.0, x.1), x.2.now)) result (table most.counted levels taken items.now) }
{
    let Some((item, _)) = next(items) else {
        return operand(alloc, levels, taken, items);
    };
    match &item.lexeme {
        Lexeme::Key(Keyword::Join) => join(alloc, levels, taken, items),
        Lexeme::Key(Keyword::Union) => union(alloc, levels, taken, items),
        Lexeme::Key(Keyword::Agg) => agg(alloc, levels, taken, items),
        Lexeme::Key(Keyword::Map) => map(alloc, levels, taken, items),
        Lexeme::Key(Keyword::Filter) => filter(alloc, levels, taken, items),
        Lexeme::Key(Keyword::Promote) => promote(alloc, levels, taken, items),
        Lexeme::Key(Keyword::Rename) => rename(alloc, levels, taken, items),
        _ => operand(alloc, levels, taken, items),
    }
}
