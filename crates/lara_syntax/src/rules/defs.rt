//! Definitions of columns by expressions, with what is counted in their statement up to their end.
ghost use Rattle.std.specs.Prelude.{◌≡◌, ◌∷◌, ◌+◌, ◌≤◌, ◌<◌, [], length, IfOk};
ghost use Rattle.lara_syntax.specs.Limits.{most};
ghost use Rattle.lara_syntax.specs.Steps.{Gives};
ghost use Rattle.lara_syntax.specs.Reading.{def, comma_def, defs_from, defs, key_def};

use crate::ast_part::{AstDef, AstDefs, AstKeyDef};
use crate::count::Count;
use crate::fault::Fault;
use crate::item::{Item, Lexeme, Sign};
use crate::rules::columns::{key_col, val_col};
use crate::rules::exprs::expr;
use crate::steps::{next, sign};
use lara_base::List;
use std::alloc::Global;

// def = val_col "=" expr
#[tactic(auto, unfolding(crate::specs::Reading::def))]
fn def(
    alloc: Global,
    levels: u32,
    taken: Count,
    items: &[Item],
) -> Result<(AstDef, Count, &[Item]), Fault>
    ensures { Gives (λ x. ((x.0, x.1), x.2.now)) result (def most.counted levels taken items.now) }
{
    let (col, rest) = val_col(alloc, items)?;
    let (_, rest) = sign(rest, Sign::Is)?;
    let (expr, taken, rest) = expr(alloc, levels, taken, rest)?;
    Ok((AstDef { col, expr }, taken, rest))
}

// [ "," def ]
#[tactic(auto, unfolding(crate::specs::Reading::comma_def))]
fn comma_def(
    alloc: Global,
    levels: u32,
    taken: Count,
    items: &[Item],
) -> Result<(Option<(AstDef, Count)>, &[Item]), Fault>
    ensures { Gives (λ x. (x.0, x.1.now)) result (comma_def most.counted levels taken items.now) }
{
    let Some((item, rest)) = next(items) else {
        return Ok((None, items));
    };
    match &item.lexeme {
        Lexeme::Sign(Sign::Comma) => {
            let (x, taken, rest) = def(alloc, levels, taken, rest)?;
            Ok((Some((x, taken)), rest))
        }
        _ => Ok((None, items)),
    }
}

// { "," def } behind others
#[tactic(auto, using(crate::proofs::TableReaders::def_laws))]
fn more_defs(
    alloc: Global,
    levels: u32,
    defs: List<AstDef>,
    taken: Count,
    items: &[Item],
) -> Result<(List<AstDef>, Count, &[Item]), Fault>
    requires { 0 < length defs }
    ensures gives { Gives (λ x. ((x.0, x.1), x.2.now)) result (defs_from most.counted levels (defs, taken) items.now) }
    ensures some { IfOk result (λ x. 0 < length x.0) }
{
    let mut defs = defs;
    let mut taken = taken;
    let mut rest = items;
    loop {
        let (x, after) = comma_def(alloc, levels, taken, rest)?;
        rest = after;
        match x {
            None => return Ok((defs, taken, rest)),
            Some((x, counted)) => {
                defs.push(x)?;
                taken = counted;
            }
        }
    }
}

/// defs = def { "," def }
#[tactic(auto, unfolding(crate::specs::Reading::defs))]
pub fn defs(
    alloc: Global,
    levels: u32,
    taken: Count,
    items: &[Item],
) -> Result<(AstDefs, Count, &[Item]), Fault>
    ensures { Gives (λ x. ((x.0, x.1), x.2.now)) result (defs most.counted levels taken items.now) }
{
    let mut defs = List::new(alloc);
    let (x, taken, rest) = def(alloc, levels, taken, items)?;
    defs.push(x)?;
    let (defs, taken, rest) = more_defs(alloc, levels, defs, taken, rest)?;
    Ok((AstDefs::of(defs), taken, rest))
}

/// key_def = key_col "=" expr
#[tactic(auto, unfolding(crate::specs::Reading::key_def))]
pub fn key_def(
    alloc: Global,
    levels: u32,
    taken: Count,
    items: &[Item],
) -> Result<(AstKeyDef, Count, &[Item]), Fault>
    ensures { Gives (λ x. ((x.0, x.1), x.2.now)) result (key_def most.counted levels taken items.now) }
{
    let (col, rest) = key_col(alloc, items)?;
    let (_, rest) = sign(rest, Sign::Is)?;
    let (expr, taken, rest) = expr(alloc, levels, taken, rest)?;
    Ok((AstKeyDef { col, expr }, taken, rest))
}
