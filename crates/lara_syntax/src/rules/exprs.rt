//! Expressions, with what is counted in their statement up to their end.
ghost use Rattle.std.specs.Prelude.{◌≡◌, ◌∷◌, ◌+◌, ◌≤◌, ◌<◌, [], length, Some, IfOk};
ghost use Rattle.lara_syntax.specs.Limits.{most};
ghost use Rattle.lara_syntax.specs.Steps.{Gives, head_word};
ghost use Rattle.lara_syntax.specs.ExprGrammar.{two_at, literal_form};
ghost use Rattle.lara_syntax.specs.ExprReading.{joined, chain, call, brackets, negated, branches, deeper_expr, deeper_not, atom, part, comparison, negation, disjunction, expr};

use crate::ast::AstValue;
use crate::ast_expr::{AstExpr, AstForm};
use crate::count::Count;
use crate::fault::Fault;
use crate::item::{Item, Keyword, Lexeme, Sign};
use crate::rules::entries::lit;
use crate::rules::expr_words::{fun_of, next_two, opening, operator_sign};
use crate::steps::{keyword, name, next, sign};
use lara_base::Boxed;
use lara_data::{FunOp, TwoOp};
use std::alloc::{AllocError, Global};

// A literal as an expression.
fn literal_form(value: AstValue) -> AstForm
    ensures { result ≡ literal_form value }
{
    match value {
        AstValue::Number(n) => AstForm::Number(n),
        AstValue::Text(content) => AstForm::Text(content),
        AstValue::Flag(b) => AstForm::Flag(b),
        AstValue::Inf => AstForm::Inf,
        AstValue::None => AstForm::None,
    }
}

// Two parts under an operator.
fn two(
    alloc: Global,
    at: u32,
    op: TwoOp,
    left: AstExpr,
    right: AstExpr,
) -> Result<AstExpr, AllocError>
    ensures { IfOk result (λ x. x ≡ two_at at op left right) }
{
    Ok(AstExpr {
        at,
        form: AstForm::Two(op, Boxed::new(alloc, left)?, Boxed::new(alloc, right)?),
    })
}

// FUNC "(" expr ")"
#[tactic(auto, using(crate::proofs::ExprLoops::deeper_laws))]
#[cycle(exprs)]
fn call(
    alloc: Global,
    f: FunOp,
    levels: u32,
    taken: Count,
    items: &[Item],
) -> Result<(AstExpr, Count, &[Item]), Fault>
    ensures { Gives (λ x. ((x.0, x.1), x.2.now)) result (call f levels (deeper_expr most.counted levels) taken items.now) }
{
    let (at, rest) = opening(items, levels)?;
    let (_, rest) = sign(rest, Sign::Open)?;
    let (x, taken, rest) = expr(alloc, levels - 1, taken, rest)?;
    let (_, rest) = sign(rest, Sign::Close)?;
    let form = AstForm::Fun(f, Boxed::new(alloc, x)?);
    Ok((AstExpr { at, form }, taken, rest))
}

// "(" expr ")"
#[tactic(auto, using(crate::proofs::ExprLoops::deeper_laws))]
#[cycle(exprs)]
fn brackets(
    alloc: Global,
    levels: u32,
    taken: Count,
    items: &[Item],
) -> Result<(AstExpr, Count, &[Item]), Fault>
    ensures { Gives (λ x. ((x.0, x.1), x.2.now)) result (brackets levels (deeper_expr most.counted levels) taken items.now) }
{
    let (_, rest) = opening(items, levels)?;
    let (x, taken, rest) = expr(alloc, levels - 1, taken, rest)?;
    let (_, rest) = sign(rest, Sign::Close)?;
    Ok((x, taken, rest))
}

// atom = NAME | lit | FUNC "(" expr ")" | "(" expr ")"
#[tactic(auto, unfolding(crate::specs::ExprReading::atom))]
#[cycle(exprs)]
fn atom(
    alloc: Global,
    levels: u32,
    taken: Count,
    items: &[Item],
) -> Result<(AstExpr, Count, &[Item]), Fault>
    ensures { Gives (λ x. ((x.0, x.1), x.2.now)) result (atom most.counted levels taken items.now) }
{
    if let Some((item, _)) = next(items) {
        match &item.lexeme {
            Lexeme::Name(_) => {
                let (x, rest) = name(alloc, items)?;
                let at = x.at;
                let form = AstForm::Column(x.name);
                return Ok((AstExpr { at, form }, taken, rest));
            }
            Lexeme::Sign(Sign::Open) => return brackets(alloc, levels, taken, items),
            word => {
                if let Some(f) = fun_of(word) {
                    return call(alloc, f, levels, taken, items);
                }
            }
        }
    }
    let (x, rest) = lit(alloc, items)?;
    let at = x.at;
    let form = literal_form(x.value);
    Ok((AstExpr { at, form }, taken, rest))
}

// What stands between operators that bind so tightly.
#[tactic(auto, using(crate::proofs::ExprLoops::part_laws))]
#[cycle(exprs)]
fn part(
    alloc: Global,
    tightly: u32,
    levels: u32,
    taken: Count,
    items: &[Item],
) -> Result<(AstExpr, Count, &[Item]), Fault>
    ensures { Gives (λ x. ((x.0, x.1), x.2.now)) result (part most.counted levels tightly taken items.now) }
{
    match tightly {
        0 => chain(alloc, 1, levels, taken, items),
        1 => negation(alloc, levels, taken, items),
        2 => chain(alloc, 3, levels, taken, items),
        3 => chain(alloc, 4, levels, taken, items),
        4 => chain(alloc, 5, levels, taken, items),
        _ => atom(alloc, levels, taken, items),
    }
}

// An operator that is next, and the part behind it, at the right of another.
#[cycle(exprs)]
fn joined(
    alloc: Global,
    op: TwoOp,
    tightly: u32,
    levels: u32,
    left: AstExpr,
    taken: Count,
    items: &[Item],
) -> Result<(AstExpr, Count, &[Item]), Fault>
    ensures { Gives (λ x. ((x.0, x.1), x.2.now)) result (joined most.counted (part most.counted levels tightly) (left, taken) op items.now) }
{
    let (at, rest) = operator_sign(items, taken)?;
    let (right, taken, rest) = part(alloc, tightly, levels, taken.one_sign(), rest)?;
    Ok((two(alloc, at, op, left, right)?, taken, rest))
}

// part { op part }, where op binds so tightly
#[tactic(auto, using(crate::proofs::ExprLoops::chain_laws))]
#[cycle(exprs)]
fn chain(
    alloc: Global,
    tightly: u32,
    levels: u32,
    taken: Count,
    items: &[Item],
) -> Result<(AstExpr, Count, &[Item]), Fault>
    ensures { Gives (λ x. ((x.0, x.1), x.2.now)) result (chain tightly most.counted (part most.counted levels tightly) taken items.now) }
{
    let (x, count, after) = part(alloc, tightly, levels, taken, items)?;
    let mut left = x;
    let mut taken = count;
    let mut rest = after;
    loop {
        match next_two(rest, tightly) {
            None => return Ok((left, taken, rest)),
            Some(op) => {
                let (x, count, after) = joined(alloc, op, tightly, levels, left, taken, rest)?;
                left = x;
                taken = count;
                rest = after;
            }
        }
    }
}

// cmp = cat [ ( "==" | "!=" | "<" | "<=" | ">" | ">=" ) cat ]
#[tactic(auto, using(crate::proofs::ExprLoops::rule_laws))]
#[cycle(exprs)]
fn comparison(
    alloc: Global,
    levels: u32,
    taken: Count,
    items: &[Item],
) -> Result<(AstExpr, Count, &[Item]), Fault>
    ensures { Gives (λ x. ((x.0, x.1), x.2.now)) result (comparison most.counted levels taken items.now) }
{
    let (left, taken, rest) = part(alloc, 2, levels, taken, items)?;
    match next_two(rest, 2) {
        None => Ok((left, taken, rest)),
        Some(op) => joined(alloc, op, 2, levels, left, taken, rest),
    }
}

// "not" not
#[tactic(auto, using(crate::proofs::ExprLoops::deeper_laws))]
#[cycle(exprs)]
fn negated(
    alloc: Global,
    levels: u32,
    taken: Count,
    items: &[Item],
) -> Result<(AstExpr, Count, &[Item]), Fault>
    ensures { Gives (λ x. ((x.0, x.1), x.2.now)) result (negated levels (deeper_not most.counted levels) taken items.now) }
{
    let (at, rest) = opening(items, levels)?;
    let (x, taken, rest) = negation(alloc, levels - 1, taken, rest)?;
    let form = AstForm::Not(Boxed::new(alloc, x)?);
    Ok((AstExpr { at, form }, taken, rest))
}

// not = "not" not | cmp
#[tactic(auto, unfolding(crate::specs::ExprReading::negation))]
#[cycle(exprs)]
fn negation(
    alloc: Global,
    levels: u32,
    taken: Count,
    items: &[Item],
) -> Result<(AstExpr, Count, &[Item]), Fault>
    ensures { Gives (λ x. ((x.0, x.1), x.2.now)) result (negation most.counted levels taken items.now) }
{
    if let Some((item, _)) = next(items)
        && let Lexeme::Key(Keyword::Not) = &item.lexeme
    {
        return negated(alloc, levels, taken, items);
    }
    comparison(alloc, levels, taken, items)
}

// "if" expr "then" expr "else" expr
#[tactic(auto, using(crate::proofs::ExprLoops::deeper_laws))]
#[cycle(exprs)]
fn branches(
    alloc: Global,
    levels: u32,
    taken: Count,
    items: &[Item],
) -> Result<(AstExpr, Count, &[Item]), Fault>
    ensures { Gives (λ x. ((x.0, x.1), x.2.now)) result (branches levels (deeper_expr most.counted levels) taken items.now) }
{
    let (at, rest) = opening(items, levels)?;
    let (c, taken, rest) = expr(alloc, levels - 1, taken, rest)?;
    let (_, rest) = keyword(rest, Keyword::Then)?;
    let (x, taken, rest) = expr(alloc, levels - 1, taken, rest)?;
    let (_, rest) = keyword(rest, Keyword::Else)?;
    let (y, taken, rest) = expr(alloc, levels - 1, taken, rest)?;
    let form = AstForm::If(
        Boxed::new(alloc, c)?,
        Boxed::new(alloc, x)?,
        Boxed::new(alloc, y)?,
    );
    Ok((AstExpr { at, form }, taken, rest))
}

// or = and { "or" and }
#[tactic(auto, using(crate::proofs::ExprLoops::rule_laws))]
#[cycle(exprs)]
fn disjunction(
    alloc: Global,
    levels: u32,
    taken: Count,
    items: &[Item],
) -> Result<(AstExpr, Count, &[Item]), Fault>
    ensures { Gives (λ x. ((x.0, x.1), x.2.now)) result (disjunction most.counted levels taken items.now) }
{
    chain(alloc, 0, levels, taken, items)
}

/// expr = "if" expr "then" expr "else" expr | or
#[tactic(auto, unfolding(crate::specs::ExprReading::expr))]
#[cycle(exprs)]
pub fn expr(
    alloc: Global,
    levels: u32,
    taken: Count,
    items: &[Item],
) -> Result<(AstExpr, Count, &[Item]), Fault>
    ensures { Gives (λ x. ((x.0, x.1), x.2.now)) result (expr most.counted levels taken items.now) }
{
    if let Some((item, _)) = next(items)
        && let Lexeme::Key(Keyword::If) = &item.lexeme
    {
        return branches(alloc, levels, taken, items);
    }
    disjunction(alloc, levels, taken, items)
}
