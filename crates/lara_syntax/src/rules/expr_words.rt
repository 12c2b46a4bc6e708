//! The words of expressions: operators between two parts, functions, and words that open a level.
ghost use Rattle.std.specs.Prelude.{◌≡◌, ◌∷◌, ◌+◌, ◌≤◌, ◌<◌, [], length, Some, IfOk};
ghost use Rattle.lara_syntax.specs.Limits.{most};
ghost use Rattle.lara_syntax.specs.Returns.{Returns};
ghost use Rattle.lara_syntax.specs.Steps.{head_word};
ghost use Rattle.lara_syntax.specs.WordReading.{next_as};
ghost use Rattle.lara_syntax.specs.ExprReading.{two_of, binding, next_two, operator_sign, opening, fun_of};

use crate::count::Count;
use crate::fault::Stop;
use crate::item::{Item, Keyword, Lexeme, Sign};
use crate::steps::{next, stopped};
use lara_data::{FunOp, Kind, TwoOp};

// The operator that a word is.
fn two_of(lexeme: &Lexeme) -> Option<TwoOp>
    ensures { result ≡ two_of lexeme.now }
{
    match lexeme {
        Lexeme::Key(Keyword::Or) => Some(TwoOp::Or),
        Lexeme::Key(Keyword::And) => Some(TwoOp::And),
        Lexeme::Sign(Sign::Equal) => Some(TwoOp::Eq),
        Lexeme::Sign(Sign::NotEqual) => Some(TwoOp::Ne),
        Lexeme::Sign(Sign::Less) => Some(TwoOp::Lt),
        Lexeme::Sign(Sign::LessEqual) => Some(TwoOp::Le),
        Lexeme::Sign(Sign::Greater) => Some(TwoOp::Gt),
        Lexeme::Sign(Sign::GreaterEqual) => Some(TwoOp::Ge),
        Lexeme::Sign(Sign::PlusPlus) => Some(TwoOp::Cat),
        Lexeme::Sign(Sign::Plus) => Some(TwoOp::Add),
        Lexeme::Sign(Sign::Times) => Some(TwoOp::Mul),
        _ => None,
    }
}

// How tightly an operator binds its two parts: the greater, the tighter.
fn binding(op: TwoOp) -> u32
    ensures { result ≡ binding op }
{
    match op {
        TwoOp::Or => 0,
        TwoOp::And => 1,
        TwoOp::Eq | TwoOp::Ne | TwoOp::Lt | TwoOp::Le | TwoOp::Gt | TwoOp::Ge => 2,
        TwoOp::Cat => 3,
        TwoOp::Add => 4,
        TwoOp::Mul => 5,
    }
}

/// The operator that is next, if it binds so tightly.
pub fn next_two(items: &[Item], tightly: u32) -> Option<TwoOp>
    ensures { result ≡ next_two tightly (head_word items.now) }
{
    let (item, _) = next(items)?;
    let op = two_of(&item.lexeme)?;
    if binding(op) == tightly {
        Some(op)
    } else {
        None
    }
}

/// The place of an operator's word behind so many others.
#[tactic(auto, unfolding(crate::specs::ExprReading::operator_sign))]
pub fn operator_sign(items: &[Item], taken: Count) -> Result<(u32, &[Item]), Stop>
    ensures gives { Returns (λ x. (x.0, x.1.now)) result (operator_sign most.counted taken items.now) }
    ensures room { IfOk result (λ x. taken.signs < most.counted.signs) }
{
    if taken.has_room_for_sign() {
        let Some((item, rest)) = next(items) else {
            return Err(stopped(items, Kind::Unexpected));
        };
        Ok((item.at, rest))
    } else {
        Err(stopped(items, Kind::TooMany))
    }
}

/// The place of a word that opens a level, where so many may still be opened.
#[tactic(auto, using(crate::proofs::ExprLoops::opening_laws))]
pub fn opening(items: &[Item], levels: u32) -> Result<(u32, &[Item]), Stop>
    ensures gives { Returns (λ x. (x.0, x.1.now)) result (opening levels items.now) }
    ensures room { IfOk result (λ x. 0 < levels) }
{
    if levels == 0 {
        return Err(stopped(items, Kind::TooMany));
    }
    let Some((item, rest)) = next(items) else {
        return Err(stopped(items, Kind::Unexpected));
    };
    Ok((item.at, rest))
}

/// The function that a word is.
pub fn fun_of(lexeme: &Lexeme) -> Option<FunOp>
    ensures { result ≡ fun_of lexeme.now }
{
    match lexeme {
        Lexeme::Key(Keyword::Num) => Some(FunOp::Num),
        Lexeme::Key(Keyword::Dist) => Some(FunOp::Dist),
        Lexeme::Key(Keyword::Len) => Some(FunOp::Len),
        Lexeme::Key(Keyword::Path) => Some(FunOp::Path),
        Lexeme::Key(Keyword::Text) => Some(FunOp::Text),
        _ => None,
    }
}
