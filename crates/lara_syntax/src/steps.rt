//! One word from the front.
ghost use Rattle.std.specs.Prelude.{◌≡◌, ◌∷◌, ◌+◌, ◌≤◌, ◌<◌, [], MatchOption, length, IfOk};
ghost use Rattle.lara_syntax.specs.Returns.{Returns};
ghost use Rattle.lara_syntax.specs.Steps.{Gives};
ghost use Rattle.lara_syntax.specs.WordReading.{sign, keyword, name};

use crate::ast::AstName;
use crate::fault::{Fault, Stop};
use crate::item::{Item, Keyword, Lexeme, Sign};
use lara_base::Copied;
use lara_data::Kind;
use std::alloc::Global;

/// The next word, and those after it.
pub fn next(items: &[Item]) -> Option<(&Item, &[Item])>
    ensures { MatchOption result (items.now ≡ []) (λ x. items.now ≡ x.0.now ∷ x.1.now) }
{
    match items {
        [] => None,
        [first, rest @ ..] => Some((first, rest)),
    }
}

/// Stops at the next word.
pub fn stopped(items: &[Item], kind: Kind) -> Stop
    ensures { result ≡ record { left = length items.now; kind = kind } }
{
    Stop {
        left: items.len(),
        kind,
    }
}

/// A sign, at its place.
#[tactic(auto, unfolding(crate::specs::WordReading::sign))]
pub fn sign(items: &[Item], wanted: Sign) -> Result<(u32, &[Item]), Stop>
    ensures { Returns (λ x. (x.0, x.1.now)) result (sign wanted items.now) }
{
    let Some((item, rest)) = next(items) else {
        return Err(stopped(items, Kind::Unexpected));
    };
    match &item.lexeme {
        Lexeme::Sign(k) => {
            if wanted.same(*k) {
                Ok((item.at, rest))
            } else {
                Err(stopped(items, Kind::Unexpected))
            }
        }
        _ => Err(stopped(items, Kind::Unexpected)),
    }
}

/// A keyword, at its place.
#[tactic(auto, unfolding(crate::specs::WordReading::keyword))]
pub fn keyword(items: &[Item], wanted: Keyword) -> Result<(u32, &[Item]), Stop>
    ensures { Returns (λ x. (x.0, x.1.now)) result (keyword wanted items.now) }
{
    let Some((item, rest)) = next(items) else {
        return Err(stopped(items, Kind::Unexpected));
    };
    match &item.lexeme {
        Lexeme::Key(k) => {
            if wanted.same(*k) {
                Ok((item.at, rest))
            } else {
                Err(stopped(items, Kind::Unexpected))
            }
        }
        _ => Err(stopped(items, Kind::Unexpected)),
    }
}

/// A name.
#[tactic(auto, unfolding(crate::specs::WordReading::name))]
pub fn name(alloc: Global, items: &[Item]) -> Result<(AstName, &[Item]), Fault>
    ensures { Gives (λ x. (x.0, x.1.now)) result (name items.now) }
{
    let Some((item, rest)) = next(items) else {
        return Err(stopped(items, Kind::Unexpected).into());
    };
    match &item.lexeme {
        Lexeme::Name(n) => Ok((
            AstName {
                name: n.copy(alloc)?,
                at: item.at,
            },
            rest,
        )),
        _ => Err(stopped(items, Kind::Unexpected).into()),
    }
}
