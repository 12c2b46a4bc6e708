//! Names behind one another.
ghost use Rattle.std.specs.Prelude.{◌≡◌, ◌∷◌, ◌+◌, ◌≤◌, ◌<◌, [], length, IfOk};
ghost use Rattle.lara_syntax.specs.Steps.{Gives, items_from};
ghost use Rattle.lara_syntax.specs.Reading.{comma_name, some_names};

use crate::ast::AstName;
use crate::fault::Fault;
use crate::item::{Item, Lexeme, Sign};
use crate::steps::{name, next};
use lara_base::List;
use std::alloc::Global;

// [ "," NAME ]
#[tactic(auto, unfolding(crate::specs::Reading::comma_name))]
fn comma_name(alloc: Global, items: &[Item]) -> Result<(Option<AstName>, &[Item]), Fault>
    ensures { Gives (λ x. (x.0, x.1.now)) result (comma_name items.now) }
{
    let Some((item, rest)) = next(items) else {
        return Ok((None, items));
    };
    match &item.lexeme {
        Lexeme::Sign(Sign::Comma) => {
            let (x, rest) = name(alloc, rest)?;
            Ok((Some(x), rest))
        }
        _ => Ok((None, items)),
    }
}

// { "," NAME }
#[tactic(auto, using(crate::proofs::Turns::items_laws, crate::proofs::RuleReaders::short_laws))]
fn more_names(
    alloc: Global,
    names: List<AstName>,
    items: &[Item],
) -> Result<(List<AstName>, &[Item]), Fault>
    ensures { Gives (λ x. (x.0, x.1.now)) result (items_from comma_name names items.now) }
{
    let mut names = names;
    let mut rest = items;
    loop {
        let (x, after) = comma_name(alloc, rest)?;
        rest = after;
        match x {
            None => return Ok((names, rest)),
            Some(x) => names.push(x)?,
        }
    }
}

/// [ names ], names = NAME { "," NAME }
#[tactic(auto, unfolding(crate::specs::Reading::some_names))]
pub fn some_names(alloc: Global, items: &[Item]) -> Result<(List<AstName>, &[Item]), Fault>
    ensures { Gives (λ x. (x.0, x.1.now)) result (some_names items.now) }
{
    let mut names = List::new(alloc);
    let Some((item, _)) = next(items) else {
        return Ok((names, items));
    };
    match &item.lexeme {
        Lexeme::Name(_) => {
            let (x, rest) = name(alloc, items)?;
            names.push(x)?;
            more_names(alloc, names, rest)
        }
        _ => Ok((names, items)),
    }
}
