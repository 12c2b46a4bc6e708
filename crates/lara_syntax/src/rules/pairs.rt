//! Pairs of names behind one another.
ghost use Rattle.std.specs.Prelude.{◌≡◌, ◌∷◌, ◌+◌, ◌≤◌, ◌<◌, [], length, IfOk};
ghost use Rattle.lara_syntax.specs.Steps.{Gives, items_from};
ghost use Rattle.lara_syntax.specs.Reading.{pair, comma_pair, pairs};

use crate::ast_part::AstPair;
use crate::fault::Fault;
use crate::item::{Item, Keyword, Lexeme, Sign};
use crate::steps::{keyword, name, next};
use lara_base::List;
use std::alloc::Global;

// pair = NAME "to" NAME
#[tactic(auto, unfolding(crate::specs::Reading::pair))]
fn pair(alloc: Global, items: &[Item]) -> Result<(AstPair, &[Item]), Fault>
    ensures { Gives (λ x. (x.0, x.1.now)) result (pair items.now) }
{
    let (old, rest) = name(alloc, items)?;
    let (_, rest) = keyword(rest, Keyword::To)?;
    let (new, rest) = name(alloc, rest)?;
    Ok((AstPair { old, new }, rest))
}

// [ "," pair ]
#[tactic(auto, unfolding(crate::specs::Reading::comma_pair))]
fn comma_pair(alloc: Global, items: &[Item]) -> Result<(Option<AstPair>, &[Item]), Fault>
    ensures { Gives (λ x. (x.0, x.1.now)) result (comma_pair items.now) }
{
    let Some((item, rest)) = next(items) else {
        return Ok((None, items));
    };
    match &item.lexeme {
        Lexeme::Sign(Sign::Comma) => {
            let (x, rest) = pair(alloc, rest)?;
            Ok((Some(x), rest))
        }
        _ => Ok((None, items)),
    }
}

// { "," pair }
#[tactic(auto, using(crate::proofs::Turns::items_laws, crate::proofs::RuleReaders::short_laws))]
fn more_pairs(
    alloc: Global,
    pairs: List<AstPair>,
    items: &[Item],
) -> Result<(List<AstPair>, &[Item]), Fault>
    ensures { Gives (λ x. (x.0, x.1.now)) result (items_from comma_pair pairs items.now) }
{
    let mut pairs = pairs;
    let mut rest = items;
    loop {
        let (x, after) = comma_pair(alloc, rest)?;
        rest = after;
        match x {
            None => return Ok((pairs, rest)),
            Some(x) => pairs.push(x)?,
        }
    }
}

/// pair { "," pair }, pair = NAME "to" NAME
#[tactic(auto, unfolding(crate::specs::Reading::pairs))]
pub fn pairs(alloc: Global, items: &[Item]) -> Result<(List<AstPair>, &[Item]), Fault>
    ensures { Gives (λ x. (x.0, x.1.now)) result (pairs items.now) }
{
    let mut pairs = List::new(alloc);
    let (x, rest) = pair(alloc, items)?;
    pairs.push(x)?;
    more_pairs(alloc, pairs, rest)
}
