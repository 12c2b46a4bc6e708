//! Tables that stand on no other: names, stored tables and literals.
ghost use Rattle.std.specs.Prelude.{◌≡◌, ◌∷◌, ◌+◌, ◌≤◌, ◌<◌, [], length, IfOk};
ghost use Rattle.lara_syntax.specs.Steps.{Gives};
ghost use Rattle.lara_syntax.specs.Reading.{leaf};

use crate::ast::{AstNode, AstOp};
use crate::fault::Fault;
use crate::item::{Item, Keyword, Lexeme, Sign};
use crate::rules::columns::table_type;
use crate::rules::entries::some_entries;
use crate::steps::{name, next, sign, stopped};
use lara_data::Kind;
use std::alloc::Global;

/// leaf = NAME | "load" NAME | "table" type "{" [ entries ] "}"
#[tactic(auto, unfolding(crate::specs::Reading::leaf))]
pub fn leaf(alloc: Global, items: &[Item]) -> Result<(AstNode, &[Item]), Fault>
    ensures { Gives (λ x. (x.0, x.1.now)) result (leaf items.now) }
{
    let Some((item, rest)) = next(items) else {
        return Err(stopped(items, Kind::Unexpected).into());
    };
    match &item.lexeme {
        Lexeme::Name(_) => {
            let (name, rest) = name(alloc, items)?;
            let at = name.at;
            let op = AstOp::Named(name);
            Ok((AstNode { at, op }, rest))
        }
        Lexeme::Key(Keyword::Load) => {
            let (name, rest) = name(alloc, rest)?;
            let op = AstOp::Load(name);
            Ok((AstNode { at: item.at, op }, rest))
        }
        Lexeme::Key(Keyword::Table) => {
            let (ty, rest) = table_type(alloc, rest)?;
            let (_, rest) = sign(rest, Sign::OpenBrace)?;
            let (entries, rest) = some_entries(alloc, rest)?;
            let (_, rest) = sign(rest, Sign::CloseBrace)?;
            let op = AstOp::Literal(ty, entries);
            Ok((AstNode { at: item.at, op }, rest))
        }
        _ => Err(stopped(items, Kind::Unexpected).into()),
    }
}
