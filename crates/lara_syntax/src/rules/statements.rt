//! Statements, and at most so many behind one another.
ghost use Rattle.std.specs.Prelude.{◌≡◌, ◌∷◌, ◌+◌, ◌≤◌, ◌<◌, [], length, IfOk, nat_lt};
ghost use Rattle.lara_syntax.specs.Steps.{Gives};
ghost use Rattle.lara_syntax.specs.Reading.{some_order, statement, no_room, next_statement, statements, script};
ghost use Rattle.lara_syntax.specs.Limits.{most};
ghost use Rattle.lara_syntax.specs.Parsed.{read_value};

use crate::ast::{Ast, AstBy, AstStatement};
use crate::count::Count;
use crate::fault::Fault;
use crate::item::{Item, Keyword, Lexeme, Sign};
use crate::rules::names::some_names;
use crate::rules::tables::table;
use crate::steps::{name, next, sign, stopped};
use lara_base::List;
use lara_data::Kind;
use std::alloc::Global;

// How many statements a script may have.
const MOST_STATEMENTS: usize = 256;

// How many levels of `(` may stand in each other round a table.
const MOST_LEVELS: u32 = 64;

// [ "by" [ names ] ]
#[tactic(auto, unfolding(crate::specs::Reading::some_order))]
fn some_order(alloc: Global, items: &[Item]) -> Result<(Option<AstBy>, &[Item]), Fault>
    ensures { Gives (λ x. (x.0, x.1.now)) result (some_order items.now) }
{
    let Some((item, rest)) = next(items) else {
        return Ok((None, items));
    };
    match &item.lexeme {
        Lexeme::Key(Keyword::By) => {
            let (names, rest) = some_names(alloc, rest)?;
            Ok((Some(AstBy { at: item.at, names }), rest))
        }
        _ => Ok((None, items)),
    }
}

// statement = NAME "=" table ";" | "print" NAME [ "by" [ names ] ] ";"
#[tactic(auto, unfolding(crate::specs::Reading::statement))]
fn statement(alloc: Global, items: &[Item]) -> Result<(AstStatement, &[Item]), Fault>
    ensures { Gives (λ x. (x.0, x.1.now)) result (statement most items.now) }
{
    let Some((item, rest)) = next(items) else {
        return Err(stopped(items, Kind::Unexpected).into());
    };
    match &item.lexeme {
        Lexeme::Name(_) => {
            let (name, rest) = name(alloc, items)?;
            let (_, rest) = sign(rest, Sign::Is)?;
            let none = Count {
                operators: 0,
                signs: 0,
            };
            let (node, _, rest) = table(alloc, MOST_LEVELS, none, rest)?;
            let (_, rest) = sign(rest, Sign::Semi)?;
            let at = name.at;
            Ok((AstStatement::Assign { at, name, node }, rest))
        }
        Lexeme::Key(Keyword::Print) => {
            let at = item.at;
            let (name, rest) = name(alloc, rest)?;
            let (by, rest) = some_order(alloc, rest)?;
            let (_, rest) = sign(rest, Sign::Semi)?;
            Ok((AstStatement::Print { at, name, by }, rest))
        }
        _ => Err(stopped(items, Kind::Unexpected).into()),
    }
}

// What a word without room for a statement is refused for.
fn no_room(item: &Item) -> Kind
    ensures { result ≡ no_room item.now.lexeme }
{
    match &item.lexeme {
        Lexeme::Name(_) | Lexeme::Key(Keyword::Print) => Kind::TooMany,
        _ => Kind::Unexpected,
    }
}

// The next statement, where there is room for one.
#[tactic(auto, unfolding(crate::specs::Reading::next_statement))]
fn next_statement(
    alloc: Global,
    room: bool,
    items: &[Item],
) -> Result<(Option<AstStatement>, &[Item]), Fault>
    ensures { Gives (λ x. (x.0, x.1.now)) result (next_statement most room items.now) }
{
    let Some((item, _)) = next(items) else {
        return Ok((None, items));
    };
    if room {
        let (x, rest) = statement(alloc, items)?;
        Ok((Some(x), rest))
    } else {
        Err(stopped(items, no_room(item)).into())
    }
}

// Whether there is room for one more.
fn has_room(before: &[AstStatement]) -> bool
    ensures { result ≡ nat_lt (length before.now) most.statements }
{
    before.len() < MOST_STATEMENTS
}

// script = { statement }
#[tactic(auto, using(crate::proofs::TableReaders::statement_laws))]
fn statements(alloc: Global, items: &[Item]) -> Result<(List<AstStatement>, &[Item]), Fault>
    ensures { Gives (λ x. (x.0, x.1.now)) result (statements most [] items.now) }
{
    let mut xs = List::new(alloc);
    let mut rest = items;
    loop {
        let room = has_room(xs.as_slice());
        let (x, after) = next_statement(alloc, room, rest)?;
        rest = after;
        match x {
            None => return Ok((xs, rest)),
            Some(x) => xs.push(x)?,
        }
    }
}

/// The script that the words are.
#[tactic(auto, unfolding(crate::specs::Reading::script))]
pub fn script(alloc: Global, items: &[Item]) -> Result<Ast, Fault>
    ensures { Gives (λ x. x) result (read_value (script most items.now)) }
{
    let (statements, _) = statements(alloc, items)?;
    Ok(Ast { statements })
}
