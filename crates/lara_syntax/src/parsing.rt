//! Scripts: bytes to the tree, or to the first refusal.
ghost use Rattle.std.specs.Prelude.{◌≡◌, ◌≤◌, ◌-◌, length, Ok, IfOk, IfErr};
ghost use Rattle.lara_syntax.specs.declared.ast.Ast.{Ast};
ghost use Rattle.lara_data.specs.declared.refusal.Refusal.{Refusal};
ghost use Rattle.lara_data.specs.Judgements.{Judges, FaultJudges};
ghost use Rattle.lara_syntax.specs.Parsed.{parsed, answered, place_of, refusal_of, at_end_of, read_value};
ghost use Rattle.lara_syntax.specs.Decided.{Decides};
ghost use Rattle.lara_syntax.specs.Grammar.{Script};
ghost use Rattle.lara_syntax.specs.Limits.{most, most_bytes};
ghost use Rattle.lara_syntax.specs.Reading.{script};
ghost use Rattle.lara_syntax.specs.Refusals.{FirstWrong, RefusesFirst};
ghost use Rattle.lara_syntax.specs.StartSymbols.{Stands};
ghost use Rattle.lara_syntax.specs.Tokens.{items_of, stop_of};

use crate::ast::Ast;
use crate::fault::{Fault, Stop};
use crate::item::Item;
use crate::rules::statements::script;
use crate::scan::{ItemList, read_items};
use lara_data::{ReadFault, Refusal};
use std::alloc::Global;

// The place of the word from which so many are left, or that of the end.
fn place(items: &[Item], size: u32, left: usize) -> u32
    ensures { result ≡ place_of size items.now left }
{
    match items.get(items.len().saturating_sub(left)) {
        Some(item) => item.at,
        None => size,
    }
}

fn refusal(items: &[Item], size: u32, stop: Stop) -> Refusal
    ensures { result ≡ refusal_of size items.now stop }
{
    Refusal {
        at: place(items, size, stop.left),
        kind: stop.kind,
    }
}

// At the end of the words, what is no token comes first.
fn first_refusal(left: usize, token: Option<Refusal>, refusal: Refusal) -> Refusal
    ensures { result ≡ at_end_of left token refusal }
{
    if left > 0 {
        return refusal;
    }
    match token {
        Some(token) => token,
        None => refusal,
    }
}

// What the words give, where the tokens stop so.
fn answer(
    alloc: Global,
    size: u32,
    items: &[Item],
    token: Option<Refusal>,
) -> Result<Ast, ReadFault>
    ensures { Judges (λ ast. ast) (answered size items.now token (read_value (script most items.now))) result }
{
    match script(alloc, items) {
        Ok(tree) => match token {
            Some(token) => Err(ReadFault::Refused(token)),
            None => Ok(tree),
        },
        Err(Fault::Memory) => Err(ReadFault::Memory),
        Err(Fault::Stopped(stop)) => {
            let at_word = refusal(items, size, stop);
            Err(ReadFault::Refused(first_refusal(stop.left, token, at_word)))
        }
    }
}

// The same of bytes.
#[tactic(auto, unfolding(crate::specs::Parsed::parsed))]
fn exact_tree(alloc: Global, bytes: &[u8]) -> Result<Ast, ReadFault>
    requires { length bytes.now ≤ most_bytes }
    ensures { Judges (λ ast. ast) (parsed bytes.now) result }
{
    let ItemList { list, stopped } = read_items(alloc, bytes)?;
    answer(alloc, bytes.len() as u32, list.as_slice(), stopped)
}

/// The tree of a script, or the first refusal: the least place at which no script goes on. A token's own refusal comes
/// before the grammar's at the same place. A script has at most 256 statements, a statement at most 64 operator words and
/// 1,024 signs and words between parts of expressions, and a table with its expressions at most 64 levels, which `(`, `not`,
/// `if` and functions open.
#[tactic(auto, using(crate::proofs::ScriptLaws::parsed_laws))]
pub fn parse(alloc: Global, bytes: &[u8]) -> Result<Ast, ReadFault>
    requires { length bytes.now ≤ most_bytes }
    // The tree stands in the grammar to the bytes (specs/Grammar.antt).
    ensures found { IfOk result (λ ast. Stands Script bytes.now ast) }
    // What stands in it is answered, unless memory runs out.
    ensures only { (ast : Ast) → Stands Script bytes.now ast → Judges (λ ast. ast) (Ok ast) result }
    // A refusal is the first wrong place: no script goes on with its word, one goes on before it, and the kind is right
    // (specs/Refusals.antt).
    ensures refused { IfErr result (λ e. RefusesFirst Script bytes.now e) }
    // There is one such refusal at most, and it is answered, unless memory runs out.
    ensures only_refusal { (refusal : Refusal) → FirstWrong Script bytes.now refusal → Judges (λ ast. ast) (Err refusal) result }
    // Which tree and which refusal it is.
    ensures exact { Judges (λ ast. ast) (parsed bytes.now) result }
    // Which tree and which refusal bytes stand for decides the grammar, of all bytes (specs/Decided.antt).
    ensures laws { Decides Script parsed }
{
    exact_tree(alloc, bytes)
}
