//! The answer to a script: its tree, its types, what it prints, its text, or the first refusal.
ghost use Rattle.std.specs.Prelude.{◌≡◌, ◌≤◌, ◌<◌, ◌^◌, [], length, Some, IfOk, IfErr};
ghost use Rattle.lara_data.specs.Plugins.{handed};
ghost use Rattle.lara_data.specs.Fits.{ScriptFits};
ghost use Rattle.lara_data.specs.Denotations.{denotation};
ghost use Rattle.lara_types.specs.Checks.{checked};
ghost use Rattle.lara.specs.Stops.{at_types};
ghost use Rattle.lara.specs.ScriptBytes.{tree_of, at_step, outcome_of_fault};
ghost use Rattle.lara.specs.Commands.{script_limit};
ghost use Rattle.lara.specs.Ranges.{lesser};
ghost use Rattle.lara.specs.Ruling.{printed, answer_of, statements_of, script_ruling};
ghost use Rattle.lara_syntax.specs.Limits.{most};
ghost use Rattle.lara.specs.Endings.{Gives, StopsScript, no_fault};
ghost use Rattle.lara.specs.declared.outcome.Outcome.TheVariants.{Memory};

use crate::outcome::Outcome;
use crate::prints::prints_text;
use crate::ranges::{print_past, store_past};
use lara_assoc::{Answers, eval};
use lara_base::{Bytes, List};
use lara_data::{Plugin, ReadFault, Script};
use lara_syntax::{Ast, parse};
use lara_types::check;
use std::alloc::Global;

// The outcome of a script that was not read.
fn unread(fault: ReadFault) -> Outcome
    ensures { result ≡ outcome_of_fault fault }
{
    match fault {
        ReadFault::Refused(refusal) => Outcome::Script {
            at: refusal.at,
            kind: refusal.kind,
        },
        ReadFault::Memory => Outcome::Memory,
    }
}

// The tree of a script.
fn read_tree(alloc: Global, script: &[u8]) -> Result<Ast, Outcome>
    requires { length script.now ≤ script_limit }
    ensures gives { Gives (λ tree. tree) no_fault (tree_of script.now) result }
    ensures few { IfOk result (λ tree. length tree.statements ≤ most.statements) }
    ensures stops { IfErr result StopsScript }
{
    parse(alloc, script).map_err(unread)
}

// The typed script of a tree, over no stored tables.
fn read_types(alloc: Global, tree: &Ast, plugins: &Vec<Box<dyn Plugin>>) -> Result<Script, Outcome>
    ensures gives { Gives (λ statements. statements) no_fault (at_step at_types (checked (handed ⟦<dyn Plugin as Plugin>⟧ plugins.now.items) [] tree.now)) result }
    ensures few { IfOk result (λ statements. length statements ≡ length tree.now.statements) }
    ensures fits { IfOk result (ScriptFits (handed ⟦<dyn Plugin as Plugin>⟧ plugins.now.items) []) }
    ensures stops { IfErr result StopsScript }
{
    check(alloc, tree, &List::new(alloc), plugins).map_err(unread)
}

// The typed script of the bytes. Its tree, which is larger, is let go here, before the script is run.
fn read_statements(
    alloc: Global,
    script: &[u8],
    plugins: &Vec<Box<dyn Plugin>>,
) -> Result<Script, Outcome>
    requires { length script.now ≤ script_limit }
    ensures gives { Gives (λ statements. statements) no_fault (statements_of (handed ⟦<dyn Plugin as Plugin>⟧ plugins.now.items) script.now) result }
    ensures few { IfOk result (λ statements. length statements ≤ most.statements) }
    ensures fits { IfOk result (ScriptFits (handed ⟦<dyn Plugin as Plugin>⟧ plugins.now.items) []) }
    ensures stops { IfErr result StopsScript }
{
    let tree = read_tree(alloc, script)?;
    read_types(alloc, &tree, plugins)
}

// What a typed script prints and stores, over no stored tables.
fn plain_answers(
    alloc: Global,
    script: &Script,
    plugins: &Vec<Box<dyn Plugin>>,
) -> Result<Answers, Outcome>
    requires few { length script.now < 2 ^ 32 }
    requires fits { ScriptFits (handed ⟦<dyn Plugin as Plugin>⟧ plugins.now.items) [] script.now }
    ensures means { IfOk result (λ answers. answers ≡ denotation (handed ⟦<dyn Plugin as Plugin>⟧ plugins.now.items) [] script.now) }
    ensures stops { IfErr result (λ outcome. outcome ≡ Memory) }
{
    Ok(eval(alloc, script, &List::new(alloc), plugins)?)
}

// The lesser of two statements, of which one may be none.
fn lesser(print: Option<u32>, store: u32) -> u32
    ensures { Some result ≡ lesser print (Some store) }
{
    match print {
        Some(print) => print.min(store),
        None => store,
    }
}

// The text of what was printed, where all that was printed and stored is in range.
#[tactic(auto, using(crate::proofs::Scripts::prints_decide, crate::proofs::Scripts::store_decides))]
fn text_in_range(alloc: Global, answers: &Answers) -> Result<Bytes, Outcome>
    ensures gives { Gives printed no_fault (answer_of answers.now) result }
    ensures stops { IfErr result StopsScript }
{
    match store_past(&answers.stores) {
        None => prints_text(alloc, &answers.prints),
        Some(store) => Err(Outcome::Range {
            statement: lesser(print_past(&answers.prints), store),
        }),
    }
}

/// The text of what a script prints.
pub fn answer(
    alloc: Global,
    script: &[u8],
    plugins: &Vec<Box<dyn Plugin>>,
) -> Result<Bytes, Outcome>
    requires { length script.now ≤ script_limit }
    ensures gives { Gives printed no_fault (script_ruling (handed ⟦<dyn Plugin as Plugin>⟧ plugins.now.items) script.now) result }
    ensures stops { IfErr result StopsScript }
{
    let script = read_statements(alloc, script, plugins)?;
    let answers = plain_answers(alloc, &script, plugins)?;
    text_in_range(alloc, &answers)
}
