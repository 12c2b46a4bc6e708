//! The typed script of a tree with places: statement by statement, each where the names of those before it are known.
ghost use Rattle.std.specs.Prelude.{◌≡◌, ℕ, true, List, map, length, Ok, Err, IfOk, IfErr, OnOk};
ghost use Rattle.lara_data.specs.declared.refusal.Refusal.{Refusal};
ghost use Rattle.lara_data.specs.declared.script.Statement.{Statement as TypedStatement};
ghost use Rattle.lara_data.specs.Denotations.{Database};
ghost use Rattle.lara_data.specs.Fits.{ScriptFits, TablesOf};
ghost use Rattle.lara_data.specs.Names.{distinct};
ghost use Rattle.lara_data.specs.Plugins.{handed};
ghost use Rattle.lara_data.specs.TypedScripts.{known_after};
ghost use Rattle.lara_data.specs.TypedTrees.{type_named};
ghost use Rattle.lara_types.specs.Checks.{printed, kept, checked_statement, checked};
ghost use Rattle.lara_types.specs.HasTypes.{HasTypes};
ghost use Rattle.lara_types.specs.Refused.{Refused as WhyRefused, RefusedRight};
ghost use Rattle.lara_data.specs.Judgements.{Judges};
ghost use Rattle.lara_types.specs.Sizes.{all_written, all_typed};

use crate::orders::order_of;
use crate::stored::have_columns;
use crate::trees::{known_type, node_of};
use lara_base::{Copied, List};
use lara_data::{Kind, Plugin, ReadFault, Schema, Script, Statement};
use lara_syntax::{Ast, AstBy, AstName, AstNode, AstStatement};
use std::alloc::{AllocError, Global};

// A name gets a table.
fn assign(
    alloc: Global,
    stored: &List<Schema>,
    known: &List<Schema>,
    plugins: &Vec<Box<dyn Plugin>>,
    name: &AstName,
    node: &AstNode,
) -> Result<Statement, ReadFault>
    ensures { (at : ℕ) → Judges (λ s. s) (checked_statement (handed ⟦<dyn Plugin as Plugin>⟧ plugins.now.items) stored.now known.now (AstStatement.Assign at name.now node.now)) result }
{
    let node = node_of(alloc, stored, known, plugins, node)?;
    Ok(Statement::Assign(name.name.copy(alloc)?, node))
}

// The table of a name is printed.
fn print(
    alloc: Global,
    known: &List<Schema>,
    name: &AstName,
    by: &Option<AstBy>,
) -> Result<Statement, ReadFault>
    ensures { Judges (λ s. s) (printed name.now (type_named name.now.name known.now) by.now) result }
{
    let ty = known_type(known, name, Kind::NoName)?;
    let order = order_of(alloc, ty, by)?;
    Ok(Statement::Print(name.name.copy(alloc)?, order))
}

// The table of a name is stored under another.
fn store(
    alloc: Global,
    known: &List<Schema>,
    old: &AstName,
    new: &AstName,
) -> Result<Statement, ReadFault>
    ensures { Judges (λ s. s) (kept old.now (type_named old.now.name known.now) new.now) result }
{
    known_type(known, old, Kind::NoName)?;
    let old = old.name.copy(alloc)?;
    Ok(Statement::Store(old, new.name.copy(alloc)?))
}

// A statement, where these names are stored and those are known.
fn statement_of(
    alloc: Global,
    stored: &List<Schema>,
    known: &List<Schema>,
    plugins: &Vec<Box<dyn Plugin>>,
    statement: &AstStatement,
) -> Result<Statement, ReadFault>
    ensures { Judges (λ s. s) (checked_statement (handed ⟦<dyn Plugin as Plugin>⟧ plugins.now.items) stored.now known.now statement.now) result }
{
    match statement {
        AstStatement::Assign { name, node, .. } => assign(
            alloc, stored, known, plugins, name, node,
        ),
        AstStatement::Print { name, by, .. } => print(alloc, known, name, by),
        AstStatement::Store { old, new, .. } => store(alloc, known, old, new),
    }
}

// What is known behind a statement.
fn learn(alloc: Global, known: &mut List<Schema>, statement: &Statement) -> Result<(), AllocError>
    ensures { OnOk result (known.new ≡ known_after known.old statement.now) }
{
    match statement {
        Statement::Assign(name, node) => {
            let name = name.copy(alloc)?;
            let ty = node.ty.copy(alloc)?;
            known.push(Schema { name, ty })
        }
        Statement::Print(_, _) => Ok(()),
        Statement::Store(_, _) => Ok(()),
    }
}

// The typed statements of a tree.
#[tactic(auto, unfolding(crate::specs::Checks::checked))]
fn statements_of(
    alloc: Global,
    stored: &List<Schema>,
    plugins: &Vec<Box<dyn Plugin>>,
    tree: &Ast,
) -> Result<List<Statement>, ReadFault>
    ensures { Judges (λ ss. ss) (checked (handed ⟦<dyn Plugin as Plugin>⟧ plugins.now.items) stored.now tree.now) result }
{
    let mut known = List::new(alloc);
    let mut statements = List::new(alloc);
    for written in tree.statements.as_slice() {
        let statement = statement_of(alloc, stored, &known, plugins, written)?;
        learn(alloc, &mut known, &statement)?;
        statements.push(statement)?;
    }
    Ok(statements)
}

/// The typed script that a tree stands for over stored tables of these names and types, or the first refusal. The plugins
/// stand in its clauses: the types of applies, which no tree has yet, are to be asked of them.
pub fn check(
    alloc: Global,
    tree: &Ast,
    stored: &List<Schema>,
    plugins: &Vec<Box<dyn Plugin>>,
) -> Result<Script, ReadFault>
    // No two stored tables have one name, as in each database.
    requires { distinct (map (λ s. s.name) stored.now) ≡ true }
    // What is answered is what the tree stands for: each node as written, its columns by the rules (specs/HasTypes.antt).
    ensures found { IfOk result (λ ss. HasTypes (handed ⟦<dyn Plugin as Plugin>⟧ plugins.now.items) stored.now tree.now ss) }
    // Whatever the tree stands for is answered, so that no such tree is refused (specs/HasTypes.antt).
    ensures only { (ss : List TypedStatement) → HasTypes (handed ⟦<dyn Plugin as Plugin>⟧ plugins.now.items) stored.now tree.now ss → Judges (λ s. s) (Ok ss) result }
    // A refusal is that of the first rule that is broken, at the first node of the first statement that has one
    // (specs/Refused.antt; in words the table under "Refusals" in docs/LANGUAGE.md).
    ensures refused { IfErr result (λ e. RefusedRight (handed ⟦<dyn Plugin as Plugin>⟧ plugins.now.items) stored.now tree.now e) }
    // There is one such refusal at most, and where there is one it is answered, unless memory runs out.
    ensures only_refusal { (refusal : Refusal) → WhyRefused (handed ⟦<dyn Plugin as Plugin>⟧ plugins.now.items) stored.now tree.now refusal → Judges (λ s. s) (Err refusal) result }
    // The same of a definition that computes (specs/Checks.antt): it follows from the four above, by specs/Found.antt, Only.antt
    // and RefusedLaws.antt.
    ensures exact { Judges (λ s. s) (checked (handed ⟦<dyn Plugin as Plugin>⟧ plugins.now.items) stored.now tree.now) result }
    // No statement is lost or added.
    ensures statements { IfOk result (λ ss. length ss ≡ length tree.now.statements) }
    // No node of a tree is lost or added (specs/Sizes.antt).
    ensures nodes { IfOk result (λ ss. all_typed ss ≡ all_written tree.now.statements) }
    // The script fits each database with these names and types, which is what its evaluation asks for (ScriptFits of lara_data).
    ensures fits { IfOk result (λ ss. (db : Database) → TablesOf stored.now db → ScriptFits (handed ⟦<dyn Plugin as Plugin>⟧ plugins.now.items) db ss) }
{
    have_columns(stored.as_slice());
    let statements = statements_of(alloc, stored, plugins, tree)?;
    Ok(Script { statements })
}
