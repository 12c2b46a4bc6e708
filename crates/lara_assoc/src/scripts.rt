//! The plain evaluation of a script, statement by statement.
ghost use Rattle.std.specs.Prelude.{◌≡◌, ◌<◌, ◌^◌, ◌-◌, length, IfOk, OnOk};
ghost use Rattle.lara_data.specs.Plugins.{handed};
ghost use Rattle.lara_data.specs.Fits.{ScriptFits};
ghost use Rattle.lara_data.specs.Denotations.{denotation};

use crate::assigned::Assigned;
use crate::named::{Answers, NamedTable, Printed, Stored, are_typed};
use crate::trees::table_of;
use lara_base::{Copied, List, Name};
use lara_data::{Node, Order, Plugin, Script, Statement};
use std::alloc::{AllocError, Global};

// How many statements were run, the tables that they assigned, what they printed and what they stored.
#[derive(Drop)]
struct Running {
    statement: u32,
    assigned: Assigned,
    prints: List<Printed>,
    stores: List<Stored>,
}

impl Running {
    ghost use Rattle.lara_data.specs.Denotations.{Running as Runs, after, after_printing, after_storing};
    ghost use Rattle.lara_data.specs.declared.script.Statement.TheVariants.{Assign};
    ghost use Rattle.lara_assoc.specs.RunningScripts.{IsRunning, CanRun};
    ghost use Rattle.lara_assoc.specs.Meant.{IsMeantBy};

    fn assign(
        &mut self,
        alloc: Global,
        stored: &List<NamedTable>,
        plugins: &Vec<Box<dyn Plugin>>,
        name: &Name,
        node: &Node,
    ) -> Result<(), AllocError>
        requires few { self.old.statement < 2 ^ 32 - 1 }
        requires scope { IsMeantBy (handed ⟦<dyn Plugin as Plugin>⟧ plugins.now.items) stored.now self.old.assigned.tables node.now }
        ensures { (r : Runs) → IsRunning self.old r → OnOk result (IsRunning self.new (after (handed ⟦<dyn Plugin as Plugin>⟧ plugins.now.items) stored.now r (Assign name.now node.now))) }
    {
        let table = table_of(alloc, plugins, stored, &self.assigned, node)?;
        self.assigned.put(name.copy(alloc)?, table)?;
        self.statement += 1;
        Ok(())
    }

    fn print(&mut self, alloc: Global, name: &Name, order: &Order) -> Result<(), AllocError>
        requires few { self.old.statement < 2 ^ 32 - 1 }
        ensures { (r : Runs) → IsRunning self.old r → OnOk result (IsRunning self.new (after_printing r name.now order.now)) }
    {
        self.statement += 1;
        if let Some(table) = self.assigned.get(name) {
            self.prints.push(Printed {
                statement: self.statement,
                name: name.copy(alloc)?,
                order: order.copy(alloc)?,
                table: table.copy(alloc)?,
            })?;
        }
        Ok(())
    }

    fn store(&mut self, alloc: Global, old: &Name, new: &Name) -> Result<(), AllocError>
        requires few { self.old.statement < 2 ^ 32 - 1 }
        ensures { (r : Runs) → IsRunning self.old r → OnOk result (IsRunning self.new (after_storing r old.now new.now)) }
    {
        self.statement += 1;
        if let Some(table) = self.assigned.get(old) {
            self.stores.push(Stored {
                statement: self.statement,
                name: new.copy(alloc)?,
                table: table.copy(alloc)?,
            })?;
        }
        Ok(())
    }

    // One more statement.
    fn run(
        &mut self,
        alloc: Global,
        stored: &List<NamedTable>,
        plugins: &Vec<Box<dyn Plugin>>,
        statement: &Statement,
    ) -> Result<(), AllocError>
        requires few { self.old.statement < 2 ^ 32 - 1 }
        requires can { CanRun (handed ⟦<dyn Plugin as Plugin>⟧ plugins.now.items) stored.now self.old statement.now }
        ensures { (r : Runs) → IsRunning self.old r → OnOk result (IsRunning self.new (after (handed ⟦<dyn Plugin as Plugin>⟧ plugins.now.items) stored.now r statement.now)) }
    {
        match statement {
            Statement::Assign(name, node) => self.assign(alloc, stored, plugins, name, node),
            Statement::Print(name, order) => self.print(alloc, name, order),
            Statement::Store(old, new) => self.store(alloc, old, new),
        }
    }
}

/// What a script prints and stores over stored tables. A store changes no table that the script loads.
pub fn eval(
    alloc: Global,
    script: &Script,
    tables: &List<NamedTable>,
    plugins: &Vec<Box<dyn Plugin>>,
) -> Result<Answers, AllocError>
    requires few { length script.now < 2 ^ 32 }
    requires fits { ScriptFits (handed ⟦<dyn Plugin as Plugin>⟧ plugins.now.items) tables.now script.now }
    ensures { IfOk result (λ a. a ≡ denotation (handed ⟦<dyn Plugin as Plugin>⟧ plugins.now.items) tables.now script.now) }
{
    are_typed(tables);
    let mut running = Running {
        statement: 0,
        assigned: Assigned::new(alloc),
        prints: List::new(alloc),
        stores: List::new(alloc),
    };
    for statement in script.statements.as_slice() {
        running.run(alloc, tables, plugins, statement)?;
    }
    let Running {
        statement: _,
        assigned: _,
        prints,
        stores,
    } = running;
    Ok(Answers { prints, stores })
}
