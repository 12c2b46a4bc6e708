//! Scripts: statements whose trees are typed.
ghost use Rattle.std.specs.Prelude.{◌≡◌, [], IsOk, IfOk};

use crate::node::Node;
use crate::order::Order;
use lara_base::{Copied, List, Name};
use std::alloc::{AllocError, Global};
use std::marker::Model;

/// A statement. `Assign` names a table, `Print` names a table and the order of its key columns, and `Store` names a table
/// and then the name that it gets in the database.
pub enum Statement {
    Assign(Name, Node),
    Print(Name, Order),
    Store(Name, Name),
}

impl Drop for Statement {
    fn drop(self) {
        match self {
            Statement::Assign(_name, _node) => {}
            Statement::Print(_name, _order) => {}
            Statement::Store(_old, _new) => {}
        }
    }
}

/// Statements in which every node has its type by the rules, every name was assigned before, and every order of a print
/// has each key column once.
#[derive(Drop)]
pub struct Script {
    pub statements: List<Statement>,
}

impl Model for Script {
    ghost use Rattle.std.specs.Prelude.{List};
    ghost use Rattle.std.specs.Coded.{coded_list};
    ghost use Rattle.lara_data.specs.declared.script.Statement.{Statement};
    ghost use Rattle.lara_data.specs.contracts.script.Statement as statement;

    ghost Value = { List Statement };

    ghost coded = { coded_list statement.the_row.coded };

    ghost use Rattle.lara_data.specs.TypedScripts.{ScriptTyped};

    ghost view = { λ s. s.statements };

    ghost invariant = { λ s. ScriptTyped s.statements };
}

impl Copied for Statement {
    fn copy(&self, alloc: Global) -> Result<Statement, AllocError> {
        match self {
            Statement::Assign(name, node) => {
                Ok(Statement::Assign(name.copy(alloc)?, node.copy(alloc)?))
            }
            Statement::Print(name, order) => {
                Ok(Statement::Print(name.copy(alloc)?, order.copy(alloc)?))
            }
            Statement::Store(old, new) => Ok(Statement::Store(old.copy(alloc)?, new.copy(alloc)?)),
        }
    }
}

impl Copied for Script {
    fn copy(&self, alloc: Global) -> Result<Script, AllocError>
        ensures same { IfOk result (λ r. r ≡ self.now) }
        ensures empty { self.now ≡ [] → IsOk result }
    {
        Ok(Script {
            statements: self.statements.copy(alloc)?,
        })
    }
}
