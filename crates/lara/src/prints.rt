//! The text of what a script prints.
ghost use Rattle.std.specs.Prelude.{◌≡◌, IfErr};
ghost use Rattle.lara.specs.Endings.{Gives, StopsScript, no_fault};
ghost use Rattle.lara.specs.Ruling.{prints_text};

use crate::outcome::Outcome;
use crate::table_text::add_table_text;
use lara_assoc::Printed;
use lara_base::{Bytes, List};
use std::alloc::Global;

/// The texts of prints, one after the other, or `Range` with the statement of the first whose table is out of range.
pub fn prints_text(alloc: Global, prints: &List<Printed>) -> Result<Bytes, Outcome>
    ensures gives { Gives (λ t. t) no_fault (prints_text prints.now) result }
    ensures stops { IfErr result StopsScript }
{
    let mut text = List::new(alloc);
    for print in prints.as_slice() {
        if !print.table.is_in_range() {
            return Err(Outcome::Range {
                statement: print.statement,
            });
        }
        add_table_text(alloc, &mut text, &print.name, &print.order, &print.table)?;
    }
    Ok(text)
}
