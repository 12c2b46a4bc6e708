//! The text of a table of the plain evaluation.
ghost use Rattle.std.specs.Prelude.{◌≡◌, ◌++◌, OnOk};
ghost use Rattle.std.specs.List.{flat_map};
ghost use Rattle.lara_data.specs.MapTables.{of_pairs};
ghost use Rattle.lara_text.specs.TableTexts.{entry_line, table_text};

use lara_assoc::Assoc;
use lara_base::{Bytes, List, Name};
use lara_key::Tuple;
use lara_semiring::Row;
use lara_text::{add_cell_line, add_end_line, add_head_line};
use std::alloc::{AllocError, Global};
use std::collections::btree_map;

// Adds a line for each key of a map.
fn add_cells(text: &mut Bytes, cells: btree_map::Iter<'_, Tuple, Row>) -> Result<(), AllocError>
    ensures { OnOk result (text.new ≡ text.old ++ flat_map entry_line (of_pairs cells.entry)) }
{
    for (key, row) in cells {
        add_cell_line(text, key, row)?;
    }
    Ok(())
}

/// Adds the text of a table with its key columns in the given order: a line with the name and the columns, a line for
/// each key in the rising order of the permuted keys, and a line with their number. In the table's own order the lines
/// come straight from it.
#[tactic(auto, using(crate::proofs::TextFacts::text_whole))]
pub fn add_table_text(
    alloc: Global,
    text: &mut Bytes,
    name: &Name,
    order: &List<Name>,
    table: &Assoc,
) -> Result<(), AllocError>
    ensures { OnOk result (text.new ≡ text.old ++ table_text name.now order.now table.now) }
{
    add_head_line(alloc, text, name, table.ty(), order)?;
    if table.is_own_order(order) {
        add_cells(text, table.iter())?;
        return add_end_line(text, table.len());
    }
    let cells = table.entries_by(alloc, order)?;
    add_cells(text, cells.iter())?;
    add_end_line(text, cells.len())
}
