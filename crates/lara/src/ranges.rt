//! The first statement of a script that prints or stores a table that is out of range.
ghost use Rattle.std.specs.Prelude.{◌≡◌};
ghost use Rattle.lara.specs.Ranges.{print_past, store_past};

use lara_assoc::{Printed, Stored};
use lara_base::List;

/// The statement of the first print whose table is out of range.
pub fn print_past(prints: &List<Printed>) -> Option<u32>
    ensures { result ≡ print_past prints.now }
{
    for print in prints.as_slice() {
        if !print.table.is_in_range() {
            return Some(print.statement);
        }
    }
    None
}

/// The statement of the first store whose table is out of range.
pub fn store_past(stores: &List<Stored>) -> Option<u32>
    ensures { result ≡ store_past stores.now }
{
    for store in stores.as_slice() {
        if !store.table.is_in_range() {
            return Some(store.statement);
        }
    }
    None
}
