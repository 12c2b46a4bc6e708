//! What is known of the types of stored tables.
ghost use Rattle.std.specs.Prelude.{◌≡◌, true};
ghost use Rattle.lara_data.specs.TableTypes.{are_columns};
ghost use Rattle.lara_types.specs.StoredTypes.{AllColumns};

use lara_data::{Schema, TableType};

/// The columns of a type are a table's, as it keeps of itself. This does nothing but to say so.
pub fn has_columns(ty: &TableType)
    ensures { are_columns ty.now.keys ty.now.vals ≡ true }
{
    let _keys = &ty.keys;
}

/// The columns of each type are a table's. This does nothing but to say so: a type keeps this of itself, and a contract
/// that has the types in a list learns it only where each was looked at.
pub fn have_columns(stored: &[Schema])
    ensures { AllColumns stored.now }
{
    for schema in stored {
        has_columns(&schema.ty);
    }
}
