//! Keys and rows beyond the range of their types.
ghost use Rattle.std.specs.Prelude.{◌≡◌, true};
ghost use Rattle.std.specs.List.{list_any};
ghost use Rattle.lara_key.specs.Keys.{key_is_over};
ghost use Rattle.lara_semiring.specs.Rows.{row_has, row_is_over};
ghost use Rattle.lara_data.specs.TableTypes.{types};

use lara_base::List;
use lara_data::ValCol;
use lara_key::Tuple;
use lara_semiring::{Row, is_over};

/// Whether a column of the key is `over`.
pub fn is_key_over(key: &Tuple) -> bool
    ensures { result ≡ list_any key_is_over key.now }
{
    key.as_slice().iter().any(|column| column.is_over())
}

/// Whether a value of the row, which is of the columns' types, is `over`.
#[tactic(auto, using(crate::proofs::RangeFacts::over_facts))]
pub fn is_row_over(vals: &List<ValCol>, row: &Row) -> bool
    requires { row_has (types vals.now) row.now ≡ true }
    ensures { result ≡ row_is_over (types vals.now) row.now }
{
    for i in 0..vals.len() {
        if is_over(&vals[i].ty, &row[i]) {
            return true;
        }
    }
    false
}
