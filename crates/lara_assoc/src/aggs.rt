//! The aggregation of a table.
ghost use Rattle.std.specs.Prelude.{◌≡◌, IfOk, IsOk};
ghost use Rattle.lara_data.specs.Algebra.{agg_table};
ghost use Rattle.lara_data.specs.TypeRules.{agg_type};

use crate::assoc::Assoc;
use lara_base::{List, Name};
use lara_data::agg_columns;
use std::alloc::{AllocError, Global};

/// The table summed by these columns, which are to be key columns, each once.
pub fn agg(alloc: Global, a: &Assoc, keys: &List<Name>) -> Result<Assoc, AllocError>
    requires { IsOk (agg_type a.now.ty keys.now) }
    ensures { IfOk result (λ r. r ≡ agg_table a.now keys.now) }
{
    let ty = agg_columns(alloc, a.ty(), keys)?;
    let sums = a.recut(alloc, keys)?;
    Assoc::of_sums(alloc, ty, sums)
}
