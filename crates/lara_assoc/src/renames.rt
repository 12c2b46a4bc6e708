//! A table under other names.
ghost use Rattle.std.specs.Prelude.{◌≡◌, IfOk, IsOk};
ghost use Rattle.lara_data.specs.Extensions.{renamed};
ghost use Rattle.lara_data.specs.TypeRules.{rename_type};

use crate::assoc::Assoc;
use lara_base::List;
use lara_data::{NamePair, renamed_columns};
use std::alloc::{AllocError, Global};

/// The same entries under new names of their columns, all given at once. A rename by these pairs is to have a type.
pub fn rename(alloc: Global, a: &Assoc, pairs: &List<NamePair>) -> Result<Assoc, AllocError>
    requires { IsOk (rename_type a.now.ty pairs.now) }
    ensures { IfOk result (λ r. r ≡ renamed pairs.now a.now) }
{
    let ty = renamed_columns(alloc, a.ty(), pairs)?;
    a.with_columns(ty)
}
