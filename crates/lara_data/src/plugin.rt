//! What extends tables from outside the language.
ghost use Rattle.std.specs.Prelude.{◌≡◌, IfOk, IsSome};
ghost use Rattle.lara_data.specs.AddedTuples.{added};

use crate::arg::Arg;
use crate::table_type::TableType;
use lara_base::{List, Name};
use lara_key::{KeyType, Tuple};
use std::alloc::{AllocError, Global};

/// A function from keys to tuples of further key columns. The row of an entry is kept with each tuple.
pub trait Plugin: Drop {
    ghost use Rattle.std.specs.Prelude.{List as Listing, ℕ, Option};
    ghost use Rattle.lara_key.specs.declared.key.KeyType.{KeyType as TypeOfKey};
    ghost use Rattle.lara_data.specs.declared.arg.Arg.{Arg as Given};
    ghost use Rattle.lara_data.specs.TableTypes.{Columns};
    ghost use Rattle.lara_data.specs.Names.{Tuple as Key};

    /// Its name.
    ghost called: { Self → Listing ℕ };

    /// The types of the key columns that it adds to a table of these columns, or none where it refuses.
    ghost accepted: { Self → Columns → Listing Given → Option (Listing TypeOfKey) };

    /// The tuples that it has for a key, in any order, as often as it likes and of any types.
    ghost given: { Self → Columns → Listing Given → Key → Listing Key };

    /// The name under which a script applies it.
    fn name(&self) -> &Name
        ensures { result.now ≡ called self.now };

    /// The types of the key columns that it adds, or `None` where it refuses the table's type or the arguments.
    fn accepts(
        &self,
        alloc: Global,
        ty: &TableType,
        args: &List<Arg>,
    ) -> Result<Option<List<KeyType>>, AllocError>
        ensures { IfOk result (λ r. r ≡ accepted self.now ty.now args.now) };

    /// The tuples that it adds to a key, each once, rising.
    fn tuples(
        &self,
        alloc: Global,
        ty: &TableType,
        args: &List<Arg>,
        key: &Tuple,
    ) -> Result<List<Tuple>, AllocError>
        requires { IsSome (accepted self.now ty.now args.now) }
        ensures { IfOk result (λ r. r ≡ added (accepted self.now ty.now args.now) (given self.now ty.now args.now key.now)) };
}
