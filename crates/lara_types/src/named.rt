//! Names among names.
ghost use Rattle.std.specs.Prelude.{◌≡◌};
ghost use Rattle.std.specs.List.{list_all};
ghost use Rattle.lara_data.specs.Names.{has, among, distinct};
ghost use Rattle.lara_data.specs.TableTypes.{key_names};
ghost use Rattle.lara_data.specs.TypeRules.{names_of};

use lara_base::Name;
use lara_data::{KeyCol, TableType, is_key_name, is_val_name};

/// Whether a name is among others.
#[tactic(auto, unfolding(lara_data::specs::Names::has, lara_data::specs::Names::same_name))]
pub fn has(names: &[Name], name: &Name) -> bool
    ensures { result ≡ has names.now name.now }
{
    names.iter().any(|n| name.same(n))
}

fn all_are_key_names(keys: &[KeyCol], names: &[Name]) -> bool
    ensures { result ≡ list_all (has (key_names keys.now)) names.now }
{
    names.iter().all(|name| is_key_name(keys, name))
}

/// Whether each of the names is a key column's.
#[tactic(auto, using(crate::proofs::ColumnFacts::among_all))]
pub fn are_key_names(keys: &[KeyCol], names: &[Name]) -> bool
    ensures { result ≡ among (key_names keys.now) names.now }
{
    all_are_key_names(keys, names)
}

/// Whether no name stands twice. Where the names are among a few, this takes that many turns over them at most.
#[tactic(auto, unfolding(lara_data::specs::Names::distinct))]
pub fn are_distinct(names: &[Name]) -> bool
    ensures { result ≡ distinct names.now }
{
    match names {
        [] => true,
        [first, rest @ ..] => {
            if has(rest, first) {
                false
            } else {
                are_distinct(rest)
            }
        }
    }
}

/// Whether a column has the name.
#[tactic(auto, using(lara_data::specs::Names::has_append))]
pub fn is_column_name(ty: &TableType, name: &Name) -> bool
    ensures { result ≡ has (names_of ty.now) name.now }
{
    is_key_name(ty.keys.as_slice(), name) || is_val_name(ty.vals.as_slice(), name)
}
