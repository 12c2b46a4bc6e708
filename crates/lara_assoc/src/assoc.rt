//! A table on an ordered map.
ghost use Rattle.std.specs.Prelude.{◌≡◌, ◌↔◌, true, [], length, IfOk, IsTrue};
ghost use Rattle.std.specs.List.Sorted.{IsPermutation};
ghost use Rattle.lara_key.specs.Keys.{tuple_cmp};
ghost use Rattle.lara_data.specs.KeyedTables.{all_have, AllKeys, SameAt};
ghost use Rattle.lara_data.specs.MapTables.{of_pairs};
ghost use Rattle.lara_data.specs.Tables.{Entries, table_of, recut, is_in_range};
ghost use Rattle.lara_data.specs.Algebra.{ordered};
ghost use Rattle.lara_data.specs.TableTypes.{types, key_names};
ghost use Rattle.lara_data.specs.TypedTables.{KeyHas, IsTypedTable};
ghost use Rattle.lara_assoc.specs.OwnOrders.{are_names};
ghost use Rattle.lara_assoc.specs.Summed.{AreSumsOf};

use crate::keys::{picked, places};
use crate::range::{is_key_over, is_row_over};
use crate::sums::Sums;
use lara_base::{Copied, List, Name};
use lara_data::{Entry, KeyCol, TableType};
use lara_key::Tuple;
use lara_semiring::Row;
use std::alloc::{AllocError, Global};
use std::collections::{BTreeMap, btree_map};
use std::marker::Model;
use std::rc::Rc;

/// A table: a finite map from tuples to rows, each of its type, no row default. Copies share the map, which is never
/// written again once it is a table's.
#[derive(Drop)]
pub struct Assoc {
    ty: TableType,
    rows: Rc<BTreeMap<Tuple, Row>>,
}

impl Model for Assoc {
    ghost use Rattle.lara_data.specs.MapTables.{of_pairs};
    ghost use Rattle.lara_data.specs.Tables.{Table};
    ghost use Rattle.lara_data.specs.TypedTables.{IsTypedTable};

    ghost Value = { Table };

    ghost view = { λ a. record { ty = a.ty; entries = of_pairs a.rows.value.entries } };

    ghost invariant = { λ a. IsTypedTable (record { ty = a.ty; entries = of_pairs a.rows.value.entries }) };
}

// Whether these are the names of the columns, in their sequence.
fn are_names(keys: &[KeyCol], names: &[Name]) -> bool
    ensures { result ≡ are_names keys.now names.now }
{
    match keys {
        [] => match names {
            [] => true,
            [_first, _rest @ ..] => false,
        },
        [key, other_keys @ ..] => match names {
            [] => false,
            [name, other_names @ ..] => {
                if !name.same(&key.name) {
                    return false;
                }
                are_names(other_keys, other_names)
            }
        },
    }
}

impl Assoc {
    /// The table of a list of entries of the type: at each key the sum of the rows that are listed with it.
    pub fn total(alloc: Global, ty: &TableType, entries: &List<Entry>) -> Result<Assoc, AllocError>
        requires keys { AllKeys (KeyHas ty.now.keys) entries.now }
        requires rows { all_have (types ty.now.vals) entries.now ≡ true }
        ensures table { IfOk result (λ a. a ≡ table_of ty.now entries.now) }
        ensures any_order { (others : Entries) → IsPermutation others entries.now → IfOk result (λ a. a ≡ table_of ty.now others) }
    {
        let mut sums = Sums::new(alloc, &ty.vals)?;
        for entry in entries.as_slice() {
            sums.add(alloc, entry.key.copy(alloc)?, entry.row.copy(alloc)?)?;
        }
        Assoc::of_sums(alloc, ty.copy(alloc)?, sums)
    }

    /// The table of each list of entries that has these sums.
    pub(crate) fn of_sums(alloc: Global, ty: TableType, sums: Sums) -> Result<Assoc, AllocError>
        requires { AreSumsOf ty sums }
        ensures { (es : Entries) → SameAt tuple_cmp sums.types sums.entries es → IfOk result (λ a. a ≡ table_of ty es) }
    {
        Ok(Assoc {
            ty,
            rows: Rc::new(alloc, sums.into_rows())?,
        })
    }

    /// The table without entries.
    pub(crate) fn empty(alloc: Global, ty: &TableType) -> Result<Assoc, AllocError>
        ensures { IfOk result (λ a. a ≡ table_of ty.now []) }
    {
        let entries = List::new(alloc);
        Assoc::total(alloc, ty, &entries)
    }

    /// The same entries under other columns, of whose types they are to be. The map is shared.
    pub(crate) fn with_columns(&self, ty: TableType) -> Result<Assoc, AllocError>
        requires { IsTypedTable (record { ty = ty; entries = self.now.entries }) }
        ensures { IfOk result (λ a. a ≡ record { ty = ty; entries = self.now.entries }) }
    {
        Ok(Assoc {
            ty,
            rows: self.rows.clone()?,
        })
    }

    /// The named columns, of whose types keys and rows are.
    pub fn ty(&self) -> &TableType
        ensures columns { result.now ≡ self.now.ty }
        ensures typed { IsTypedTable self.now }
    {
        &self.ty
    }

    /// The keys with their rows, in rising order, in place.
    pub fn iter(&self) -> btree_map::Iter<'_, Tuple, Row>
        ensures rest { of_pairs result ≡ self.now.entries }
        ensures typed { IsTypedTable self.now }
    {
        self.rows.as_ref().iter()
    }

    /// How many keys it has.
    pub fn len(&self) -> usize
        ensures { result ≡ length self.now.entries }
    {
        self.rows.as_ref().len()
    }

    /// The keys with their rows, in rising order, copied.
    pub fn entries(&self, alloc: Global) -> Result<List<Entry>, AllocError>
        ensures value { IfOk result (λ es. es ≡ self.now.entries) }
        ensures typed { IsTypedTable self.now }
    {
        let mut list = List::new(alloc);
        for (key, row) in self.rows.as_ref().iter() {
            list.push(Entry {
                key: key.copy(alloc)?,
                row: row.copy(alloc)?,
            })?;
        }
        Ok(list)
    }

    // The sums of the entries with their key columns in the given order.
    pub(crate) fn recut(&self, alloc: Global, order: &List<Name>) -> Result<Sums, AllocError>
        ensures types { IfOk result (λ s. s.types ≡ types self.now.ty.vals) }
        ensures sums { IfOk result (λ s. SameAt tuple_cmp s.types s.entries (recut (key_names self.now.ty.keys) order.now self.now.entries)) }
    {
        let places = places(alloc, &self.ty.keys, order)?;
        let mut sums = Sums::new(alloc, &self.ty.vals)?;
        for (key, row) in self.rows.as_ref().iter() {
            sums.add(alloc, picked(alloc, &places, key)?, row.copy(alloc)?)?;
        }
        Ok(sums)
    }

    /// Whether the key columns stand in this order, in which the entries are then as they are.
    pub fn is_own_order(&self, order: &List<Name>) -> bool
        ensures exact { IsTrue result ↔ (order.now ≡ key_names self.now.ty.keys) }
        ensures same { IsTrue result → ordered self.now order.now ≡ self.now.entries }
    {
        are_names(self.ty.keys.as_slice(), order.as_slice())
    }

    /// The entries with their key columns in the given order, in a map of their own.
    pub fn entries_by(
        &self,
        alloc: Global,
        order: &List<Name>,
    ) -> Result<BTreeMap<Tuple, Row>, AllocError>
        ensures { IfOk result (λ m. of_pairs m.entries ≡ ordered self.now order.now) }
    {
        Ok(self.recut(alloc, order)?.into_rows())
    }

    /// Whether no key column and no value is `over`.
    #[tactic(auto, unfolding(lara_data::specs::Tables::is_in_range, lara_data::specs::KeyedTables::all_have))]
    pub fn is_in_range(&self) -> bool
        ensures { result ≡ is_in_range self.now }
    {
        for (key, row) in self.rows.as_ref().iter() {
            if is_key_over(key) || is_row_over(&self.ty.vals, row) {
                return false;
            }
        }
        true
    }
}

impl Copied for Assoc {
    fn copy(&self, alloc: Global) -> Result<Assoc, AllocError> {
        Ok(Assoc {
            ty: self.ty.copy(alloc)?,
            rows: self.rows.clone()?,
        })
    }
}
