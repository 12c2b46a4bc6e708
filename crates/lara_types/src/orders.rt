//! The order of a print.
ghost use Rattle.std.specs.Prelude.{◌≡◌, map, None, Some, Ok};
ghost use Rattle.std.specs.List.{list_all};
ghost use Rattle.lara_data.specs.Names.{has};
ghost use Rattle.lara_types.specs.Checks.{order_in};
ghost use Rattle.lara_types.specs.NodeRules.{order_rules};
ghost use Rattle.lara_types.specs.Rules.{by_rules};
ghost use Rattle.lara_types.specs.Written.{plain};
ghost use Rattle.lara_data.specs.Judgements.{Judges};
ghost use Rattle.lara_data.specs.TypedScripts.{is_order};

use crate::named::has;
use crate::refuse::refused;
use lara_base::{Copied, List, Name};
use lara_data::{Kind, ReadFault, TableType, key_names};
use lara_syntax::{AstBy, AstName};
use std::alloc::Global;

/// The names without their places.
pub fn plain_names(alloc: Global, listed: &List<AstName>) -> Result<List<Name>, ReadFault>
    ensures { Judges (λ ns. ns) (Ok (plain listed.now)) result }
{
    let mut names = List::new(alloc);
    for name in listed.as_slice() {
        names.push(name.name.copy(alloc)?)?;
    }
    Ok(names)
}

// Whether each of the names is among others.
fn has_all(names: &[Name], wanted: &[Name]) -> bool
    ensures { result ≡ list_all (has names.now) wanted.now }
{
    wanted.iter().all(|name| has(names, name))
}

// Whether an order has each key column once.
#[tactic(auto, unfolding(lara_data::specs::TypedScripts::is_order))]
fn is_order(order: &[Name], keys: &[Name]) -> bool
    ensures { result ≡ is_order order.now keys.now }
{
    order.len() == keys.len() && has_all(order, keys)
}

/// The order of a print over a table of this type: the declared one, or the one behind `by`.
#[tactic(auto, unfolding(crate::specs::Rules::first_broken))]
pub fn order_of(alloc: Global, ty: &TableType, by: &Option<AstBy>) -> Result<List<Name>, ReadFault>
    ensures { Judges (λ ns. ns) (by_rules (order_rules (Some ty.now) by.now) (order_in ty.now by.now)) result }
{
    let keys = key_names(alloc, &ty.keys)?;
    let Some(by) = by else {
        return Ok(keys);
    };
    let order = plain_names(alloc, &by.names)?;
    if is_order(order.as_slice(), keys.as_slice()) {
        Ok(order)
    } else {
        Err(refused(by.at, Kind::NotAnOrder))
    }
}
