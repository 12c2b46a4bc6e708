//! A plugin, called as what it is and as one among others.
ghost use Rattle.std.specs.Prelude.{◌≡◌, [], ◌∷◌, IfOk, IsSome};
ghost use Rattle.lara_key.specs.declared.key.KeyVal.TheVariants.{Nat};

use crate::tests_samples::{is_letter, matrix_type, name};
use crate::{Arg, Plugin, TableType};
use lara_base::{List, Name};
use lara_key::{KeyType, KeyVal, Tuple};
use std::alloc::{AllocError, Global};
use std::test::Fail;

/// Adds one column with 7 to each key. It takes no arguments.
#[derive(Drop)]
struct Seven {
    name: Name,
}

fn single(alloc: Global, n: u64) -> Result<Tuple, AllocError>
    ensures { IfOk result (λ key. key ≡ Nat n ∷ []) }
{
    let mut key = List::new(alloc);
    key.push(KeyVal::Nat(n))?;
    Ok(key)
}

impl Plugin for Seven {
    ghost use Rattle.std.specs.Prelude.{◌==◌, [], ◌∷◌, length, Some, None, if◌then◌else◌};
    ghost use Rattle.lara_key.specs.declared.key.KeyType.TheVariants as kind;
    ghost use Rattle.lara_key.specs.declared.key.KeyVal.TheVariants as val;

    ghost called = { λ p. p.name };

    ghost accepted = { λ p ty args. if length args == 0 then Some (kind.Nat ∷ []) else None };

    ghost given = { λ p ty args key. (val.Nat 7 ∷ []) ∷ [] };

    fn name(&self) -> &Name {
        &self.name
    }

    fn accepts(
        &self,
        alloc: Global,
        _ty: &TableType,
        args: &List<Arg>,
    ) -> Result<Option<List<KeyType>>, AllocError> {
        if args.len() != 0 {
            return Ok(None);
        }
        let mut kinds = List::new(alloc);
        kinds.push(KeyType::Nat)?;
        Ok(Some(kinds))
    }

    #[tactic(auto, unfolding(crate::specs::AddedTuples::rising_tuples, crate::specs::KeyedTables::key_put, lara_key::specs::Keys::tuple_has, lara_key::specs::Keys::has_key_type))]
    fn tuples(
        &self,
        alloc: Global,
        _ty: &TableType,
        args: &List<Arg>,
        _key: &Tuple,
    ) -> Result<List<Tuple>, AllocError> {
        if args.len() != 0 {
            return Ok(List::new(alloc));
        }
        let mut all = List::new(alloc);
        all.push(single(alloc, 7)?)?;
        Ok(all)
    }
}

// The tuples for the empty key, or none where the plugin refuses.
fn added<P: Plugin>(
    alloc: Global,
    plugin: &P,
    args: &List<Arg>,
) -> Result<Option<List<Tuple>>, AllocError> {
    let ty = matrix_type(alloc)?;
    match plugin.accepts(alloc, &ty, args)? {
        Some(_) => Ok(Some(plugin.tuples(alloc, &ty, args, &List::new(alloc))?)),
        None => Ok(None),
    }
}

fn added_by_box(
    alloc: Global,
    plugin: &Box<dyn Plugin>,
    args: &List<Arg>,
) -> Result<Option<List<Tuple>>, AllocError> {
    let ty = matrix_type(alloc)?;
    match plugin.accepts(alloc, &ty, args)? {
        Some(_) => Ok(Some(plugin.tuples(alloc, &ty, args, &List::new(alloc))?)),
        None => Ok(None),
    }
}

fn is_named<P: Plugin>(plugin: &P, letter: u8) -> bool {
    is_letter(plugin.name(), letter)
}

// Whether the one tuple is 7.
fn is_seven(tuples: &Option<List<Tuple>>) -> bool {
    match tuples {
        Some(all) => match all.as_slice() {
            [only] => is_single(only, 7),
            _ => false,
        },
        None => false,
    }
}

fn is_single(key: &Tuple, n: u64) -> bool {
    key.len() == 1 && key.get(0) == Some(&KeyVal::Nat(n))
}

fn one_arg(alloc: Global) -> Result<List<Arg>, AllocError> {
    let mut args = List::new(alloc);
    args.push(Arg::Literal(KeyVal::Nat(1)))?;
    Ok(args)
}

fn make_seven(alloc: Global) -> Result<Seven, AllocError> {
    Ok(Seven {
        name: name(alloc, b'p')?,
    })
}

fn make_boxed_seven(alloc: Global) -> Result<Box<dyn Plugin>, AllocError> {
    Ok(Box::new(alloc, make_seven(alloc)?)?)
}

fn adds_seven<P: Plugin>(alloc: Global, plugin: &P) -> Result<bool, AllocError> {
    Ok(is_seven(&added(alloc, plugin, &List::new(alloc))?))
}

fn refuses_one<P: Plugin>(alloc: Global, plugin: &P) -> Result<bool, AllocError> {
    let args = one_arg(alloc)?;
    Ok(added(alloc, plugin, &args)?.is_none())
}

fn box_adds_seven(alloc: Global, plugin: &Box<dyn Plugin>) -> Result<bool, AllocError> {
    Ok(is_seven(&added_by_box(alloc, plugin, &List::new(alloc))?))
}

fn box_refuses_one(alloc: Global, plugin: &Box<dyn Plugin>) -> Result<bool, AllocError> {
    let args = one_arg(alloc)?;
    Ok(added_by_box(alloc, plugin, &args)?.is_none())
}

#[test]
fn a_plugin_adds_tuples_and_refuses(rt: HostRuntime) -> Result<(), Fail> {
    let alloc = rt.alloc();
    let plugin = make_seven(alloc)?;
    assert!(rt; is_named(&plugin, b'p'));
    assert!(rt; adds_seven(alloc, &plugin)?);
    assert!(rt; refuses_one(alloc, &plugin)?);
    Ok(())
}

#[test]
fn a_plugin_among_others_adds_tuples_and_refuses(rt: HostRuntime) -> Result<(), Fail> {
    let alloc = rt.alloc();
    let plugin = make_boxed_seven(alloc)?;
    assert!(rt; is_letter(plugin.name(), b'p'));
    assert!(rt; box_adds_seven(alloc, &plugin)?);
    assert!(rt; box_refuses_one(alloc, &plugin)?);
    Ok(())
}
