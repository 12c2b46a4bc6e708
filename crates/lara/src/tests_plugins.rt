//! A call that is handed a plugin. No script has an apply yet, so it prints what it prints without.

use crate::tests::{Case, NONE, status_with};
use lara_base::{List, Name};
use lara_data::{Arg, Plugin, TableType};
use lara_key::{KeyType, Tuple};
use std::alloc::{AllocError, Global};
use std::test::Fail;

/// A plugin that takes all arguments, adds no column and has no tuple for any key.
#[derive(Drop)]
struct Nothing {
    name: Name,
}

impl Plugin for Nothing {
    ghost use Rattle.std.specs.Prelude.{[], Some};

    ghost called = { λ p. p.name };

    ghost accepted = { λ p ty args. Some [] };

    ghost given = { λ p ty args key. [] };

    fn name(&self) -> &Name {
        &self.name
    }

    fn accepts(
        &self,
        alloc: Global,
        _ty: &TableType,
        _args: &List<Arg>,
    ) -> Result<Option<List<KeyType>>, AllocError> {
        Ok(Some(List::new(alloc)))
    }

    #[tactic(auto, unfolding(lara_data::specs::AddedTuples::rising_tuples))]
    fn tuples(
        &self,
        alloc: Global,
        _ty: &TableType,
        _args: &List<Arg>,
        _key: &Tuple,
    ) -> Result<List<Tuple>, AllocError> {
        Ok(List::new(alloc))
    }
}

fn plugins(alloc: Global) -> Result<Vec<Box<dyn Plugin>>, AllocError> {
    let name = Name::new(List::from_slice(alloc, b"p")?).ok_or(AllocError)?;
    let plugin: Box<dyn Plugin> = Box::new(alloc, Nothing { name })?;
    let mut plugins = Vec::new(alloc);
    plugins.push(plugin)?;
    Ok(plugins)
}

#[test]
fn a_plugin_changes_no_script_without_applies(rt: HostRuntime) -> Result<(), Fail> {
    let alloc = rt.alloc();
    let plugins = plugins(alloc)?;
    let case = Case {
        words: &[b"run"],
        script: b"T = table [: v: count] { :4 }; print T;",
        out: b"T[: v: count]\n:4\nend 1\n",
        err: b"",
    };
    assert_eq!(rt; status_with(alloc, &case, 9, &NONE, &plugins)?, Some(0));
    Ok(())
}
