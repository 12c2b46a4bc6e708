//! Copies of typed trees and statements, each by the bound alone.

use crate::tests::{columns, name};
use crate::tests_made::{both, one};
use lara_base::{Boxed, Copied, List, Name};
use lara_data::{Call, Expr, KeyCol, KeyDef, NamePair, Node, Op, Statement};
use lara_key::KeyType;
use std::alloc::{AllocError, Global};
use std::test::Fail;

// Whether `is` holds of the copy of what was made.
fn copies<T: Copied + Drop, F: FnOnce(&T) -> bool>(
    alloc: Global,
    made: Result<T, AllocError>,
    is: F,
) -> Result<bool, AllocError>
    requires { F.IsAlwaysCallable is }
{
    let copy = made?.copy(alloc)?;
    Ok(is(&copy))
}

fn is_letter(name: &Name, letter: u8) -> bool {
    name.bytes().get(0) == Some(&letter)
}

// The table of a name.
fn node(alloc: Global, letter: u8) -> Result<Node, AllocError> {
    let (ty, name) = both(columns(alloc, b"k", b"v"), name(alloc, letter))?;
    Ok(Node {
        ty,
        op: Op::Named(name),
    })
}

fn boxed(alloc: Global, letter: u8) -> Result<Boxed<Node>, AllocError> {
    Ok(Boxed::new(alloc, node(alloc, letter)?)?)
}

fn is_named(node: &Node, letter: u8) -> bool {
    match &node.op {
        Op::Named(name) => node.ty.keys.len() == 1 && is_letter(name, letter),
        _ => false,
    }
}

fn is_a(node: &Node) -> bool {
    is_named(node, b'A')
}

fn load(alloc: Global) -> Result<Op, AllocError> {
    Ok(Op::Load(name(alloc, b'L')?))
}

fn is_load(op: &Op) -> bool {
    match op {
        Op::Load(name) => is_letter(name, b'L'),
        _ => false,
    }
}

fn join(alloc: Global) -> Result<Op, AllocError> {
    let (left, right) = both(boxed(alloc, b'A'), boxed(alloc, b'B'))?;
    Ok(Op::Join(left, right))
}

fn is_join(op: &Op) -> bool {
    match op {
        Op::Join(a, b) => is_a(a.get()) && is_named(b.get(), b'B'),
        _ => false,
    }
}

fn union(alloc: Global) -> Result<Op, AllocError> {
    let (left, right) = both(boxed(alloc, b'A'), boxed(alloc, b'B'))?;
    Ok(Op::Union(left, right))
}

fn is_union(op: &Op) -> bool {
    match op {
        Op::Union(a, b) => is_a(a.get()) && is_named(b.get(), b'B'),
        _ => false,
    }
}

fn agg(alloc: Global) -> Result<Op, AllocError> {
    let (a, names) = both(boxed(alloc, b'A'), one(alloc, name(alloc, b'k')))?;
    Ok(Op::Agg(a, names))
}

fn is_agg(op: &Op) -> bool {
    match op {
        Op::Agg(a, names) => {
            is_a(a.get()) && names.get(0).is_some_and(|name| is_letter(name, b'k'))
        }
        _ => false,
    }
}

fn map(alloc: Global) -> Result<Op, AllocError> {
    Ok(Op::Map(boxed(alloc, b'A')?, List::new(alloc)))
}

fn is_map(op: &Op) -> bool {
    match op {
        Op::Map(a, defs) => is_a(a.get()) && defs.is_empty(),
        _ => false,
    }
}

fn filter(alloc: Global) -> Result<Op, AllocError> {
    Ok(Op::Filter(boxed(alloc, b'A')?, Expr::Inf))
}

fn is_filter(op: &Op) -> bool {
    match op {
        Op::Filter(a, Expr::Inf) => is_a(a.get()),
        _ => false,
    }
}

fn promote(alloc: Global) -> Result<Op, AllocError> {
    let (a, name) = both(boxed(alloc, b'A'), name(alloc, b'k'))?;
    let col = KeyCol {
        name,
        ty: KeyType::Nat,
    };
    let expr = Expr::Inf;
    Ok(Op::Promote(a, KeyDef { col, expr }))
}

fn is_promote(op: &Op) -> bool {
    match op {
        Op::Promote(a, def) => is_a(a.get()) && is_letter(&def.col.name, b'k'),
        _ => false,
    }
}

fn pair(alloc: Global) -> Result<NamePair, AllocError> {
    let (old, new) = both(name(alloc, b'i'), name(alloc, b'j'))?;
    Ok(NamePair { old, new })
}

fn is_pair(pair: &NamePair) -> bool {
    is_letter(&pair.old, b'i') && is_letter(&pair.new, b'j')
}

fn rename(alloc: Global) -> Result<Op, AllocError> {
    let (a, pairs) = both(boxed(alloc, b'A'), one(alloc, pair(alloc)))?;
    Ok(Op::Rename(a, pairs))
}

fn is_rename(op: &Op) -> bool {
    match op {
        Op::Rename(a, pairs) => is_a(a.get()) && pairs.get(0).is_some_and(is_pair),
        _ => false,
    }
}

fn apply(alloc: Global) -> Result<Op, AllocError> {
    let (a, plugin) = both(boxed(alloc, b'A'), name(alloc, b'p'))?;
    let call = Call {
        plugin,
        args: List::new(alloc),
        cols: List::new(alloc),
    };
    Ok(Op::Apply(a, call))
}

fn is_apply(op: &Op) -> bool {
    match op {
        Op::Apply(a, call) => is_a(a.get()) && is_letter(&call.plugin, b'p'),
        _ => false,
    }
}

fn store(alloc: Global) -> Result<Statement, AllocError> {
    let (old, new) = both(name(alloc, b'i'), name(alloc, b'j'))?;
    Ok(Statement::Store(old, new))
}

fn is_store(statement: &Statement) -> bool {
    match statement {
        Statement::Store(old, new) => is_letter(old, b'i') && is_letter(new, b'j'),
        _ => false,
    }
}

#[test]
fn trees_are_copied(rt: HostRuntime) -> Result<(), Fail> {
    let alloc = rt.alloc();
    assert!(rt; copies(alloc, node(alloc, b'A'), is_a)?);
    assert!(rt; copies(alloc, load(alloc), is_load)?);
    assert!(rt; copies(alloc, join(alloc), is_join)?);
    assert!(rt; copies(alloc, union(alloc), is_union)?);
    assert!(rt; copies(alloc, agg(alloc), is_agg)?);
    assert!(rt; copies(alloc, map(alloc), is_map)?);
    assert!(rt; copies(alloc, filter(alloc), is_filter)?);
    assert!(rt; copies(alloc, promote(alloc), is_promote)?);
    assert!(rt; copies(alloc, rename(alloc), is_rename)?);
    assert!(rt; copies(alloc, apply(alloc), is_apply)?);
    assert!(rt; copies(alloc, store(alloc), is_store)?);
    Ok(())
}
