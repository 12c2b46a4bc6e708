//! The typed tree of a tree with places.
ghost use Rattle.std.specs.Prelude.{◌≡◌, None, Ok, IfOk, IfErr, IsSome};
ghost use Rattle.std.specs.Option.{option_copied};
ghost use Rattle.lara_data.specs.declared.node.Node.{Node as NodeSpec};
ghost use Rattle.lara_data.specs.Algebra.{agg_columns};
ghost use Rattle.lara_data.specs.Plugins.{handed};
ghost use Rattle.lara_data.specs.TypedTrees.{type_named};
ghost use Rattle.lara_data.specs.Judgements.{Judges, NotMemory, refused};
ghost use Rattle.lara_types.specs.CheckedTrees.{typed, columns_in, loaded, assigned, literal, joined, united, summed, checked_op};
ghost use Rattle.lara_types.specs.NodeRules.{known_rules, agg_rules};
ghost use Rattle.lara_types.specs.Rules.{first_broken, by_rules};
ghost use Rattle.lara_types.specs.Written.{plain};

use crate::agg_places::agg_refusal;
use crate::each_trees::{filter_of, map_of, promote_of, rename_of};
use crate::literal_entries::entries_of;
use crate::literal_types::literal_type;
use crate::orders::plain_names;
use crate::refuse::refused;
use crate::rules::{agg_type, type_join, type_union};
use lara_base::{Boxed, Copied, List, Name};
use lara_data::{Kind, Node, Op, Plugin, ReadFault, Schema, TableType};
use lara_syntax::{AstEntry, AstName, AstNode, AstOp, AstType};
use std::alloc::Global;

// The newest type of a name.
#[tactic(auto, unfolding(lara_data::specs::Newest::newest, lara_data::specs::Names::same_name))]
fn type_named<'a>(known: &'a List<Schema>, name: &Name) -> Option<&'a TableType>
    ensures { option_copied result ≡ type_named name.now known.now }
{
    let mut newest = None;
    for schema in known.as_slice() {
        if name.same(&schema.name) {
            newest = Some(&schema.ty);
        }
    }
    newest
}

/// The newest type of a name, or a refusal of this kind where it has none.
#[tactic(auto, unfolding(crate::specs::Rules::first_broken))]
pub fn known_type<'a>(
    known: &'a List<Schema>,
    name: &AstName,
    kind: Kind,
) -> Result<&'a TableType, ReadFault>
    ensures gives { Judges (λ t. t.now) (by_rules (known_rules kind name.now (type_named name.now.name known.now)) (columns_in (type_named name.now.name known.now))) result }
    ensures sure { IfErr result NotMemory }
{
    match type_named(known, &name.name) {
        Some(ty) => Ok(ty),
        None => Err(refused(name.at, kind)),
    }
}

// A stored table.
fn load_of(alloc: Global, stored: &List<Schema>, name: &AstName) -> Result<Node, ReadFault>
    ensures { Judges (λ n. n) (loaded stored.now name.now) result }
{
    let ty = known_type(stored, name, Kind::NoTable)?.copy(alloc)?;
    let op = Op::Load(name.name.copy(alloc)?);
    Ok(Node { ty, op })
}

// A table that the script assigned before.
fn named_of(alloc: Global, known: &List<Schema>, name: &AstName) -> Result<Node, ReadFault>
    ensures { Judges (λ n. n) (assigned known.now name.now) result }
{
    let ty = known_type(known, name, Kind::NoName)?.copy(alloc)?;
    let op = Op::Named(name.name.copy(alloc)?);
    Ok(Node { ty, op })
}

// A literal with its type and its entries.
fn literal_of(
    alloc: Global,
    at: u32,
    ty: &AstType,
    entries: &List<AstEntry>,
) -> Result<Node, ReadFault>
    ensures { Judges (λ n. n) (literal at ty.now entries.now) result }
{
    let ty = literal_type(alloc, at, ty)?;
    let entries = entries_of(alloc, &ty, entries)?;
    Ok(Node {
        ty,
        op: Op::Literal(entries),
    })
}

// The operator with its type, or the refusal of the rule that is broken.
fn placed(at: u32, op: Op, ty: Result<TableType, Kind>) -> Result<Node, ReadFault>
    ensures typed { IfOk ty (λ t. Judges (λ n. n) (Ok (typed t op)) result) }
    ensures broken { IfErr ty (λ kind. Judges (λ (n : NodeSpec). n) (refused at kind) result) }
    ensures sure { IfErr result NotMemory }
{
    match ty {
        Ok(ty) => Ok(Node { ty, op }),
        Err(kind) => Err(refused(at, kind)),
    }
}

// A join whose first word is at `at`.
fn join_of(alloc: Global, at: u32, a: Node, b: Node) -> Result<Node, ReadFault>
    ensures { Judges (λ n. n) (joined at a b) result }
{
    let ty = type_join(alloc, &a.ty, &b.ty)?;
    let op = Op::Join(Boxed::new(alloc, a)?, Boxed::new(alloc, b)?);
    placed(at, op, ty)
}

// A union whose first word is at `at`.
fn union_of(alloc: Global, at: u32, a: Node, b: Node) -> Result<Node, ReadFault>
    ensures { Judges (λ n. n) (united at a b) result }
{
    let ty = type_union(alloc, &a.ty, &b.ty)?;
    let op = Op::Union(Boxed::new(alloc, a)?, Boxed::new(alloc, b)?);
    placed(at, op, ty)
}

// An agg whose rules are met.
fn sum_of(alloc: Global, a: Node, keys: &List<AstName>) -> Result<Node, ReadFault>
    requires { first_broken (agg_rules a.ty keys.now) ≡ None }
    ensures { Judges (λ n. n) (Ok (typed (agg_columns a.ty (plain keys.now)) (Op.Agg a (plain keys.now)))) result }
{
    let keys = plain_names(alloc, keys)?;
    let ty = agg_type(alloc, &a.ty, &keys)?;
    let op = Op::Agg(Boxed::new(alloc, a)?, keys);
    Ok(Node { ty, op })
}

// An agg. Its rules are looked at before anything is made, so a broken one is never answered by want of memory.
fn agg_of(alloc: Global, a: Node, keys: &List<AstName>) -> Result<Node, ReadFault>
    ensures gives { Judges (λ n. n) (summed a keys.now) result }
    ensures sure { IsSome (first_broken (agg_rules a.ty keys.now)) → IfErr result NotMemory }
{
    match agg_refusal(&a.ty, keys.as_slice()) {
        Some(refusal) => Err(ReadFault::Refused(refusal)),
        None => sum_of(alloc, a, keys),
    }
}

/// The typed tree of a table: operands come before operators, left before right.
#[tactic(auto, using(crate::proofs::CheckEquations::checked_rules))]
pub fn node_of(
    alloc: Global,
    stored: &List<Schema>,
    known: &List<Schema>,
    plugins: &Vec<Box<dyn Plugin>>,
    node: &AstNode,
) -> Result<Node, ReadFault>
    ensures { Judges (λ n. n) (checked_op (handed ⟦<dyn Plugin as Plugin>⟧ plugins.now.items) stored.now known.now node.now.at node.now.op) result }
{
    match &node.op {
        AstOp::Load(name) => load_of(alloc, stored, name),
        AstOp::Named(name) => named_of(alloc, known, name),
        AstOp::Literal(ty, entries) => literal_of(alloc, node.at, ty, entries),
        AstOp::Join(a, b) => {
            let left = node_of(alloc, stored, known, plugins, a.get())?;
            let right = node_of(alloc, stored, known, plugins, b.get())?;
            join_of(alloc, node.at, left, right)
        }
        AstOp::Union(a, b) => {
            let one = node_of(alloc, stored, known, plugins, a.get())?;
            let other = node_of(alloc, stored, known, plugins, b.get())?;
            union_of(alloc, node.at, one, other)
        }
        AstOp::Agg(a, keys) => {
            let table = node_of(alloc, stored, known, plugins, a.get())?;
            agg_of(alloc, table, keys)
        }
        AstOp::Map(a, defs) => {
            let table = node_of(alloc, stored, known, plugins, a.get())?;
            map_of(alloc, node.at, table, defs.list().as_slice())
        }
        AstOp::Filter(a, test) => {
            let table = node_of(alloc, stored, known, plugins, a.get())?;
            filter_of(alloc, node.at, table, test)
        }
        AstOp::Promote(a, def) => {
            let table = node_of(alloc, stored, known, plugins, a.get())?;
            promote_of(alloc, node.at, table, def)
        }
        AstOp::Rename(a, pairs) => {
            let table = node_of(alloc, stored, known, plugins, a.get())?;
            rename_of(alloc, node.at, table, pairs.as_slice())
        }
        // no words yet: these are in no script
        AstOp::Apply(_, _) => Err(refused(node.at, Kind::Unexpected)),
    }
}
