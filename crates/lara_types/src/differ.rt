//! Names that stand for one thing in one type and for another in the other.
ghost use Rattle.std.specs.Prelude.{◌≡◌};
ghost use Rattle.std.specs.List.{list_any};
ghost use Rattle.lara_data.specs.TypeRules.{key_column, val_column, same_kind, clash, clashes, types_differ};

use lara_base::Name;
use lara_data::{ColumnKind, KeyCol, TableType, ValCol};
use lara_key::same_key_type;
use lara_semiring::same_val_type;

fn same_kind(a: ColumnKind, b: ColumnKind) -> bool
    ensures { result ≡ same_kind a b }
{
    match (a, b) {
        (ColumnKind::Key(t), ColumnKind::Key(u)) => same_key_type(t, u),
        (ColumnKind::Val(t), ColumnKind::Val(u)) => same_val_type(t, u),
        (ColumnKind::Key(_), ColumnKind::Val(_)) => false,
        (ColumnKind::Val(_), ColumnKind::Key(_)) => false,
    }
}

// Whether two columns have one name and are not the same.
#[tactic(auto, unfolding(lara_data::specs::Names::same_name))]
fn clash(name: &Name, kind: ColumnKind, other: &Name, of: ColumnKind) -> bool
    ensures { result ≡ clash (record { name = name.now; kind = kind }) (record { name = other.now; kind = of }) }
{
    name.same(other) && !same_kind(kind, of)
}

fn clashes_key(keys: &[KeyCol], name: &Name, kind: ColumnKind) -> bool
    ensures { result ≡ list_any (λ k. clash (record { name = name.now; kind = kind }) (key_column k)) keys.now }
{
    keys.iter()
        .any(|k| clash(name, kind, &k.name, ColumnKind::Key(k.ty)))
}

fn clashes_val(vals: &[ValCol], name: &Name, kind: ColumnKind) -> bool
    ensures { result ≡ list_any (λ v. clash (record { name = name.now; kind = kind }) (val_column v)) vals.now }
{
    vals.iter()
        .any(|v| clash(name, kind, &v.name, ColumnKind::Val(v.ty)))
}

// Whether a column of the type has the name and is another.
#[tactic(auto, using(lara_data::specs::TypeRuleLaws::any_column))]
fn clashes(b: &TableType, name: &Name, kind: ColumnKind) -> bool
    ensures { result ≡ clashes b.now (record { name = name.now; kind = kind }) }
{
    clashes_key(b.keys.as_slice(), name, kind) || clashes_val(b.vals.as_slice(), name, kind)
}

fn keys_clash(b: &TableType, keys: &[KeyCol]) -> bool
    ensures { result ≡ list_any (λ k. clashes b.now (key_column k)) keys.now }
{
    keys.iter()
        .any(|k| clashes(b, &k.name, ColumnKind::Key(k.ty)))
}

fn vals_clash(b: &TableType, vals: &[ValCol]) -> bool
    ensures { result ≡ list_any (λ v. clashes b.now (val_column v)) vals.now }
{
    vals.iter()
        .any(|v| clashes(b, &v.name, ColumnKind::Val(v.ty)))
}

/// Whether a name stands for one thing in one type and for another in the other.
#[tactic(auto, using(lara_data::specs::TypeRuleLaws::any_column), unfolding(lara_data::specs::TypeRules::types_differ))]
pub fn types_differ(a: &TableType, b: &TableType) -> bool
    ensures { result ≡ types_differ a.now b.now }
{
    keys_clash(b, a.keys.as_slice()) || vals_clash(b, a.vals.as_slice())
}
