//! The first rule of an agg that is broken.
ghost use Rattle.std.specs.Prelude.{◌≡◌, []};
ghost use Rattle.std.specs.List.{list_any};
ghost use Rattle.std.specs.Str.{bytes_eq};
ghost use Rattle.lara_types.specs.NameRules.{key_rules, once_rules};
ghost use Rattle.lara_types.specs.NodeRules.{agg_rules};
ghost use Rattle.lara_types.specs.Rules.{first_broken};

use crate::refuse::refusal;
use lara_base::Name;
use lara_data::{KeyCol, Kind, Refusal, TableType, is_key_name};
use lara_syntax::AstName;

// At the first name that is no key column's.
fn stranger(keys: &[KeyCol], names: &[AstName]) -> Option<Refusal>
    ensures { result ≡ first_broken (key_rules keys.now names.now) }
{
    for name in names {
        if !is_key_name(keys, &name.name) {
            return Some(refusal(name.at, Kind::NotAKey));
        }
    }
    None
}

// Whether a name is among others at their places.
fn is_among(names: &[AstName], name: &Name) -> bool
    ensures { result ≡ list_any (λ n. bytes_eq name.now n.name) names.now }
{
    names.iter().any(|n| name.same(&n.name))
}

// At the first name that stands among those before it. It ends at the first repeat, so where all are names of k columns, it
// takes at most k + 1 turns.
fn repeated(names: &[AstName]) -> Option<Refusal>
    ensures { result ≡ first_broken (once_rules [] names.now) }
{
    let mut before = 0;
    while before < names.len() {
        let name = &names[before];
        if is_among(&names[..before], &name.name) {
            return Some(refusal(name.at, Kind::NameTwice));
        }
        before += 1;
    }
    None
}

/// The refusal of the first rule that is broken: each name is a key column's, and then none stands twice.
#[tactic(auto, using(crate::specs::RuleLaws::sequence_rules))]
pub fn agg_refusal(ty: &TableType, names: &[AstName]) -> Option<Refusal>
    ensures { result ≡ first_broken (agg_rules ty.now names.now) }
{
    match stranger(ty.keys.as_slice(), names) {
        Some(refusal) => Some(refusal),
        None => repeated(names),
    }
}
