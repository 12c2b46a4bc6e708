//! The order of keys: column by column, and a key before its extensions.
ghost use Rattle.std.specs.Prelude.{◌≡◌, ◌↔◌};
ghost use Rattle.std.specs.declared.cmp.Ordering.TheVariants.{Less, Equal, Greater};
ghost use Rattle.lara_key.specs.Keys.{tuple_cmp};
ghost use Rattle.lara_key.specs.Precedence.{IsBefore};

use crate::key::{KeyVal, Tuple};
use std::cmp::Ordering;

impl PartialEq for KeyVal {
    ghost use Rattle.std.specs.Ordering.{eq_by_cmp};
    ghost use Rattle.std.specs.Cmp.{eq_by_cmp_equiv, partial_equiv_from_equiv};
    ghost use Rattle.lara_key.specs.Keys.{key_cmp, key_cmp_total};

    ghost eq = { eq_by_cmp key_cmp };

    ghost laws = { partial_equiv_from_equiv (eq_by_cmp_equiv key_cmp_total) };

    fn eq(&self, other: &KeyVal) -> bool {
        self.cmp(other).is_eq()
    }
}

impl Eq for KeyVal {
    ghost use Rattle.std.specs.Cmp.{eq_by_cmp_equiv};
    ghost use Rattle.lara_key.specs.Keys.{key_cmp_total};

    ghost laws = { eq_by_cmp_equiv key_cmp_total };
}

impl PartialOrd for KeyVal {
    ghost use Rattle.std.specs.Prelude.{refl};
    ghost use Rattle.std.specs.Ordering.{as_partial_cmp};
    ghost use Rattle.std.specs.Cmp.{partial_order_from_agreeing_total};
    ghost use Rattle.lara_key.specs.Keys.{key_cmp, key_cmp_total};

    ghost partial_cmp = { as_partial_cmp key_cmp };

    ghost laws = { partial_order_from_agreeing_total key_cmp key_cmp_total (λ x y. refl) (λ x y. refl) };

    fn partial_cmp(&self, other: &KeyVal) -> Option<Ordering> {
        Some(self.cmp(other))
    }
}

impl Ord for KeyVal {
    ghost use Rattle.std.specs.Prelude.{refl};
    ghost use Rattle.lara_key.specs.Keys.{key_cmp, key_cmp_total};

    ghost cmp = { key_cmp };

    ghost total = { key_cmp_total };

    ghost matches_partial_cmp = { λ x y. refl };

    ghost matches_eq = { λ x y. refl };

    fn cmp(&self, other: &KeyVal) -> Ordering {
        match (self, other) {
            (KeyVal::Nat(a), KeyVal::Nat(b)) => a.cmp(b),
            (KeyVal::Text(a), KeyVal::Text(b)) => a.cmp(b),
            (KeyVal::Flag(a), KeyVal::Flag(b)) => a.cmp(b),
            (KeyVal::Nat(_), _) => Ordering::Less,
            (_, KeyVal::Nat(_)) => Ordering::Greater,
            (KeyVal::Text(_), KeyVal::Flag(_)) => Ordering::Less,
            (KeyVal::Flag(_), KeyVal::Text(_)) => Ordering::Greater,
        }
    }
}

/// How two keys compare, whatever their types: by the first column where they differ, and a key before its extensions.
#[tactic(auto, using(crate::specs::Precedence::tuple_answers), unfolding(crate::specs::Keys::tuple_cmp))]
pub fn compare(a: &Tuple, b: &Tuple) -> Ordering
    ensures exact { result ≡ tuple_cmp a.now b.now }
    ensures less { (result ≡ Less) ↔ IsBefore a.now b.now }
    ensures equal { (result ≡ Equal) ↔ (a.now ≡ b.now) }
    ensures greater { (result ≡ Greater) ↔ IsBefore b.now a.now }
{
    a.cmp(b)
}
