//! The values of `last`.
ghost use Rattle.std.specs.Prelude.{◌≡◌, ◌↔◌, true, false, IsTrue, IfOk, IsOk};
ghost use Rattle.lara_base.specs.Texts.{has_bytes};
ghost use Rattle.lara_base.specs.declared.text.Text.TheVariants.{Over};
ghost use Rattle.lara_semiring.specs.LastVals.{as_last};
ghost use Rattle.lara_semiring.specs.Values.{has_type};
ghost use Rattle.lara_semiring.specs.declared.value.ValType.TheVariants.{Last};
ghost use Rattle.lara_semiring.specs.Lasts.{last_zero, last_plus, last_times, last_is_zero, last_is_over};

use crate::semiring::Semiring;
use crate::value::Value;
use lara_base::{Content, Copied, Text};
use std::alloc::{AllocError, Global};

/// A text of which the later stays: the sum is the greater by bytes and the product the lesser. `over` is after all
/// texts, so it is the identity of the product.
pub type LastVal = Text;

/// The text that a value of `last` is.
#[tactic(auto, using(crate::specs::LastVals::text_is_read), unfolding(crate::specs::Values::has_type))]
pub(crate) fn last_of(value: &Value) -> &Text
    requires { has_type Last value.now ≡ true }
    ensures { result.now ≡ as_last value.now }
{
    match value {
        Value::Last(text) => text,
        _ => unreachable!(),
    }
}

impl Semiring for Text {
    ghost use Rattle.lara_semiring.specs.LastVals.{IsLast, IsLastOver, last_laws};

    ghost is_value = { IsLast };

    ghost nothing = { last_zero };

    ghost unit = { Over };

    ghost sum = { last_plus };

    ghost product = { last_times };

    ghost is_past = { IsLastOver };

    ghost laws = { last_laws };

    fn known(&self) {
        Text::known(self);
    }

    fn zero(alloc: Global) -> Text {
        Text::Within(Content::empty(alloc))
    }

    fn one(_alloc: Global) -> Text {
        Text::Over
    }

    fn plus(&self, alloc: Global, other: &Text) -> Result<Text, AllocError>
        ensures sum { IfOk result (λ r. r ≡ last_plus self.now other.now) }
        ensures exact { has_bytes (last_plus self.now other.now) ≡ false → IsOk result }
    {
        let is_later = self.cmp(other).is_gt();
        if is_later {
            self.copy(alloc)
        } else {
            other.copy(alloc)
        }
    }

    fn times(&self, alloc: Global, other: &Text) -> Result<Text, AllocError>
        ensures product { IfOk result (λ r. r ≡ last_times self.now other.now) }
        ensures exact { has_bytes (last_times self.now other.now) ≡ false → IsOk result }
    {
        if self.cmp(other).is_le() {
            self.copy(alloc)
        } else {
            other.copy(alloc)
        }
    }

    fn is_zero(&self) -> bool
        ensures zero { IsTrue result ↔ (self.now ≡ last_zero) }
        ensures value { result ≡ last_is_zero self.now }
    {
        match self {
            Text::Within(content) => content.bytes().is_empty(),
            Text::Over => false,
        }
    }

    fn is_over(&self) -> bool
        ensures over { IsTrue result ↔ IsLastOver self.now }
        ensures value { result ≡ last_is_over self.now }
    {
        matches!(self, Text::Over)
    }
}
