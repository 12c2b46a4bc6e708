//! The values of `maxmin`.
ghost use Rattle.std.specs.Prelude.{◌≡◌, ◌↔◌, ◌==◌, IsTrue, IfOk, IsOk};
ghost use Rattle.lara_semiring.specs.MaxMin.{maxmin_over, maxmin_is_over};
ghost use Rattle.lara_semiring.specs.MaxMinVals.{maxmin, as_maxmin, of_maxmin};

use crate::semiring::Semiring;
use crate::value::Value;
use std::alloc::{AllocError, Global};

/// A width of 0 to 2^64 - 2, or `over` for all beyond, which is 2^64 - 1. The sum is the greater and the product the
/// lesser, so that `over` is the identity of the product.
#[derive(Debug, Drop)]
pub struct MaxMinVal {
    pub number: u64,
}

impl MaxMinVal {
    /// The width that a value is read as.
    pub(crate) fn read(value: &Value) -> MaxMinVal
        ensures { result ≡ as_maxmin value.now }
    {
        match value {
            Value::MaxMin(number) => MaxMinVal { number: *number },
            _ => MaxMinVal { number: 0 },
        }
    }

    /// The width as a value.
    pub(crate) fn into_value(self) -> Value
        ensures { result ≡ of_maxmin self }
    {
        Value::MaxMin(self.number)
    }
}

impl Semiring for MaxMinVal {
    ghost use Rattle.lara_semiring.specs.MaxMinVals.{IsMaxMin, IsMaxMinOver, maxmin_sum, maxmin_product, maxmin_laws};

    ghost is_value = { IsMaxMin };

    ghost nothing = { maxmin 0 };

    ghost unit = { maxmin maxmin_over };

    ghost sum = { maxmin_sum };

    ghost product = { maxmin_product };

    ghost is_past = { IsMaxMinOver };

    ghost laws = { maxmin_laws };

    fn known(&self) {
        let _number = self.number;
    }

    fn zero(_alloc: Global) -> MaxMinVal {
        MaxMinVal { number: 0 }
    }

    fn one(_alloc: Global) -> MaxMinVal {
        MaxMinVal { number: u64::MAX }
    }

    fn plus(&self, _alloc: Global, other: &MaxMinVal) -> Result<MaxMinVal, AllocError>
        ensures sum { IfOk result (λ r. r ≡ maxmin_sum self.now other.now) }
        ensures exact { IsOk result }
    {
        Ok(MaxMinVal {
            number: self.number.max(other.number),
        })
    }

    fn times(&self, _alloc: Global, other: &MaxMinVal) -> Result<MaxMinVal, AllocError>
        ensures product { IfOk result (λ r. r ≡ maxmin_product self.now other.now) }
        ensures exact { IsOk result }
    {
        Ok(MaxMinVal {
            number: self.number.min(other.number),
        })
    }

    fn is_zero(&self) -> bool
        ensures zero { IsTrue result ↔ (self.now ≡ maxmin 0) }
        ensures value { result ≡ (self.now.number == 0) }
    {
        self.number == 0
    }

    fn is_over(&self) -> bool
        ensures over { IsTrue result ↔ IsMaxMinOver self.now }
        ensures value { result ≡ maxmin_is_over self.now.number }
    {
        self.number == u64::MAX
    }
}
