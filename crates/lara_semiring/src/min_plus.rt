//! The values of `minplus`.
ghost use Rattle.std.specs.Prelude.{◌≡◌, ◌↔◌, ◌==◌, IsTrue, IfOk, IsOk};
ghost use Rattle.lara_semiring.specs.MinPlus.{minplus_inf, minplus_is_over};
ghost use Rattle.lara_semiring.specs.MinPlusVals.{minplus, as_minplus, of_minplus};

use crate::semiring::Semiring;
use crate::value::Value;
use std::alloc::{AllocError, Global};

/// No way at all.
const INF: u64 = u64::MAX;

/// What stands for all distances beyond the range.
const OVER: u64 = u64::MAX - 1;

/// A distance of 0 to 2^64 - 3, then `over` for all beyond, which is 2^64 - 2, then `inf`, which is 2^64 - 1. The sum
/// is the lesser, and the product adds, up to `over`; with `inf` it is `inf`.
#[derive(Debug, Drop)]
pub struct MinPlusVal {
    pub number: u64,
}

impl MinPlusVal {
    /// The distance that a value is read as.
    pub(crate) fn read(value: &Value) -> MinPlusVal
        ensures { result ≡ as_minplus value.now }
    {
        match value {
            Value::MinPlus(number) => MinPlusVal { number: *number },
            _ => MinPlusVal { number: INF },
        }
    }

    /// The distance as a value.
    pub(crate) fn into_value(self) -> Value
        ensures { result ≡ of_minplus self }
    {
        Value::MinPlus(self.number)
    }
}

impl Semiring for MinPlusVal {
    ghost use Rattle.lara_semiring.specs.MinPlusVals.{IsMinPlus, IsMinPlusOver, minplus_sum, minplus_product, minplus_laws};

    ghost is_value = { IsMinPlus };

    ghost nothing = { minplus minplus_inf };

    ghost unit = { minplus 0 };

    ghost sum = { minplus_sum };

    ghost product = { minplus_product };

    ghost is_past = { IsMinPlusOver };

    ghost laws = { minplus_laws };

    fn known(&self) {
        let _number = self.number;
    }

    fn zero(_alloc: Global) -> MinPlusVal {
        MinPlusVal { number: INF }
    }

    fn one(_alloc: Global) -> MinPlusVal {
        MinPlusVal { number: 0 }
    }

    fn plus(&self, _alloc: Global, other: &MinPlusVal) -> Result<MinPlusVal, AllocError>
        ensures sum { IfOk result (λ r. r ≡ minplus_sum self.now other.now) }
        ensures exact { IsOk result }
    {
        Ok(MinPlusVal {
            number: self.number.min(other.number),
        })
    }

    fn times(&self, _alloc: Global, other: &MinPlusVal) -> Result<MinPlusVal, AllocError>
        ensures product { IfOk result (λ r. r ≡ minplus_product self.now other.now) }
        ensures exact { IsOk result }
    {
        if self.number == INF || other.number == INF {
            return Ok(MinPlusVal { number: INF });
        }
        Ok(MinPlusVal {
            number: self.number.saturating_add(other.number).min(OVER),
        })
    }

    fn is_zero(&self) -> bool
        ensures zero { IsTrue result ↔ (self.now ≡ minplus minplus_inf) }
        ensures value { result ≡ (self.now.number == minplus_inf) }
    {
        self.number == INF
    }

    fn is_over(&self) -> bool
        ensures over { IsTrue result ↔ IsMinPlusOver self.now }
        ensures value { result ≡ minplus_is_over self.now.number }
    {
        self.number == OVER
    }
}
