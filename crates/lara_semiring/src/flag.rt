//! The values of `flag`.
ghost use Rattle.std.specs.Prelude.{◌≡◌, ◌↔◌, true, false, not, IsTrue, IfOk, IsOk};
ghost use Rattle.lara_semiring.specs.FlagVals.{flag, as_flag, of_flag};

use crate::semiring::Semiring;
use crate::value::Value;
use std::alloc::{AllocError, Global};

/// A flag. The sum is `or` and the product `and`. None is `over`.
#[derive(Debug, Drop)]
pub struct FlagVal {
    pub is_set: bool,
}

impl FlagVal {
    /// The flag that a value is read as.
    pub(crate) fn read(value: &Value) -> FlagVal
        ensures { result ≡ as_flag value.now }
    {
        match value {
            Value::Flag(is_set) => FlagVal { is_set: *is_set },
            _ => FlagVal { is_set: false },
        }
    }

    /// The flag as a value.
    pub(crate) fn into_value(self) -> Value
        ensures { result ≡ of_flag self }
    {
        Value::Flag(self.is_set)
    }
}

impl Semiring for FlagVal {
    ghost use Rattle.lara_semiring.specs.FlagVals.{IsFlag, IsFlagOver, flag_sum, flag_product, flag_laws};

    ghost is_value = { IsFlag };

    ghost nothing = { flag false };

    ghost unit = { flag true };

    ghost sum = { flag_sum };

    ghost product = { flag_product };

    ghost is_past = { IsFlagOver };

    ghost laws = { flag_laws };

    fn known(&self) {}

    fn zero(_alloc: Global) -> FlagVal {
        FlagVal { is_set: false }
    }

    fn one(_alloc: Global) -> FlagVal {
        FlagVal { is_set: true }
    }

    fn plus(&self, _alloc: Global, other: &FlagVal) -> Result<FlagVal, AllocError>
        ensures sum { IfOk result (λ r. r ≡ flag_sum self.now other.now) }
        ensures exact { IsOk result }
    {
        Ok(FlagVal {
            is_set: self.is_set || other.is_set,
        })
    }

    fn times(&self, _alloc: Global, other: &FlagVal) -> Result<FlagVal, AllocError>
        ensures product { IfOk result (λ r. r ≡ flag_product self.now other.now) }
        ensures exact { IsOk result }
    {
        Ok(FlagVal {
            is_set: self.is_set && other.is_set,
        })
    }

    fn is_zero(&self) -> bool
        ensures zero { IsTrue result ↔ (self.now ≡ flag false) }
        ensures value { result ≡ not self.now.is_set }
    {
        !self.is_set
    }

    fn is_over(&self) -> bool
        ensures over { IsTrue result ↔ IsFlagOver self.now }
        ensures value { result ≡ false }
    {
        false
    }
}
