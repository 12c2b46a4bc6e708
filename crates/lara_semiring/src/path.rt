//! The values of `path`.
ghost use Rattle.std.specs.Prelude.{◌≡◌, ◌↔◌, [], true, false, IsTrue, IfOk, IsOk};
ghost use Rattle.lara_semiring.specs.Paths.{path_cmp, path_plus, path_times, path_has_bytes, path_is_absent, path_is_over};
ghost use Rattle.lara_semiring.specs.PathVals.{as_path};
ghost use Rattle.lara_semiring.specs.Values.{has_type};
ghost use Rattle.lara_semiring.specs.declared.value.ValType.TheVariants.{Path};
ghost use Rattle.lara_semiring.specs.declared.path.PathText.TheVariants.{Within, Over, Absent};

use crate::semiring::Semiring;
use crate::value::Value;
use lara_base::{Content, Copied};
use std::alloc::{AllocError, Global};
use std::cmp::Ordering;

/// A text, what stands for every longer one, or no path at all.
#[derive(Drop)]
pub enum PathText {
    Within(Content),
    Over,
    Absent,
}

/// A path of which the least stays: the sum is the lesser, by length and then by bytes, and the product puts one text
/// behind the other.
pub type PathVal = PathText;

/// The path that a value of `path` is.
#[tactic(auto, using(crate::specs::PathVals::path_is_read), unfolding(crate::specs::Values::has_type))]
pub(crate) fn path_of(value: &Value) -> &PathText
    requires { has_type Path value.now ≡ true }
    ensures { result.now ≡ as_path value.now }
{
    match value {
        Value::Path(path) => path,
        _ => unreachable!(),
    }
}

impl PathText {
    /// How two paths compare: texts by their lengths and then by their bytes, then `Over`, then `Absent`.
    pub fn compare(&self, other: &PathText) -> Ordering
        ensures { result ≡ path_cmp self.now other.now }
    {
        match (self, other) {
            (PathText::Within(a), PathText::Within(b)) => a.compare_lengths_first(b),
            (PathText::Within(_), _) => Ordering::Less,
            (_, PathText::Within(_)) => Ordering::Greater,
            (PathText::Over, PathText::Absent) => Ordering::Less,
            (PathText::Absent, PathText::Over) => Ordering::Greater,
            _ => Ordering::Equal,
        }
    }
}

impl Copied for PathText {
    fn copy(&self, alloc: Global) -> Result<PathText, AllocError>
        ensures same { IfOk result (λ r. r ≡ self.now) }
        ensures exact { path_has_bytes self.now ≡ false → IsOk result }
    {
        match self {
            PathText::Within(content) => Ok(PathText::Within(content.copy(alloc)?)),
            PathText::Over => Ok(PathText::Over),
            PathText::Absent => Ok(PathText::Absent),
        }
    }
}

impl Semiring for PathText {
    ghost use Rattle.lara_semiring.specs.PathVals.{IsPath, IsPathOver, path_laws};

    ghost is_value = { IsPath };

    ghost nothing = { Absent };

    ghost unit = { Within [] };

    ghost sum = { path_plus };

    ghost product = { path_times };

    ghost is_past = { IsPathOver };

    ghost laws = { path_laws };

    fn known(&self) {
        if let PathText::Within(content) = self {
            content.known();
        }
    }

    fn zero(_alloc: Global) -> PathText {
        PathText::Absent
    }

    fn one(alloc: Global) -> PathText {
        PathText::Within(Content::empty(alloc))
    }

    fn plus(&self, alloc: Global, other: &PathText) -> Result<PathText, AllocError>
        ensures sum { IfOk result (λ r. r ≡ path_plus self.now other.now) }
        ensures exact { path_has_bytes (path_plus self.now other.now) ≡ false → IsOk result }
    {
        if self.compare(other).is_le() {
            self.copy(alloc)
        } else {
            other.copy(alloc)
        }
    }

    fn times(&self, alloc: Global, other: &PathText) -> Result<PathText, AllocError>
        ensures product { IfOk result (λ r. r ≡ path_times self.now other.now) }
        ensures over { path_times self.now other.now ≡ Over → IsOk result }
        ensures absent { path_times self.now other.now ≡ Absent → IsOk result }
    {
        match (self, other) {
            (PathText::Absent, _) | (_, PathText::Absent) => Ok(PathText::Absent),
            (PathText::Within(a), PathText::Within(b)) => match a.concat(alloc, b)? {
                Some(content) => Ok(PathText::Within(content)),
                None => Ok(PathText::Over),
            },
            _ => Ok(PathText::Over),
        }
    }

    fn is_zero(&self) -> bool
        ensures zero { IsTrue result ↔ (self.now ≡ Absent) }
        ensures value { result ≡ path_is_absent self.now }
    {
        matches!(self, PathText::Absent)
    }

    fn is_over(&self) -> bool
        ensures over { IsTrue result ↔ IsPathOver self.now }
        ensures value { result ≡ path_is_over self.now }
    {
        matches!(self, PathText::Over)
    }
}
