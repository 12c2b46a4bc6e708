//! The types of cells, without names.
ghost use Rattle.std.specs.Prelude.{◌≡◌, [], IfOk, IsOk};

use lara_base::{Copied, List};
use lara_key::KeyType;
use lara_semiring::ValType;
use std::alloc::{AllocError, Global};

/// The types of the columns of a cell, keys and values each in their sequence.
#[derive(Drop)]
pub struct Shape {
    pub keys: List<KeyType>,
    pub vals: List<ValType>,
}

/// The places of a common value column on both sides of a join, counted from 0.
#[derive(Clone, Copy, Debug, PartialEq, Eq)]
pub struct ColPair {
    pub left: u32,
    pub right: u32,
}

/// The shapes of both sides of a join, how many key columns they have in common, and the places of their common value
/// columns in left order. Who makes one puts the common key columns first on both sides; the type does not see to it.
#[derive(Drop)]
pub struct JoinShape {
    pub left: Shape,
    pub right: Shape,
    pub common: u32,
    pub pairs: List<ColPair>,
}

impl Copied for Shape {
    fn copy(&self, alloc: Global) -> Result<Shape, AllocError>
        ensures same { IfOk result (λ r. r ≡ self.now) }
        ensures empty { self.now.keys ≡ [] → self.now.vals ≡ [] → IsOk result }
    {
        Ok(Shape {
            keys: self.keys.copy(alloc)?,
            vals: self.vals.copy(alloc)?,
        })
    }
}

impl Copied for ColPair {
    fn copy(&self, _alloc: Global) -> Result<ColPair, AllocError>
        ensures same { IfOk result (λ r. r ≡ self.now) }
        ensures exact { IsOk result }
    {
        Ok(*self)
    }
}

impl Copied for JoinShape {
    fn copy(&self, alloc: Global) -> Result<JoinShape, AllocError> {
        Ok(JoinShape {
            left: self.left.copy(alloc)?,
            right: self.right.copy(alloc)?,
            common: self.common,
            pairs: self.pairs.copy(alloc)?,
        })
    }
}
