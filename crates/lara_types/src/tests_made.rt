//! What tests make where there is memory. Trees are let go in these functions, over any type: how a tree is let go is long to
//! prove, and so it is proved once for each type and not in each test.
ghost use Rattle.std.specs.Prelude.{◌<◌, length, IfOk};

use lara_base::List;
use std::alloc::{AllocError, Global};

pub fn both<A: Drop, B: Drop>(
    a: Result<A, AllocError>,
    b: Result<B, AllocError>,
) -> Result<(A, B), AllocError> {
    Ok((a?, b?))
}

/// The list of one element.
pub fn one<T: Drop>(alloc: Global, made: Result<T, AllocError>) -> Result<List<T>, AllocError>
    ensures { IfOk result (λ list. 0 < length list) }
{
    let mut list = List::new(alloc);
    list.push(made?)?;
    Ok(list)
}
