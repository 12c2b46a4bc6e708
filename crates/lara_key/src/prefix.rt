//! The byte strings that begin with a prefix.
ghost use Rattle.std.specs.Prelude.{◌≡◌, ◌<◌, ◌≤◌, ◌-◌, None, true, IfOk, IsOk, length, take, slice_index};
ghost use Rattle.lara_key.specs.Prefixes.{IsRangeOf, Raises, are_full, prefix_bound};

use lara_base::{Bytes, List};
use std::alloc::{AllocError, Global};

/// How many bytes there are up to and with the last that is not FF.
#[tactic(auto, using(crate::proofs::BoundFacts::bound_facts))]
fn kept_len(prefix: &[u8]) -> usize
    ensures within { result ≤ length prefix.now }
    ensures same { prefix_bound (take result prefix.now) ≡ prefix_bound prefix.now }
    ensures last { 0 < result → slice_index prefix.now (result - 1) < 255 }
{
    let mut count = prefix.len();
    while count > 0 && prefix[count - 1] == 255 {
        count -= 1;
    }
    count
}

/// The prefix up to its last byte that is not FF, and that raised by one.
#[tactic(auto, using(crate::proofs::BoundFacts::bound_facts))]
fn bound_of(alloc: Global, prefix: &[u8]) -> Result<Option<Bytes>, AllocError>
    ensures bound { IfOk result (λ bound. bound ≡ prefix_bound prefix.now) }
    ensures none { prefix_bound prefix.now ≡ None → IsOk result }
{
    let count = kept_len(prefix);
    if count == 0 {
        return Ok(None);
    }
    let mut bound = List::from_slice(alloc, &prefix[..count - 1])?;
    bound.push(prefix[count - 1] + 1)?;
    Ok(Some(bound))
}

/// The first byte string that is after all that begin with the prefix: the prefix without its trailing bytes FF, its then last
/// byte raised by one. There is none where every byte is FF.
#[tactic(auto, using(crate::specs::Prefixes::prefix_laws))]
pub fn after_prefix(alloc: Global, prefix: &[u8]) -> Result<Option<Bytes>, AllocError>
    ensures value { IfOk result (λ bound. bound ≡ prefix_bound prefix.now) }
    ensures raised { IfOk result (λ bound. Raises prefix.now bound) }
    ensures none { are_full prefix.now ≡ true → IsOk result }
    ensures range { IfOk result (λ bound. IsRangeOf prefix.now bound) }
{
    bound_of(alloc, prefix)
}
