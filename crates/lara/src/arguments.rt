//! The words of the command line, as the system hands them over: byte strings of no encoding.
ghost use Rattle.std.specs.Prelude.{◌≡◌, ℕ, List, Some, IfOk, slice_get, drop};

use crate::invocation::Invocation;
use lara_base::{List, Word};
use std::alloc::{AllocError, Global};
use std::env::FillError;

// The bytes of one argument, or nothing past the last.
fn argument<I: Invocation>(
    alloc: Global,
    invocation: &I,
    number: usize,
) -> Result<Option<Word>, AllocError>
    ensures { (told : List (List ℕ)) → I.arguments invocation.now ≡ Some told → IfOk result (λ word. word ≡ slice_get told number) }
{
    let mut size: usize = 256;
    // No argument of a process is as long as the last of these sizes.
    for _ in 0..40 {
        let mut buf = vec![in alloc; 0u8; size]?;
        match invocation.argument(number, &mut buf) {
            Ok(len) => {
                buf.truncate(len);
                return Ok(Some(List::from_vec(buf)));
            }
            Err(FillError::NotPresent) => return Ok(None),
            Err(FillError::TooLong) => size = size.saturating_mul(2),
        }
    }
    Err(AllocError)
}

/// One word for each argument's bytes, in order, without the program's name.
pub fn arguments<I: Invocation>(alloc: Global, invocation: &I) -> Result<List<Word>, AllocError>
    ensures { (told : List (List ℕ)) → I.arguments invocation.now ≡ Some told → IfOk result (λ words. words ≡ drop 1 told) }
{
    let mut words = List::new(alloc);
    // No process has as many arguments.
    for number in 1..usize::MAX {
        match argument(alloc, invocation, number)? {
            Some(word) => words.push(word)?,
            None => return Ok(words),
        }
    }
    Err(AllocError)
}
