//! The script, read to its end.
ghost use Rattle.std.specs.Prelude.{◌≡◌, ◌≤◌, ◌<◌, ◌+◌, ◌^◌, ℕ, List, length, take, Some, Ok, IfOk, IfErr, OnOk, OnErr, IsErrOf};
ghost use Rattle.std.specs.Io.KnownBytes.{IsAtEnd};
ghost use Rattle.lara_base.specs.Causes.{HasCause, Rose};
ghost use Rattle.lara_base.specs.Moves.{Takes, ReadsWithin};
ghost use Rattle.lara.specs.Commands.{Told, CanCome, most_read, script_limit, within};
ghost use Rattle.lara.specs.Endings.{Gives, Caused, source_shows};
ghost use Rattle.lara.specs.declared.words.Command.TheVariants.{Run};
ghost use Rattle.lara.specs.declared.input.InputFault.TheVariants.{Memory};

use crate::outcome::Outcome;
use lara_base::{Bytes, List, Source};
use lara_data::Kind;
use std::alloc::{AllocError, Global};
use thiserror::Error;

/// The most bytes that a script may have.
const LIMIT: u32 = 1_048_576;

/// Why the input was not read.
#[derive(Clone, Copy, Debug, Drop, Error, PartialEq, Eq)]
enum InputFault {
    #[error("the input failed")]
    Source,
    #[error("out of memory")]
    Memory,
}

impl From<AllocError> for InputFault {
    ghost from_gives = { λ _ e. e ≡ Memory };

    fn from(_: AllocError) -> InputFault {
        InputFault::Memory
    }
}

// All the bytes of a source, or one more than the limit.
fn read_within<S: Source>(alloc: Global, input: &mut S, limit: u32) -> Result<Bytes, InputFault>
    ensures most { ReadsWithin (S.left input.old) (S.left input.new) (limit + 1) }
    ensures bytes { IfOk result (Takes (S.left input.old) (S.left input.new)) }
    ensures short { IfOk result (λ v. length v ≤ limit + 1) }
    ensures end { IfOk result (λ v. length v ≤ limit → IsAtEnd (S.left input.new)) }
    ensures told { (xs : List ℕ) → S.left input.old ≡ Some xs → IfOk result (λ v. v ≡ take (limit + 1) xs) }
    ensures later { S.faults input.old ≤ S.faults input.new }
    ensures failed { IsErrOf result InputFault.Source → Rose (S.faults input.old) (S.faults input.new) }
{
    let mut bytes = List::new(alloc);
    let mut buf = [0; 4096];
    let most = limit as usize + 1;
    while bytes.len() < most {
        let room = (most - bytes.len()).min(4096);
        let Ok(count) = input.read(&mut buf[..room]) else {
            return Err(InputFault::Source);
        };
        if count == 0 {
            break;
        }
        bytes.extend_from_slice(&buf[..count])?;
    }
    Ok(bytes)
}

/// The bytes of a script: the whole input, which is refused past 1,048,576 bytes. Reading stops one byte past the limit.
pub fn script_bytes<S: Source>(alloc: Global, input: &mut S) -> Result<Bytes, Outcome>
    ensures gives { Told (Unit {0}) (S.left input.old) (λ bytes. Gives (λ v. v) (source_shows (Rose (S.faults input.old) (S.faults input.new))) (within Run bytes) result) }
    ensures most { ReadsWithin (S.left input.old) (S.left input.new) (most_read (Ok Run)) }
    ensures short { IfOk result (λ v. length v ≤ script_limit) }
    ensures end { OnOk result (IsAtEnd (S.left input.new)) }
    ensures cause { IfErr result (Caused (source_shows (Rose (S.faults input.old) (S.faults input.new)))) }
    ensures can { IfErr result (CanCome (Ok Run)) }
    ensures later { S.faults input.old ≤ S.faults input.new }
{
    match read_within(alloc, input, LIMIT) {
        Ok(script) => {
            if script.len() > LIMIT as usize {
                return Err(Outcome::Script {
                    at: LIMIT,
                    kind: Kind::TooLong,
                });
            }
            Ok(script)
        }
        Err(InputFault::Source) => Err(Outcome::SourceFault),
        Err(InputFault::Memory) => Err(Outcome::Memory),
    }
}
