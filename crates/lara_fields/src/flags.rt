//! Flags in one byte.
ghost use Rattle.std.specs.Prelude.{◌≡◌, ◌++◌, OnOk};
ghost use Rattle.std.specs.Option.{option_map};
ghost use Rattle.lara_fields.specs.Fields.{Gives};
ghost use Rattle.lara_fields.specs.Flags.{flag_code, flag_at};
ghost use Rattle.lara_fields.specs.Skipping.{behind};

use crate::stop::Stop;
use lara_base::Bytes;
use std::alloc::AllocError;

/// Adds a flag in one byte.
pub fn push_flag(out: &mut Bytes, flag: bool) -> Result<(), AllocError>
    ensures { OnOk result (out.new ≡ out.old ++ flag_code flag) }
{
    match flag {
        false => out.push(0),
        true => out.push(1),
    }
}

/// The flag at the front, and what is behind it.
#[tactic(auto, unfolding(crate::specs::Flags::flag_at))]
pub fn flag_at(bytes: &[u8]) -> Result<(bool, &[u8]), Stop>
    ensures { Gives (λ x. (x.0, x.1.now)) result (flag_at bytes.now) }
{
    match bytes {
        [0, rest @ ..] => Ok((false, rest)),
        [1, rest @ ..] => Ok((true, rest)),
        _ => Err(Stop::Refused { left: bytes.len() }),
    }
}

/// What is behind the flag at the front.
#[tactic(auto, unfolding(crate::specs::Flags::flag_at))]
pub fn flag_behind(bytes: &[u8]) -> Option<&[u8]>
    ensures { option_map (λ x. x.now) result ≡ behind (flag_at bytes.now) }
{
    match bytes {
        [0, rest @ ..] => Some(rest),
        [1, rest @ ..] => Some(rest),
        _ => None,
    }
}
