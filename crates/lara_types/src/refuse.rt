//! Refusals of a script.
ghost use Rattle.std.specs.Prelude.{◌≡◌};

use lara_data::{Kind, ReadFault, Refusal};

/// The refusal of this kind at a place.
pub fn refusal(at: u32, kind: Kind) -> Refusal
    ensures { result ≡ record { at = at; kind = kind } }
{
    Refusal { at, kind }
}

/// That a script is refused so.
pub fn refused(at: u32, kind: Kind) -> ReadFault
    ensures { result ≡ ReadFault.Refused (record { at = at; kind = kind }) }
{
    ReadFault::Refused(refusal(at, kind))
}
