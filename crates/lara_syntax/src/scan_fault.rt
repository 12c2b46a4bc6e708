//! Why a step of the scanner gives nothing.
ghost use Rattle.std.specs.Prelude.{◌≡◌};
ghost use Rattle.lara_syntax.specs.declared.scan_fault.ScanFault.TheVariants.{Memory, Bad};

use lara_data::Kind;
use std::alloc::AllocError;

/// Memory was refused, or the bytes in front are refused with this kind.
#[derive(Drop)]
pub enum ScanFault {
    Memory,
    Bad(Kind),
}

impl From<Kind> for ScanFault {
    ghost from_gives = { λ kind e. e ≡ Bad kind };

    fn from(kind: Kind) -> ScanFault {
        ScanFault::Bad(kind)
    }
}

impl From<AllocError> for ScanFault {
    ghost from_gives = { λ _ e. e ≡ Memory };

    fn from(_e: AllocError) -> ScanFault {
        ScanFault::Memory
    }
}
