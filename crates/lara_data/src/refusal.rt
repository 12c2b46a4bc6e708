//! Why a script is refused, and where.
ghost use Rattle.std.specs.Prelude.{◌≡◌};
ghost use Rattle.lara_data.specs.declared.refusal.ReadFault.TheVariants.{Memory};

use std::alloc::{AllocError, AllocFailed};
use thiserror::Error;

/// What is wrong with a script. The first six come from its words, the others from its types.
#[derive(Clone, Copy, Debug, PartialEq, Eq)]
pub enum Kind {
    BadByte,
    BadNumber,
    BadText,
    Unexpected,
    TooLong,
    TooMany,
    NoTable,
    NoName,
    NameTwice,
    TooManyColumns,
    NotInRange,
    TypesDiffer,
    NoCommonValue,
    NotAKey,
    NotAnOrder,
    NoPlugin,
    PluginRefuses,
}

/// The place of a refusal, a byte of the script counted from 0, and its kind.
#[derive(Clone, Copy, Debug, PartialEq, Eq)]
pub struct Refusal {
    pub at: u32,
    pub kind: Kind,
}

/// Why a script was not read.
#[derive(Clone, Copy, Debug, Drop, Error, PartialEq, Eq)]
pub enum ReadFault {
    #[error("byte {}: {:?}", .0.at, .0.kind)]
    Refused(Refusal),
    #[error("out of memory")]
    Memory,
}

impl From<AllocError> for ReadFault {
    ghost from_gives = { λ _ e. e ≡ Memory };

    fn from(_: AllocError) -> ReadFault {
        ReadFault::Memory
    }
}

impl<T: Drop> From<AllocFailed<T>> for ReadFault {
    ghost from_gives = { λ _ e. e ≡ Memory };

    fn from(_: AllocFailed<T>) -> ReadFault {
        ReadFault::Memory
    }
}
