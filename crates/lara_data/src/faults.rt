//! Why stored cells were not read.
ghost use Rattle.std.specs.Prelude.{◌≡◌};
ghost use Rattle.lara_data.specs.declared.faults.IterFault.TheVariants as iter;
ghost use Rattle.lara_data.specs.declared.faults.FileFault.TheVariants as file;

use lara_base::FileName;
use std::alloc::{AllocError, AllocFailed};
use thiserror::Error;

/// Why an iterator over stored cells stopped. `at` is the byte of the file, counted from 0, where its grammar is broken.
#[derive(Clone, Copy, Debug, Drop, Error, PartialEq, Eq)]
pub enum IterFault {
    #[error("a file is damaged at byte {at}")]
    Damaged { file: FileName, at: u64 },
    #[error("the depot failed")]
    Depot,
    #[error("out of memory")]
    Memory,
}

/// Why bytes of a file were not read. `at` is the byte, counted from 0, where its grammar is broken.
#[derive(Clone, Copy, Debug, Drop, Error, PartialEq, Eq)]
pub enum FileFault {
    #[error("byte {at} is not in the grammar")]
    NotInGrammar { at: u64 },
    #[error("out of memory")]
    Memory,
}

impl From<AllocError> for IterFault {
    ghost from_gives = { λ _ e. e ≡ iter.Memory };

    fn from(_: AllocError) -> IterFault {
        IterFault::Memory
    }
}

impl<T: Drop> From<AllocFailed<T>> for IterFault {
    ghost from_gives = { λ _ e. e ≡ iter.Memory };

    fn from(_: AllocFailed<T>) -> IterFault {
        IterFault::Memory
    }
}

impl From<AllocError> for FileFault {
    ghost from_gives = { λ _ e. e ≡ file.Memory };

    fn from(_: AllocError) -> FileFault {
        FileFault::Memory
    }
}

impl<T: Drop> From<AllocFailed<T>> for FileFault {
    ghost from_gives = { λ _ e. e ≡ file.Memory };

    fn from(_: AllocFailed<T>) -> FileFault {
        FileFault::Memory
    }
}
