//! Why the words of a script were not read.
ghost use Rattle.std.specs.Prelude.{◌≡◌};
ghost use Rattle.lara_syntax.specs.declared.fault.Fault.TheVariants.{Memory, Stopped};

use lara_data::Kind;
use std::alloc::AllocError;

/// A word that cannot stand where it does, by how many words are left from it on. 0 is the end of the script.
#[derive(Clone, Copy)]
pub struct Stop {
    pub left: usize,
    pub kind: Kind,
}

/// Why a rule gives nothing: memory was refused, or a word cannot stand where it does.
#[derive(Drop)]
pub enum Fault {
    Memory,
    Stopped(Stop),
}

impl From<Stop> for Fault {
    ghost from_gives = { λ stop e. e ≡ Stopped stop };

    fn from(stop: Stop) -> Fault {
        Fault::Stopped(stop)
    }
}

impl From<AllocError> for Fault {
    ghost from_gives = { λ _ e. e ≡ Memory };

    fn from(_e: AllocError) -> Fault {
        Fault::Memory
    }
}
