//! How a call ends.
ghost use Rattle.std.specs.Prelude.{◌≡◌};
ghost use Rattle.lara.specs.declared.outcome.Outcome.TheVariants.{Memory};

use lara_base::FileName;
use lara_data::Kind;
use std::alloc::AllocError;
use std::process::ExitCode;

/// How a call ends. All but `Done` have one line on the error stream, and each has its exit status.
#[derive(Clone, Copy, Debug, PartialEq, Eq)]
pub enum Outcome {
    /// The input was read to its end, and the whole text was written.
    Done,
    /// The words are not in the word grammar, from the word numbered `at` on.
    Usage { at: u32 },
    /// The script is refused at the byte `at`.
    Script { at: u32, kind: Kind },
    /// A record of triples is wrong.
    Triples { row: u64, kind: TripleKind },
    /// A choice of a rewrite rule cannot be applied.
    Choice { index: u32 },
    /// A table that the statement, counted from 1, prints or stores holds a key or a value past its range.
    Range { statement: u32 },
    /// A file is not in its grammar.
    Damaged { file: FileName, at: u64 },
    /// The stored tables could not be read or written.
    DepotFault,
    /// The input could not be read to its end.
    SourceFault,
    /// The text could not be written to its end; a front of it may have been.
    SinkFault,
    /// There is no room for what is to be stored.
    Full { what: Room },
    /// Memory was refused.
    Memory,
}

/// What is wrong with a record of triples.
#[derive(Clone, Copy, Debug, PartialEq, Eq)]
pub enum TripleKind {
    TooLong,
    FieldCount,
    BadNumber,
    BadFlag,
    NotInRange,
}

/// What has no room.
#[derive(Clone, Copy, Debug, PartialEq, Eq)]
pub enum Room {
    Generation,
    Tables,
    Tablets,
}

impl Outcome {
    ghost use Rattle.std.specs.Prelude.{◌≡◌};
    ghost use Rattle.std.specs.Process.{exit_status};
    ghost use Rattle.lara.specs.Statuses.{status_of};

    /// The exit status.
    pub fn status(self) -> u8
        ensures { result ≡ status_of self }
    {
        match self {
            Outcome::Done => 0,
            Outcome::Usage { .. } => 1,
            Outcome::Script { .. } => 2,
            Outcome::Triples { .. } => 3,
            Outcome::Choice { .. } => 4,
            Outcome::Range { .. } => 5,
            Outcome::Damaged { .. } => 6,
            Outcome::DepotFault => 7,
            Outcome::SourceFault => 8,
            Outcome::SinkFault => 9,
            Outcome::Full { .. } => 10,
            Outcome::Memory => 11,
        }
    }

    /// What a process ends with that has this outcome.
    pub fn exit_code(self) -> ExitCode
        ensures { exit_status result ≡ status_of self }
    {
        ExitCode::from(self.status())
    }
}

impl From<AllocError> for Outcome {
    ghost from_gives = { λ _ o. o ≡ Memory };

    fn from(_: AllocError) -> Outcome {
        Outcome::Memory
    }
}
