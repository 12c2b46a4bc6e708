//! The line and the exit status of each outcome.

use crate::report::report;
use crate::{Outcome, Room, TripleKind};
use lara_base::{FileName, List, MemSink};
use lara_data::Kind;
use std::alloc::{AllocError, Global};
use std::process::ExitCode;

// Whether this is the line of an outcome.
fn tells(alloc: Global, outcome: Outcome, want: &[u8]) -> bool {
    let mut err = MemSink::new(alloc, 7, List::new(alloc));
    report(&mut err, outcome);
    err.bytes().as_slice() == want
}

fn tells_kind(alloc: Global, kind: Kind, want: &[u8]) -> bool {
    tells(alloc, Outcome::Script { at: 5, kind }, want)
}

fn tells_triple(alloc: Global, row: u64, kind: TripleKind, want: &[u8]) -> bool {
    tells(alloc, Outcome::Triples { row, kind }, want)
}

fn tells_room(alloc: Global, what: Room, want: &[u8]) -> bool {
    tells(alloc, Outcome::Full { what }, want)
}

fn tells_damage(alloc: Global, file: FileName, at: u64, want: &[u8]) -> bool {
    tells(alloc, Outcome::Damaged { file, at }, want)
}

const KINDS: [Kind; 17] = [
    Kind::BadByte,
    Kind::BadNumber,
    Kind::BadText,
    Kind::Unexpected,
    Kind::TooLong,
    Kind::TooMany,
    Kind::NoTable,
    Kind::NoName,
    Kind::NameTwice,
    Kind::TooManyColumns,
    Kind::NotInRange,
    Kind::TypesDiffer,
    Kind::NoCommonValue,
    Kind::NotAKey,
    Kind::NotAnOrder,
    Kind::NoPlugin,
    Kind::PluginRefuses,
];

const KIND_LINES: &str = "\
lara: script byte 5: BadByte
lara: script byte 5: BadNumber
lara: script byte 5: BadText
lara: script byte 5: Unexpected
lara: script byte 5: TooLong
lara: script byte 5: TooMany
lara: script byte 5: NoTable
lara: script byte 5: NoName
lara: script byte 5: NameTwice
lara: script byte 5: TooManyColumns
lara: script byte 5: NotInRange
lara: script byte 5: TypesDiffer
lara: script byte 5: NoCommonValue
lara: script byte 5: NotAKey
lara: script byte 5: NotAnOrder
lara: script byte 5: NoPlugin
lara: script byte 5: PluginRefuses
";

#[test]
fn each_kind_has_its_line(rt: HostRuntime) {
    let mut lines = KIND_LINES.split_inclusive('\n');
    for kind in KINDS {
        let line = lines.next().unwrap_or("");
        assert!(rt; tells_kind(rt.alloc(), kind, line.as_bytes()), "{line}");
    }
    assert!(rt; lines.next().is_none());
}

#[test]
fn each_triple_kind_has_its_line(rt: HostRuntime) {
    let alloc = rt.alloc();
    assert!(rt; tells_triple(alloc, 7, TripleKind::TooLong, b"lara: row 7: TooLong\n"));
    assert!(rt;
        tells_triple(
            alloc,
            8,
            TripleKind::FieldCount,
            b"lara: row 8: FieldCount\n"
        )
    );
    assert!(rt; tells_triple(alloc, 9, TripleKind::BadNumber, b"lara: row 9: BadNumber\n"));
    assert!(rt; tells_triple(alloc, 10, TripleKind::BadFlag, b"lara: row 10: BadFlag\n"));
    assert!(rt;
        tells_triple(
            alloc,
            11,
            TripleKind::NotInRange,
            b"lara: row 11: NotInRange\n"
        )
    );
}

#[test]
fn each_room_has_its_line(rt: HostRuntime) {
    let alloc = rt.alloc();
    assert!(rt; tells_room(alloc, Room::Generation, b"lara: no room: generation\n"));
    assert!(rt; tells_room(alloc, Room::Tables, b"lara: no room: tables\n"));
    assert!(rt; tells_room(alloc, Room::Tablets, b"lara: no room: tablets\n"));
}

#[test]
fn each_damaged_file_has_its_line(rt: HostRuntime) {
    let alloc = rt.alloc();
    let cells = FileName::Cells {
        generation: 2,
        number: 5,
    };
    assert!(rt;
        tells_damage(
            alloc,
            FileName::Catalog,
            9,
            b"lara: file catalog is damaged at 9\n"
        )
    );
    assert!(rt;
        tells_damage(
            alloc,
            cells,
            18446744073709551615,
            b"lara: file cells-2-5 is damaged at 18446744073709551615\n"
        )
    );
}

#[test]
fn each_other_outcome_has_its_line(rt: HostRuntime) {
    let alloc = rt.alloc();
    assert!(rt; tells(alloc, Outcome::Done, b""));
    assert!(rt;
        tells(
            alloc,
            Outcome::Choice { index: 3 },
            b"lara: choice 3 does not apply\n"
        )
    );
    assert!(rt; tells(alloc, Outcome::DepotFault, b"lara: the depot failed\n"));
    assert!(rt; tells(alloc, Outcome::SourceFault, b"lara: the input failed\n"));
}

fn from_memory<T: From<AllocError>>() -> T {
    T::from(AllocError)
}

#[test]
fn want_of_memory_is_an_outcome(rt: HostRuntime) {
    assert_eq!(rt; from_memory::<Outcome>(), Outcome::Memory);
}

// One outcome for each status, in their order from 0 on.
const OUTCOMES: [Outcome; 12] = [
    Outcome::Done,
    Outcome::Usage { at: 9 },
    Outcome::Script {
        at: 9,
        kind: Kind::BadByte,
    },
    Outcome::Triples {
        row: 9,
        kind: TripleKind::BadFlag,
    },
    Outcome::Choice { index: 9 },
    Outcome::Range { statement: 9 },
    Outcome::Damaged {
        file: FileName::Catalog,
        at: 9,
    },
    Outcome::DepotFault,
    Outcome::SourceFault,
    Outcome::SinkFault,
    Outcome::Full { what: Room::Tables },
    Outcome::Memory,
];

#[test]
fn statuses_stand_in_their_order(rt: HostRuntime) {
    for (status, outcome) in (0..12u8).zip(OUTCOMES) {
        assert_eq!(rt; outcome.status(), status);
        assert_eq!(rt; outcome.exit_code(), ExitCode::from(status));
    }
}
