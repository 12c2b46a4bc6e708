//! The line of an outcome on the error stream, written without taking memory.
ghost use Rattle.std.specs.Prelude.{◌≡◌, ◌≤◌, ◌++◌, ◌+◌, length, decimal, codes};
ghost use Rattle.lara_base.specs.Causes.{Rose};
ghost use Rattle.lara_base.specs.Moves.{Adds, AddsFront};
ghost use Rattle.lara.specs.Lines.{line_of, kind_text, triple_text, room_text, file_text};

use crate::line::Line;
use crate::outcome::{Outcome, Room, TripleKind};
use crate::output::write_whole;
use lara_base::{FileName, Sink};
use lara_data::Kind;

fn kind_text(kind: Kind) -> &'static [u8]
    ensures text { result.now ≡ kind_text kind }
    ensures short { length result.now ≤ 20 }
{
    match kind {
        Kind::BadByte => b"BadByte",
        Kind::BadNumber => b"BadNumber",
        Kind::BadText => b"BadText",
        Kind::Unexpected => b"Unexpected",
        Kind::TooLong => b"TooLong",
        Kind::TooMany => b"TooMany",
        Kind::NoTable => b"NoTable",
        Kind::NoName => b"NoName",
        Kind::NameTwice => b"NameTwice",
        Kind::TooManyColumns => b"TooManyColumns",
        Kind::NotInRange => b"NotInRange",
        Kind::TypesDiffer => b"TypesDiffer",
        Kind::NoCommonValue => b"NoCommonValue",
        Kind::NotAKey => b"NotAKey",
        Kind::NotAnOrder => b"NotAnOrder",
        Kind::NoPlugin => b"NoPlugin",
        Kind::PluginRefuses => b"PluginRefuses",
    }
}

fn triple_text(kind: TripleKind) -> &'static [u8]
    ensures text { result.now ≡ triple_text kind }
    ensures short { length result.now ≤ 20 }
{
    match kind {
        TripleKind::TooLong => b"TooLong",
        TripleKind::FieldCount => b"FieldCount",
        TripleKind::BadNumber => b"BadNumber",
        TripleKind::BadFlag => b"BadFlag",
        TripleKind::NotInRange => b"NotInRange",
    }
}

fn room_text(what: Room) -> &'static [u8]
    ensures text { result.now ≡ room_text what }
    ensures short { length result.now ≤ 20 }
{
    match what {
        Room::Generation => b"generation",
        Room::Tables => b"tables",
        Room::Tablets => b"tablets",
    }
}

// A text, a number and a text.
fn line_with(before: &[u8], number: u64, after: &[u8]) -> Line
    requires before { length before.now ≤ 40 }
    requires after { length after.now ≤ 40 }
    ensures line { result ≡ before.now ++ decimal number ++ after.now }
    ensures short { length result ≤ length before.now + length after.now + 40 }
{
    let mut line = Line::new();
    line.push(before);
    line.number(number);
    line.push(after);
    line
}

// A text, a number and what is wrong there.
fn line_of_kind(before: &[u8], number: u64, kind: &[u8]) -> Line
    requires before { length before.now ≤ 40 }
    requires kind { length kind.now ≤ 20 }
    ensures { result ≡ before.now ++ decimal number ++ codes ": " ++ kind.now ++ codes "\n" }
{
    let mut line = line_with(before, number, b": ");
    line.push(kind);
    line.push(b"\n");
    line
}

fn line_of_text(text: &[u8]) -> Line
    requires { length text.now ≤ 160 }
    ensures { result ≡ text.now }
{
    let mut line = Line::new();
    line.push(text);
    line
}

fn line_of_room(what: Room) -> Line
    ensures { result ≡ codes "lara: no room: " ++ room_text what ++ codes "\n" }
{
    let mut line = line_of_text(b"lara: no room: ");
    line.push(room_text(what));
    line.push(b"\n");
    line
}

// The name of a file behind a word.
fn line_of_file(file: FileName) -> Line
    ensures line { result ≡ codes "lara: file " ++ file_text file }
    ensures short { length result ≤ 100 }
{
    match file {
        FileName::Catalog => line_of_text(b"lara: file catalog"),
        FileName::Cells { generation, number } => {
            let mut line = line_with(b"lara: file cells-", generation, b"-");
            line.number(number as u64);
            line
        }
    }
}

fn line_of_damage(file: FileName, at: u64) -> Line
    ensures { result ≡ codes "lara: file " ++ file_text file ++ codes " is damaged at " ++ decimal at ++ codes "\n" }
{
    let mut line = line_of_file(file);
    line.push(b" is damaged at ");
    line.number(at);
    line.push(b"\n");
    line
}

// The line of an outcome.
fn line(outcome: Outcome) -> Line
    ensures { result ≡ line_of outcome }
{
    match outcome {
        Outcome::Done => Line::new(),
        Outcome::Usage { at } => line_with(b"lara: word ", at as u64, b" is not understood\n"),
        Outcome::Script { at, kind } => {
            line_of_kind(b"lara: script byte ", at as u64, kind_text(kind))
        }
        Outcome::Triples { row, kind } => line_of_kind(b"lara: row ", row, triple_text(kind)),
        Outcome::Choice { index } => line_with(
            b"lara: choice ",
            index as u64,
            b" does not apply\n",
        ),
        Outcome::Range { statement } => {
            line_with(b"lara: statement ", statement as u64, b" is out of range\n")
        }
        Outcome::Damaged { file, at } => line_of_damage(file, at),
        Outcome::DepotFault => line_of_text(b"lara: the depot failed\n"),
        Outcome::SourceFault => line_of_text(b"lara: the input failed\n"),
        Outcome::SinkFault => line_of_text(b"lara: the output failed\n"),
        Outcome::Full { what } => line_of_room(what),
        Outcome::Memory => line_of_text(b"lara: out of memory\n"),
    }
}

/// Writes the line of an outcome. At a failure the writing stops.
pub fn report<E: Sink>(err: &mut E, outcome: Outcome)
    ensures part { AddsFront (E.held err.old) (E.held err.new) (line_of outcome) }
    ensures whole { ¬ (Rose (E.faults err.old) (E.faults err.new)) → Adds (E.held err.old) (E.held err.new) (line_of outcome) }
    ensures later { E.faults err.old ≤ E.faults err.new }
{
    let line = line(outcome);
    let _ = write_whole(err, line.bytes());
}
