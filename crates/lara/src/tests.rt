//! Whole calls over the forms in memory: worked examples with their exact bytes, and every call of a device failing.
ghost use Rattle.std.specs.Prelude.{◌≤◌};

use crate::lara;
use lara_base::{Bytes, List, MemSink, MemSource, Word};
use lara_data::Plugin;
use std::alloc::{AllocError, Global};
use std::test::Fail;

/// The numbers of the calls that fail, for the source and the two sinks.
#[derive(Clone, Copy)]
pub struct Fails {
    pub input: u64,
    pub out: u64,
    pub err: u64,
}

/// No call has the number 0.
pub const NONE: Fails = Fails {
    input: 0,
    out: 0,
    err: 0,
};

/// A call: its words, its script, and what stands on `out` and on `err` after it.
#[derive(Clone, Copy)]
pub struct Case<'a> {
    pub words: &'a [&'a [u8]],
    pub script: &'a [u8],
    pub out: &'a [u8],
    pub err: &'a [u8],
}

/// The words of these bytes.
pub fn words_of(alloc: Global, words: &[&[u8]]) -> Result<List<Word>, AllocError> {
    let mut list = List::new(alloc);
    for word in words {
        list.push(List::from_slice(alloc, word)?)?;
    }
    Ok(list)
}

/// A source of these bytes, whose call of that number fails.
pub fn source(alloc: Global, bytes: &[u8], piece: u32, fails: u64) -> Result<MemSource, AllocError>
    requires { 1 ≤ piece }
{
    let bytes: Bytes = List::from_slice(alloc, bytes)?;
    let fails = List::from_slice(alloc, &[fails])?;
    Ok(MemSource::new(bytes, piece, fails))
}

/// A sink whose call of that number fails.
pub fn sink(alloc: Global, piece: u32, fails: u64) -> Result<MemSink, AllocError>
    requires { 1 ≤ piece }
{
    let fails = List::from_slice(alloc, &[fails])?;
    Ok(MemSink::new(alloc, piece, fails))
}

/// Whether this stands on a sink.
pub fn is_held(sink: &MemSink, want: &[u8]) -> bool {
    sink.bytes().as_slice() == want
}

/// The exit status of a call over the forms in memory, which move at most `piece` bytes at a time; or none where
/// something else stands on `out` or on `err` after it.
pub fn status_with(
    alloc: Global,
    case: &Case<'_>,
    piece: u32,
    fails: &Fails,
    plugins: &Vec<Box<dyn Plugin>>,
) -> Result<Option<u8>, AllocError>
    requires { 1 ≤ piece }
{
    let words = words_of(alloc, case.words)?;
    let mut input = source(alloc, case.script, piece, fails.input)?;
    let mut out = sink(alloc, piece, fails.out)?;
    let mut err = sink(alloc, piece, fails.err)?;
    let outcome = lara(alloc, &words, &mut input, &mut out, &mut err, plugins);
    if is_held(&out, case.out) && is_held(&err, case.err) {
        Ok(Some(outcome.status()))
    } else {
        Ok(None)
    }
}

/// The same without plugins.
pub fn status(
    alloc: Global,
    case: &Case<'_>,
    piece: u32,
    fails: &Fails,
) -> Result<Option<u8>, AllocError>
    requires { 1 ≤ piece }
{
    status_with(alloc, case, piece, fails, &Vec::new(alloc))
}

// Whether a call ends with this status, in whatever pieces is read and written.
fn ends(alloc: Global, case: &Case<'_>, want: u8) -> Result<bool, AllocError> {
    for piece in [1, 3, 64, 4096] {
        if status(alloc, case, piece, &NONE)? != Some(want) {
            return Ok(false);
        }
    }
    Ok(true)
}

/// Whether a script is run and prints this.
pub fn prints(alloc: Global, script: &[u8], out: &[u8]) -> Result<bool, AllocError> {
    let case = Case {
        words: &[b"run"],
        script,
        out,
        err: b"",
    };
    ends(alloc, &case, 0)
}

/// Whether a script is refused with this line.
pub fn refuses(alloc: Global, script: &[u8], err: &[u8]) -> Result<bool, AllocError> {
    let case = Case {
        words: &[b"run"],
        script,
        out: b"",
        err,
    };
    ends(alloc, &case, 2)
}

/// How many rows of a table print what they say, up to the first that does not. A row ends with a tilde, and has the
/// script and what it prints, with a bar between.
pub fn printing_rows(alloc: Global, rows: &str) -> Result<u32, AllocError> {
    let mut number = 0u32;
    for row in rows.split_terminator('~') {
        let Some((script, out)) = row.split_once('|') else {
            break;
        };
        if !prints(alloc, script.as_bytes(), out.as_bytes())? {
            break;
        }
        number = number.saturating_add(1);
    }
    Ok(number)
}

/// How many rows of a table are refused as they say, up to the first that is not. A row is a line, and has the script
/// and its line on the error stream, with a bar between.
pub fn refused_rows(alloc: Global, rows: &str) -> Result<u32, AllocError> {
    let mut number = 0u32;
    for row in rows.split_inclusive('\n') {
        let Some((script, err)) = row.split_once('|') else {
            break;
        };
        if !refuses(alloc, script.as_bytes(), err.as_bytes())? {
            break;
        }
        number = number.saturating_add(1);
    }
    Ok(number)
}

// In order: nothing, a repeated key, a zero sum, the greatest count, two orders, no key columns, and two tables of one
// name.
const PRINTING: &str = "|~\
T = table [i: nat : v: count] { 1 : 3; 1 : 4 }; print T by i;|T[i: nat : v: count]
1:7
end 1
~\
T = table [i: nat : v: count] { 1 : 0 }; print T by i;|T[i: nat : v: count]
end 0
~\
T = table [i: nat : v: count] { 1 : 18446744073709551614 }; print T;|T[i: nat : v: count]
1:18446744073709551614
end 1
~\
A = table [i: nat, k: nat : v: count] { 1,1:2; 1,2:3; 0,2:5 };
# two orders
print A; print A by k, i;|A[i: nat, k: nat : v: count]
0,2:5
1,1:2
1,2:3
end 3
A[k: nat, i: nat : v: count]
1,1:2
2,0:5
2,1:3
end 3
~\
S = table [: v: count, w: count] { :1,0; :2,5; }; print S;|S[: v: count, w: count]
:3,5
end 1
~\
T = table [i: nat : v: count] { 1 : 1 }; T = table [: w: count] {}; print T by;|T[: w: count]
end 0
~";

#[test]
fn scripts_print_their_tables(rt: HostRuntime) -> Result<(), Fail> {
    assert_eq!(rt; printing_rows(rt.alloc(), PRINTING)?, 7);
    Ok(())
}

// Words, then tokens, then types.
const REFUSED: &str = "\
print T;|lara: script byte 6: NoName
T = |lara: script byte 4: Unexpected
T|lara: script byte 1: Unexpected
;|lara: script byte 0: Unexpected
print|lara: script byte 5: Unexpected
print table;|lara: script byte 6: Unexpected
T = table [i: count : v: count] {};|lara: script byte 14: Unexpected
T = table [i: nat] {};|lara: script byte 17: Unexpected
T = table [i: nat : v: nat] {};|lara: script byte 23: Unexpected
T = table [: v: count] { ;:1 };|lara: script byte 25: Unexpected
T = table [: v: count] { :1;; };|lara: script byte 28: Unexpected
T = table [: v: count] { : };|lara: script byte 27: Unexpected
T = table [: v: count] {} print T;|lara: script byte 26: Unexpected
T == table|lara: script byte 2: Unexpected
print T by i,;|lara: script byte 13: Unexpected
store T as S;|lara: script byte 0: Unexpected
T = ! ;|lara: script byte 4: BadByte
print T; $|lara: script byte 9: BadByte
print 12a;|lara: script byte 6: BadNumber
T = table [: v: count] { :18446744073709551616 };|lara: script byte 26: BadNumber
T = \"a\x7f\";|lara: script byte 4: BadText
T = \"a\\x4\";|lara: script byte 4: BadText
T = \"a|lara: script byte 4: BadText
T = \"a\";|lara: script byte 4: Unexpected
T = table [i: nat, i: nat : v: count] {};|lara: script byte 19: NameTwice
T = table [i: nat : i: count] {};|lara: script byte 20: NameTwice
T = table [: a: count, b: count, c: count, d: count, e: count, f: count, g: count, h: count, i: count] {};|lara: script byte 4: TooManyColumns
T = table [i: nat : v: count] { 1:1; 2,3:1 };|lara: script byte 37: TypesDiffer
T = table [i: nat : v: count] { :1 };|lara: script byte 32: TypesDiffer
T = table [i: nat : v: count] { 1:1,2 };|lara: script byte 32: TypesDiffer
T = table [i: nat : v: count] { 1:18446744073709551615 };|lara: script byte 34: NotInRange
T = table [i: nat : v: count] { 18446744073709551615:1 };|lara: script byte 32: NotInRange
T = table [i: nat : v: count] {}; print T by;|lara: script byte 42: NotAnOrder
T = table [i: nat, j: nat : v: count] {}; print T by i, i;|lara: script byte 50: NotAnOrder
T = table [i: nat : v: count] {}; print T by v;|lara: script byte 42: NotAnOrder
print U by i; T = table [i: nat, i: nat : v: count] {};|lara: script byte 6: NoName
";

#[test]
fn broken_scripts_are_refused_at_their_place(rt: HostRuntime) -> Result<(), Fail> {
    assert_eq!(rt; refused_rows(rt.alloc(), REFUSED)?, 36);
    Ok(())
}

const REPEATED: &[u8] = b"T = table [i: nat : v: count] { 1 : 3; 1 : 4 }; print T by i;";

const REPEATED_TEXT: &[u8] = b"T[i: nat : v: count]\n1:7\nend 1\n";

const NO_WORD: &[u8] = b"lara: word 0 is not understood\n";

// Whether these words are refused with this line.
fn is_usage(alloc: Global, words: &[&[u8]], err: &[u8]) -> Result<bool, AllocError> {
    let case = Case {
        words,
        script: REPEATED,
        out: b"",
        err,
    };
    ends(alloc, &case, 1)
}

#[test]
fn wrong_words_end_with_their_line(rt: HostRuntime) -> Result<(), Fail> {
    let alloc = rt.alloc();
    assert!(rt; is_usage(alloc, &[], NO_WORD)?);
    assert!(rt; is_usage(alloc, &[b"walk"], NO_WORD)?);
    assert!(rt;
        is_usage(
            alloc,
            &[b"run", b"\xff"],
            b"lara: word 1 is not understood\n"
        )?
    );
    Ok(())
}

/// Whether a script prints nothing, since what this statement prints is out of range.
pub fn is_past_range(alloc: Global, script: &[u8], err: &[u8]) -> Result<bool, AllocError> {
    let case = Case {
        words: &[b"run"],
        script,
        out: b"",
        err,
    };
    ends(alloc, &case, 5)
}

#[test]
fn a_sum_past_the_range_ends_with_its_line(rt: HostRuntime) -> Result<(), Fail> {
    let script =
        b"T = table [i: nat : v: count] { 1 : 9223372036854775808; 1 : 9223372036854775808 }; print T;";
    let err = b"lara: statement 2 is out of range\n";
    assert!(rt; is_past_range(rt.alloc(), script, err)?);
    Ok(())
}

// The call over the repeated key, byte by byte, with what stands on `out` and on `err` after it.
fn repeated_status(
    alloc: Global,
    out: &[u8],
    err: &[u8],
    fails: &Fails,
) -> Result<Option<u8>, AllocError> {
    let case = Case {
        words: &[b"run"],
        script: REPEATED,
        out,
        err,
    };
    status(alloc, &case, 1, fails)
}

// Whether a failing read ends the call: the script has 61 bytes, so 61 reads of a byte, and one that finds the end.
fn read_fails(alloc: Global, input: u64) -> Result<bool, AllocError> {
    let fails = Fails {
        input,
        out: 0,
        err: 0,
    };
    if input <= 62 {
        let status = repeated_status(alloc, b"", b"lara: the input failed\n", &fails)?;
        Ok(status == Some(8))
    } else {
        let status = repeated_status(alloc, REPEATED_TEXT, b"", &fails)?;
        Ok(status == Some(0))
    }
}

// Whether a failing write ends the call and leaves what stands before it: the text has 31 bytes.
fn write_fails(alloc: Global, out: u64) -> Result<bool, AllocError> {
    let fails = Fails {
        input: 0,
        out,
        err: 0,
    };
    if 0 < out && out <= 31 {
        let Some(front) = REPEATED_TEXT.get(..out as usize - 1) else {
            return Ok(false);
        };
        let status = repeated_status(alloc, front, b"lara: the output failed\n", &fails)?;
        Ok(status == Some(9))
    } else {
        let status = repeated_status(alloc, REPEATED_TEXT, b"", &fails)?;
        Ok(status == Some(0))
    }
}

// Whether a failing error stream ends its own writing, and the outcome stays.
fn line_fails(alloc: Global, err: u64) -> Result<bool, AllocError> {
    let fails = Fails {
        input: 0,
        out: 0,
        err,
    };
    let Some(front) = NO_WORD.get(..err.saturating_sub(1) as usize) else {
        return Ok(false);
    };
    let case = Case {
        words: &[],
        script: REPEATED,
        out: b"",
        err: front,
    };
    Ok(status(alloc, &case, 1, &fails)? == Some(1))
}

#[test]
fn each_read_fails(rt: HostRuntime) -> Result<(), Fail> {
    for input in 1..64u64 {
        assert!(rt; read_fails(rt.alloc(), input)?, "at {input}");
    }
    Ok(())
}

#[test]
fn each_write_fails(rt: HostRuntime) -> Result<(), Fail> {
    for out in 1..34u64 {
        assert!(rt; write_fails(rt.alloc(), out)?, "at {out}");
    }
    Ok(())
}

#[test]
fn each_write_of_the_line_fails(rt: HostRuntime) -> Result<(), Fail> {
    for err in 1..32u64 {
        assert!(rt; line_fails(rt.alloc(), err)?, "at {err}");
    }
    Ok(())
}

// The exit status over that many blanks, or none where this is not the line.
fn blanks_status(alloc: Global, count: usize, err: &[u8]) -> Result<Option<u8>, AllocError> {
    let blanks = vec![in alloc; b' '; count]?;
    let case = Case {
        words: &[b"run"],
        script: &blanks,
        out: b"",
        err,
    };
    status(alloc, &case, 1_000_000, &NONE)
}

#[test]
fn a_script_at_the_limit_is_read(rt: HostRuntime) -> Result<(), Fail> {
    assert_eq!(rt; blanks_status(rt.alloc(), 1_048_576, b"")?, Some(0));
    Ok(())
}

#[test]
fn a_script_past_the_limit_is_too_long(rt: HostRuntime) -> Result<(), Fail> {
    let line = b"lara: script byte 1048576: TooLong\n";
    for count in [1_048_577, 1_048_585] {
        assert_eq!(rt; blanks_status(rt.alloc(), count, line)?, Some(2));
    }
    Ok(())
}
