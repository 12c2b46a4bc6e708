//! Codes of rows by hand, and where bytes stop being one.
ghost use Rattle.std.specs.Prelude.{◌≤◌, length};

use crate::{PathText, Row, RowFault, ValType, Value, decode_row, encode_row, row_codes_apart};
use lara_base::{Bytes, Content, List, Text};
use std::alloc::{AllocError, Global};
use std::test::Fail;

fn content(alloc: Global, bytes: &[u8]) -> Result<Content, AllocError> {
    match Content::new(List::from_slice(alloc, bytes)?) {
        Some(content) => Ok(content),
        None => Ok(Content::empty(alloc)),
    }
}

// A count, a distance, a width, a flag, a text and a path.
fn row(alloc: Global, s: &[u8], path: PathText) -> Result<Row, AllocError> {
    let mut row = List::new(alloc);
    row.push(Value::Count(3))?;
    row.push(Value::MinPlus(u64::MAX))?;
    row.push(Value::MaxMin(256))?;
    row.push(Value::Flag(true))?;
    row.push(Value::Last(Text::Within(content(alloc, s)?)))?;
    row.push(Value::Path(path))?;
    Ok(row)
}

fn code(alloc: Global, s: &[u8], path: PathText) -> Result<Bytes, AllocError> {
    encode_row(alloc, &row(alloc, s, path)?)
}

// Where the bytes stop being a row, or that they are one and are its code again.
fn place_of(alloc: Global, tys: &[ValType], bytes: &[u8]) -> Result<Option<u32>, AllocError>
    requires { length bytes.now ≤ 4294967295 }
{
    let tys = List::from_slice(alloc, tys)?;
    match decode_row(alloc, &tys, bytes) {
        Ok(row) => {
            row_codes_apart(&tys, &row, &row);
            let code = encode_row(alloc, &row)?;
            if code.as_slice() == bytes {
                Ok(None)
            } else {
                Ok(Some(77))
            }
        }
        Err(RowFault::NotInGrammar { at }) => Ok(Some(at)),
        Err(RowFault::Memory) => Err(AllocError),
    }
}

#[test]
fn rows_are_their_codes(rt: HostRuntime) -> Result<(), Fail> {
    let alloc = rt.alloc();
    let path = PathText::Within(content(alloc, b"b")?);
    let code = code(alloc, b"a\0", path)?;
    assert_eq!(rt;
        code.as_slice(),
        &b"\0\0\0\0\0\0\0\x03\xff\xff\xff\xff\xff\xff\xff\xff\0\0\0\0\0\0\x01\0\x01a\0\xff\0\x01\0b\0\x01"[..]
    );
    Ok(())
}

const THREE: [ValType; 3] = [ValType::Flag, ValType::Last, ValType::Path];

#[test]
fn bytes_are_read_as_rows_or_refused_at_their_place(rt: HostRuntime) -> Result<(), Fail> {
    let alloc = rt.alloc();
    for (bytes, want) in [
        (&b"\x01a\0\xff\0\x01\0b\0\x01"[..], None),
        (&b"\0\0\x01\x01"[..], None),
        (&b"\0\0\x01\x02"[..], None),
        (&b"\x02\0\x01\x02"[..], Some(0)),
        (&b"\0a\0\x02"[..], Some(1)),
        (&b"\0\0\x01\x03"[..], Some(3)),
        (&b"\0\0\x01\0b\0"[..], Some(3)),
        (&b"\0\0\x01\x02\x02"[..], Some(4)),
    ] {
        assert_eq!(rt; place_of(alloc, &THREE, bytes)?, want);
    }
    Ok(())
}
