//! Fields put down and read again, and how much is left where a reading stops.
use crate::{
    Stop, flag_at, flag_behind, push_content, push_flag, push_text, push_u16, push_u32, push_u64,
    take_at, text_at, text_behind, u16_at, u32_at, u64_at, u64_behind,
};
use lara_base::{Bytes, Content, List, Text};
use std::alloc::{AllocError, Global};
use std::test::Fail;

// A number of each width, a flag, a text and the text that stands for the longer ones.
fn written(alloc: Global) -> Result<Bytes, AllocError> {
    let mut out = List::new(alloc);
    push_u16(&mut out, 258)?;
    push_u32(&mut out, 16909060)?;
    push_u64(&mut out, 72623859790382856)?;
    push_flag(&mut out, true)?;
    push_content(&mut out, &Content::empty(alloc))?;
    push_text(&mut out, &Text::Over)?;
    Ok(out)
}

// Whether these fields are read at the front, and nothing is left.
fn is_read(alloc: Global, bytes: &[u8]) -> Result<bool, Stop> {
    let (a, bytes) = u16_at(bytes)?;
    let (b, bytes) = u32_at(bytes)?;
    let (c, bytes) = u64_at(bytes)?;
    let (flag, bytes) = flag_at(bytes)?;
    let (end, bytes) = take_at(2, bytes)?;
    let (text, rest) = text_at(alloc, bytes)?;
    let is_over = matches!(text, Text::Over);
    Ok(
        a == 258
            && b == 16909060
            && c == 72623859790382856
            && flag
            && end == &b"\0\x01"[..]
            && is_over
            && rest.is_empty(),
    )
}

fn is_read_again(alloc: Global) -> Result<bool, AllocError> {
    let bytes = written(alloc)?;
    match is_read(alloc, bytes.as_slice()) {
        Ok(is_read) => Ok(is_read),
        Err(Stop::Refused { .. }) => Ok(false),
        Err(Stop::Memory) => Err(AllocError),
    }
}

#[test]
fn fields_are_read_again(rt: HostRuntime) -> Result<(), Fail> {
    let alloc = rt.alloc();
    let bytes = written(alloc)?;
    assert_eq!(rt; bytes.len(), 2 + 4 + 8 + 1 + 2 + 1027);
    assert_eq!(rt;
        &bytes.as_slice()[..17],
        &b"\x01\x02\x01\x02\x03\x04\x01\x02\x03\x04\x05\x06\x07\x08\x01\0\x01"[..]
    );
    assert!(rt; is_read_again(alloc)?);
    Ok(())
}

// How many bytes are left where the text has no reading.
fn left_of_text(alloc: Global, bytes: &[u8]) -> Result<Option<usize>, AllocError> {
    match text_at(alloc, bytes) {
        Ok(_) => Ok(None),
        Err(Stop::Refused { left }) => Ok(Some(left)),
        Err(Stop::Memory) => Err(AllocError),
    }
}

#[test]
fn texts_without_an_end_are_refused(rt: HostRuntime) -> Result<(), Fail> {
    let alloc = rt.alloc();
    assert_eq!(rt; left_of_text(alloc, b"a\0\xff\0\x01")?, None);
    assert_eq!(rt; left_of_text(alloc, b"a\0\xff\0")?, Some(4));
    assert_eq!(rt; left_of_text(alloc, b"a\0\x02\0\x01")?, Some(5));
    assert_eq!(rt; left_of_text(alloc, b"")?, Some(0));
    Ok(())
}

fn len_of(behind: Option<&[u8]>) -> Option<usize> {
    match behind {
        Some(rest) => Some(rest.len()),
        None => None,
    }
}

#[test]
fn fields_are_passed(rt: HostRuntime) -> Result<(), Fail> {
    assert_eq!(rt; len_of(u64_behind(b"123456789")), Some(1));
    assert_eq!(rt; len_of(u64_behind(b"1234567")), None);
    assert_eq!(rt; len_of(flag_behind(b"\x01ab")), Some(2));
    assert_eq!(rt; len_of(flag_behind(b"\x02ab")), None);
    assert_eq!(rt; len_of(text_behind(b"a\0\xff\0\x01b")), Some(1));
    assert_eq!(rt; len_of(text_behind(b"a\0\xff\0")), None);
    Ok(())
}
