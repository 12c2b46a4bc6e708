//! Expected texts, read from the front: each function gives what is left of one behind what it looks for, or None where
//! something else stands there.
use lara_base::Copied;
use lara_data::{Kind, Refusal};
use std::alloc::{AllocError, Global};

/// A copy, made through the bound.
pub fn copy_of<T: Copied>(alloc: Global, value: &T) -> Result<T, AllocError> {
    value.copy(alloc)
}

/// Whether what was looked for ends the text.
pub fn is_end(rest: Option<&[u8]>) -> bool {
    match rest {
        Some(rest) => rest.is_empty(),
        None => false,
    }
}

/// What is left behind a text.
pub fn behind<'a>(want: &'a [u8], text: &[u8]) -> Option<&'a [u8]> {
    let mut rest = want;
    for b in text {
        match rest {
            [first, more @ ..] => {
                if *first != *b {
                    return None;
                }
                rest = more;
            }
            [] => return None,
        }
    }
    Some(rest)
}

// The value of a decimal digit.
fn digit(b: u8) -> Option<u64> {
    if b.is_ascii_digit() {
        Some(u64::from(b - b'0'))
    } else {
        None
    }
}

// What is left behind a byte.
fn tail(bytes: &[u8]) -> &[u8] {
    match bytes {
        [_, rest @ ..] => rest,
        [] => bytes,
    }
}

/// What is left behind a number.
pub fn behind_number(want: &[u8], number: u64) -> Option<&[u8]> {
    let mut value: Option<u64> = None;
    let mut rest = want;
    for b in want {
        match digit(*b) {
            Some(d) => value = Some(value.unwrap_or(0).wrapping_mul(10).wrapping_add(d)),
            None => break,
        }
        rest = tail(rest);
    }
    if value == Some(number) {
        Some(rest)
    } else {
        None
    }
}

/// What is left behind a place and a space.
pub fn behind_place(want: &[u8], at: u32) -> Option<&[u8]> {
    behind(behind_number(want, u64::from(at))?, b" ")
}

fn kind_name(kind: Kind) -> &'static [u8] {
    match kind {
        Kind::BadByte => b"BadByte",
        Kind::BadNumber => b"BadNumber",
        Kind::BadText => b"BadText",
        Kind::Unexpected => b"Unexpected",
        Kind::TooLong => b"TooLong",
        Kind::TooMany => b"TooMany",
        _ => b"?",
    }
}

/// Whether the text is the place and the kind.
pub fn is_refusal(want: &[u8], refusal: Refusal) -> bool {
    match behind_place(want, refusal.at) {
        Some(rest) => rest == kind_name(refusal.kind),
        None => false,
    }
}
