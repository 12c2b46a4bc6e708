//! Codes of keys by hand, with their order, and where bytes stop being one.
ghost use Rattle.std.specs.Prelude.{◌≤◌, length};

use crate::{
    KeyFault, KeyType, KeyVal, Tuple, after_prefix, codes_keep_order, compare, decode, encode,
    prefix_len,
};
use lara_base::{Bytes, Content, List, Text};
use std::alloc::{AllocError, Global};
use std::cmp::Ordering;
use std::test::Fail;

fn text(alloc: Global, bytes: &[u8]) -> Result<Text, AllocError> {
    match Content::new(List::from_slice(alloc, bytes)?) {
        Some(content) => Ok(Text::Within(content)),
        None => Ok(Text::Over),
    }
}

// The code of a number, a flag and a text.
fn code_of_three(alloc: Global, number: u64, flag: bool, s: &[u8]) -> Result<Bytes, AllocError> {
    let mut key = List::new(alloc);
    key.push(KeyVal::Nat(number))?;
    key.push(KeyVal::Flag(flag))?;
    key.push(KeyVal::Text(text(alloc, s)?))?;
    encode(alloc, &key)
}

// The tuple that the bytes are read as.
fn tuple(alloc: Global, tys: &List<KeyType>, bytes: &[u8]) -> Result<Result<Tuple, u32>, AllocError>
    requires { length bytes.now ≤ 4294967295 }
{
    match decode(alloc, tys, bytes) {
        Ok(tuple) => Ok(Ok(tuple)),
        Err(KeyFault::NotInGrammar { at }) => Ok(Err(at)),
        Err(KeyFault::Memory) => Err(AllocError),
    }
}

// Where the bytes stop being a key, or that they are one and are its code again.
fn place_of(alloc: Global, tys: &[KeyType], bytes: &[u8]) -> Result<Option<u32>, AllocError>
    requires { length bytes.now ≤ 4294967295 }
{
    let tys = List::from_slice(alloc, tys)?;
    match tuple(alloc, &tys, bytes)? {
        Ok(tuple) => {
            let code = encode(alloc, &tuple)?;
            if code.as_slice() == bytes {
                Ok(None)
            } else {
                Ok(Some(77))
            }
        }
        Err(at) => Ok(Some(at)),
    }
}

const THREE: [KeyType; 3] = [KeyType::Nat, KeyType::Flag, KeyType::Text];

#[test]
fn keys_are_their_codes(rt: HostRuntime) -> Result<(), Fail> {
    let alloc = rt.alloc();
    let code = code_of_three(alloc, 258, true, b"a\0b")?;
    assert_eq!(rt;
        code.as_slice(),
        &b"\0\0\0\0\0\0\x01\x02\x01a\0\xffb\0\x01"[..]
    );
    let over = code_of_three(alloc, u64::MAX, false, &[7; 1025])?;
    assert_eq!(rt; over.len(), 8 + 1 + 1027);
    Ok(())
}

#[test]
fn bytes_are_read_as_keys_or_refused_at_their_place(rt: HostRuntime) -> Result<(), Fail> {
    let alloc = rt.alloc();
    for (bytes, want) in [
        (&b"\0\0\0\0\0\0\x01\x02\x01a\0\xffb\0\x01"[..], None),
        (&b"\0\0\0\0\0\0\x01"[..], Some(0)),
        (&b"\0\0\0\0\0\0\x01\x02\x02a\0\x01"[..], Some(8)),
        (&b"\0\0\0\0\0\0\x01\x02\0a\0\x02\0\x01"[..], Some(9)),
        (&b"\0\0\0\0\0\0\x01\x02\0a\0\xff"[..], Some(9)),
        (&b"\0\0\0\0\0\0\x01\x02\0a\0\x01\0\0"[..], Some(12)),
    ] {
        assert_eq!(rt; place_of(alloc, &THREE, bytes)?, want);
    }
    Ok(())
}

// How the tuples of two codes compare.
fn order_of(alloc: Global, a: &[u8], b: &[u8]) -> Result<Option<Ordering>, AllocError>
    requires left { length a.now ≤ 4294967295 }
    requires right { length b.now ≤ 4294967295 }
{
    let tys = List::from_slice(alloc, &[KeyType::Text])?;
    match (decode(alloc, &tys, a), decode(alloc, &tys, b)) {
        (Ok(a), Ok(b)) => {
            codes_keep_order(&tys, &a, &b);
            Ok(Some(compare(&a, &b)))
        }
        _ => Ok(None),
    }
}

#[test]
fn codes_compare_as_keys_do(rt: HostRuntime) -> Result<(), Fail> {
    let alloc = rt.alloc();
    let rising = [&b"a\0\x01"[..], &b"a\0\xff\0\x01"[..], &b"ab\0\x01"[..]];
    for i in 0..3 {
        for j in 0..3 {
            assert_eq!(rt; order_of(alloc, rising[i], rising[j])?, Some(i.cmp(&j)));
        }
    }
    Ok(())
}

// The length of the first columns of a key of three.
fn len_of(alloc: Global, columns: u32, key: &[u8]) -> Result<Option<u32>, AllocError>
    requires { columns ≤ 3 }
{
    let tys = List::from_slice(alloc, &THREE)?;
    Ok(prefix_len(&tys, columns, key))
}

#[test]
fn first_columns_have_their_length(rt: HostRuntime) -> Result<(), Fail> {
    let alloc = rt.alloc();
    let key = b"\0\0\0\0\0\0\x01\x02\x01a\0\xff\0\x01z";
    assert_eq!(rt; len_of(alloc, 0, key)?, Some(0));
    assert_eq!(rt; len_of(alloc, 1, key)?, Some(8));
    assert_eq!(rt; len_of(alloc, 2, key)?, Some(9));
    assert_eq!(rt; len_of(alloc, 3, key)?, Some(14));
    assert_eq!(rt; len_of(alloc, 1, b"\0\0\0")?, None);
    assert_eq!(rt; len_of(alloc, 3, b"\0\0\0\0\0\0\x01\x02\x01a\0\xff")?, None);
    Ok(())
}

// Whether the bound of the prefix is this one.
fn is_bound(alloc: Global, prefix: &[u8], want: Option<&[u8]>) -> Result<bool, AllocError> {
    match (after_prefix(alloc, prefix)?, want) {
        (Some(bound), Some(want)) => Ok(bound.as_slice() == want),
        (None, None) => Ok(true),
        _ => Ok(false),
    }
}

#[test]
fn a_prefix_is_raised(rt: HostRuntime) -> Result<(), Fail> {
    let alloc = rt.alloc();
    assert!(rt; is_bound(alloc, b"a\xff", Some(b"b"))?);
    assert!(rt; is_bound(alloc, b"\xff", None)?);
    assert!(rt; is_bound(alloc, b"", None)?);
    assert!(rt; is_bound(alloc, b"a\0", Some(b"a\x01"))?);
    assert!(rt; is_bound(alloc, b"a\xff\xfe\xff", Some(b"a\xff\xff"))?);
    Ok(())
}
