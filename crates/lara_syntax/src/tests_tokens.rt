//! The tokens of small scripts, with their places, worked out by hand.
ghost use Rattle.std.specs.Prelude.{◌≤◌, length};

use crate::tests_shown::{behind, behind_number, is_refusal};
use crate::token::{Token, TokenList, TokenWord, tokens};
use lara_data::Refusal;
use std::alloc::{AllocError, Global};

// Each script with its tokens: place + length and kind, and where they stop.
const CASES: [(&[u8], &str); 19] = [
    (b"", ""),
    (b"a = 1;", "0+1 name, 2+1 sign, 4+1 number 1, 5+1 sign, "),
    (b" # x\r y\n\tb#", "9+1 name, "),
    (b"print _x9", "0+5 keyword, 6+3 name, "),
    (
        b"<=<+++!=",
        "0+2 sign, 2+1 sign, 3+2 sign, 5+1 sign, 6+2 sign, ",
    ),
    (b"*>>=>", "0+1 sign, 1+1 sign, 2+2 sign, 4+1 sign, "),
    (
        b"agg and apply as by count dist else false filter flag if inf join last len load map maxmin minplus nat none not num or path print promote rename repeat store table text then to true union where with",
        "0+3 keyword, 4+3 keyword, 8+5 keyword, 14+2 keyword, 17+2 keyword, 20+5 keyword, 26+4 keyword, 31+4 keyword, 36+5 keyword, 42+6 keyword, 49+4 keyword, 54+2 keyword, 57+3 keyword, 61+4 keyword, 66+4 keyword, 71+3 keyword, 75+4 keyword, 80+3 keyword, 84+6 keyword, 91+7 keyword, 99+3 keyword, 103+4 keyword, 108+3 keyword, 112+3 keyword, 116+2 keyword, 119+4 keyword, 124+5 keyword, 130+7 keyword, 138+6 keyword, 145+6 keyword, 152+5 keyword, 158+5 keyword, 164+4 keyword, 169+4 keyword, 174+2 keyword, 177+4 keyword, 182+5 keyword, 188+5 keyword, 194+4 keyword, ",
    ),
    (b"007:08", "0+3 number 7, 3+1 sign, 4+2 number 8, "),
    (
        b"18446744073709551615",
        "0+20 number 18446744073709551615, ",
    ),
    (b"1 18446744073709551616", "0+1 number 1, 2 BadNumber"),
    (b"12_", "0 BadNumber"),
    (
        b"\"a\\\"\\\\\\x4a\xff\";",
        "0+12 text 61 22 5c 4a ff , 12+1 sign, ",
    ),
    (b"a \"\x7f\"", "0+1 name, 2 BadText"),
    (b"\"\\n\"", "0 BadText"),
    (b"\"\\xA\"", "0 BadText"),
    (b"(\"ab", "0+1 sign, 1 BadText"),
    (b"a ! b", "0+1 name, 2 BadByte"),
    (
        b"b1234567890123456789012345678901234567890123456789012345678901_3",
        "0+64 name, ",
    ),
    (
        b",b1234567890123456789012345678901234567890123456789012345678901_34",
        "0+1 sign, 1 TooLong",
    ),
];

fn hex_digit(value: u8) -> u8 {
    if value < 10 {
        b'0' + value
    } else {
        (b'a' - 10).wrapping_add(value)
    }
}

// What is left behind two hexadecimal digits and a space for each byte.
fn behind_bytes<'a>(want: &'a [u8], bytes: &[u8]) -> Option<&'a [u8]> {
    let mut rest = want;
    for b in bytes {
        rest = behind(rest, &[hex_digit(*b / 16), hex_digit(*b % 16), b' '])?;
    }
    Some(rest)
}

pub fn behind_word<'a>(want: &'a [u8], word: &TokenWord) -> Option<&'a [u8]> {
    match word {
        TokenWord::Name => behind(want, b"name, "),
        TokenWord::Keyword => behind(want, b"keyword, "),
        TokenWord::Number(n) => behind(behind_number(behind(want, b"number ")?, *n)?, b", "),
        TokenWord::Text(content) => {
            let rest = behind(want, b"text ")?;
            behind(behind_bytes(rest, content.bytes().as_slice())?, b", ")
        }
        TokenWord::Sign => behind(want, b"sign, "),
    }
}

fn behind_token<'a>(want: &'a [u8], token: &Token) -> Option<&'a [u8]> {
    let rest = behind_number(want, u64::from(token.at))?;
    let rest = behind_number(behind(rest, b"+")?, u64::from(token.len))?;
    behind_word(behind(rest, b" ")?, &token.word)
}

fn behind_tokens<'a>(want: &'a [u8], tokens: &[Token]) -> Option<&'a [u8]> {
    let mut rest = want;
    for token in tokens {
        rest = behind_token(rest, token)?;
    }
    Some(rest)
}

fn is_stop(want: &[u8], stopped: Option<Refusal>) -> bool {
    match stopped {
        Some(refusal) => is_refusal(want, refusal),
        None => want.is_empty(),
    }
}

pub fn are_shown(want: &[u8], tokens: &TokenList) -> bool {
    match behind_tokens(want, tokens.list.as_slice()) {
        Some(rest) => is_stop(rest, tokens.stopped),
        None => false,
    }
}

// Whether the text shows the tokens of the script.
fn is_read_as(alloc: Global, script: &[u8], want: &[u8]) -> Result<bool, AllocError>
    requires { length script.now ≤ 1048576 }
{
    let tokens = tokens(alloc, script)?;
    Ok(are_shown(want, &tokens))
}

#[test]
fn tokens_have_their_places(rt: HostRuntime) -> Result<(), AllocError> {
    for (script, want) in CASES {
        if script.len() <= 1048576 {
            let is = is_read_as(rt.alloc(), script, want.as_bytes())?;
            assert!(rt; is, "at {want}");
        }
    }
    Ok(())
}
