//! Texts in a code that keeps their order.
ghost use Rattle.std.specs.Prelude.{◌≡◌, ◌==◌, ◌++◌, OnOk, IfOk};
ghost use Rattle.std.specs.List.{list_all};
ghost use Rattle.std.specs.Option.{option_map};
ghost use Rattle.lara_fields.specs.Fields.{Gives};
ghost use Rattle.lara_fields.specs.TextCodes.{escape, escaped, over_text, text_code, unescaped, piece_at, text_of, text_at};

use crate::stop::Stop;
use lara_base::{Bytes, Content, List, Text};
use std::alloc::{AllocError, Global};

/// What stands for the texts that are too long: it is after the codes of all others.
const OVER_TEXT: [u8; 1025] = [255; 1025];

/// Adds a byte of a text with its escape.
fn push_byte(out: &mut Bytes, byte: u8) -> Result<(), AllocError>
    ensures { OnOk result (out.new ≡ out.old ++ escape byte) }
{
    match byte {
        0 => out.extend_from_slice(&[0, 255]),
        _ => out.push(byte),
    }
}

/// Adds the bytes with their escapes, and the end.
#[tactic(auto, using(crate::proofs::EscapeFacts::escaped_end))]
fn push_escaped(out: &mut Bytes, bytes: &[u8]) -> Result<(), AllocError>
    ensures { OnOk result (out.new ≡ out.old ++ escaped bytes.now) }
{
    for byte in bytes {
        push_byte(out, *byte)?;
    }
    out.extend_from_slice(&[0, 1])?;
    Ok(())
}

/// Adds the code of the text that stands for the longer ones.
#[tactic(auto, unfolding(crate::specs::TextCodes::over_text))]
fn push_over(out: &mut Bytes) -> Result<(), AllocError>
    ensures { OnOk result (out.new ≡ out.old ++ escaped over_text) }
{
    push_escaped(out, &OVER_TEXT)
}

/// Adds the code of a text of at most 1,024 bytes.
pub fn push_content(out: &mut Bytes, content: &Content) -> Result<(), AllocError>
    ensures { OnOk result (out.new ≡ out.old ++ escaped content.now) }
{
    push_escaped(out, content.bytes().as_slice())
}

/// Adds the code of a text.
#[tactic(auto, unfolding(crate::specs::TextCodes::text_bytes))]
pub fn push_text(out: &mut Bytes, text: &Text) -> Result<(), AllocError>
    ensures { OnOk result (out.new ≡ out.old ++ text_code text.now) }
{
    match text {
        Text::Within(content) => push_content(out, content),
        Text::Over => push_over(out),
    }
}

/// What stands at the front of a text's code: a byte of the text, or its end, and what is behind it.
#[tactic(auto, unfolding(crate::specs::TextCodes::piece_at))]
pub(crate) fn piece_of(bytes: &[u8]) -> Option<(Option<u8>, &[u8])>
    ensures { option_map (λ x. (x.0, x.1.now)) result ≡ piece_at bytes.now }
{
    match bytes {
        [] => None,
        [0, rest @ ..] => match rest {
            [1, after @ ..] => Some((None, after)),
            [255, after @ ..] => Some((Some(0), after)),
            _ => None,
        },
        [byte, rest @ ..] => Some((Some(*byte), rest)),
    }
}

/// The bytes of a text up to its end mark, and what is behind it; `None` where they have no end or a wrong escape.
#[tactic(auto, using(crate::proofs::UnescapeFacts::unescape_facts))]
fn unescape(alloc: Global, bytes: &[u8]) -> Result<Option<(Bytes, &[u8])>, AllocError>
    ensures { IfOk result (λ found. option_map (λ x. (x.0, x.1.now)) found ≡ unescaped bytes.now) }
{
    let mut out = List::new(alloc);
    let mut rest = bytes;
    'pieces: loop {
        match piece_of(rest) {
            None => return Ok(None),
            Some((piece, after)) => match piece {
                None => return Ok(Some((out, after))),
                Some(byte) => {
                    out.push(byte)?;
                    rest = after;
                }
            },
        }
    }
}

/// Whether each byte is FF.
fn are_full(bytes: &[u8]) -> bool
    ensures { result ≡ list_all (λ b. b == 255) bytes.now }
{
    bytes.iter().all(|b| *b == 255)
}

/// The text that these bytes stand for.
#[tactic(auto, unfolding(crate::specs::TextCodes::text_of))]
fn text_of(bytes: Bytes) -> Option<Text>
    ensures { result ≡ text_of bytes }
{
    if bytes.len() == 1025 && are_full(bytes.as_slice()) {
        return Some(Text::Over);
    }
    match Content::new(bytes) {
        Some(content) => Some(Text::Within(content)),
        None => None,
    }
}

/// The text at the front, and what is behind it.
pub fn text_at(alloc: Global, bytes: &[u8]) -> Result<(Text, &[u8]), Stop>
    ensures { Gives (λ x. (x.0, x.1.now)) result (text_at bytes.now) }
{
    match unescape(alloc, bytes)? {
        None => Err(Stop::Refused { left: bytes.len() }),
        Some((content, rest)) => match text_of(content) {
            Some(text) => Ok((text, rest)),
            None => Err(Stop::Refused { left: bytes.len() }),
        },
    }
}
