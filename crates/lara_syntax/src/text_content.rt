//! The content of a text.
ghost use Rattle.std.specs.Prelude.{◌≡◌};
ghost use Rattle.lara_syntax.specs.Returns.{Returns};
ghost use Rattle.lara_syntax.specs.TokenWords.{GivesContent};
ghost use Rattle.lara_syntax.specs.TextContents.{hex_value, content_byte, escape, hex_byte};

use crate::classes::next;
use crate::scan_fault::ScanFault;
use lara_base::{Bytes, List};
use lara_data::Kind;
use std::alloc::Global;

fn hex_value(b: u8) -> Option<u8>
    ensures { result ≡ hex_value b }
{
    if b >= b'0' && b <= b'9' {
        Some(b - b'0')
    } else if b >= b'a' && b <= b'f' {
        Some(b - b'a' + 10)
    } else if b >= b'A' && b <= b'F' {
        Some(b - b'A' + 10)
    } else {
        None
    }
}

// The byte of two hexadecimal digits.
#[tactic(auto, unfolding(crate::specs::TextContents::hex_byte))]
fn hex_byte(bytes: &[u8]) -> Result<(Option<u8>, &[u8]), Kind>
    ensures { Returns (λ x. (x.0, x.1.now)) result (hex_byte bytes.now) }
{
    let Some((h, rest)) = next(bytes) else {
        return Err(Kind::BadText);
    };
    let Some((l, rest)) = next(rest) else {
        return Err(Kind::BadText);
    };
    let Some(high) = hex_value(h) else {
        return Err(Kind::BadText);
    };
    let Some(low) = hex_value(l) else {
        return Err(Kind::BadText);
    };
    Ok((Some(high * 16 + low), rest))
}

// What stands behind a `\`.
#[tactic(auto, unfolding(crate::specs::TextContents::escape))]
fn escape(bytes: &[u8]) -> Result<(Option<u8>, &[u8]), Kind>
    ensures { Returns (λ x. (x.0, x.1.now)) result (escape bytes.now) }
{
    let Some((b, rest)) = next(bytes) else {
        return Err(Kind::BadText);
    };
    if b == b'"' || b == b'\\' {
        Ok((Some(b), rest))
    } else if b == b'x' {
        hex_byte(rest)
    } else {
        Err(Kind::BadText)
    }
}

// One byte of the content, or None behind the closing quote.
#[tactic(auto, unfolding(crate::specs::TextContents::content_byte))]
fn content_byte(bytes: &[u8]) -> Result<(Option<u8>, &[u8]), Kind>
    ensures { Returns (λ x. (x.0, x.1.now)) result (content_byte bytes.now) }
{
    let Some((b, rest)) = next(bytes) else {
        return Err(Kind::BadText);
    };
    if b == b'"' {
        Ok((None, rest))
    } else if b == b'\\' {
        escape(rest)
    } else if b >= 0x20 && b != 0x7f {
        Ok((Some(b), rest))
    } else {
        Err(Kind::BadText)
    }
}

/// The content of a text, behind its opening quote. It reads no further than 1,024 bytes of content.
#[tactic(auto, using(crate::proofs::Gather::gather_laws, crate::proofs::TextLaws::text_laws))]
pub fn content(alloc: Global, bytes: &[u8]) -> Result<(Bytes, &[u8]), ScanFault>
    ensures { GivesContent bytes.now result }
{
    let mut content = List::new(alloc);
    let mut rest = bytes;
    loop {
        let (b, after) = content_byte(rest)?;
        match b {
            None => return Ok((content, after)),
            Some(b) => {
                if content.len() == 1024 {
                    return Err(ScanFault::Bad(Kind::BadText));
                }
                content.push(b)?;
                rest = after;
            }
        }
    }
}
