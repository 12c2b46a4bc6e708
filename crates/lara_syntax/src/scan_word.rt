//! The token in front of bytes.
ghost use Rattle.std.specs.Prelude.{◌≡◌, take};
ghost use Rattle.std.specs.List.{list_any};
ghost use Rattle.lara_base.specs.Names.{starts_name};
ghost use Rattle.lara_syntax.specs.Returns.{Returns};
ghost use Rattle.lara_syntax.specs.ScanSteps.{Gives};
ghost use Rattle.lara_syntax.specs.TokenWords.{name_word, number_word, text_word, one_sign, sign_word, word_at};

use crate::classes::{digits_len, name_len, next, number_value};
use crate::fixed_words::{keyword_of, sign_of};
use crate::item::Lexeme;
use crate::scan_fault::ScanFault;
use crate::text_content::content;
use lara_base::{Content, List, Name, starts_name};
use lara_data::Kind;
use std::alloc::Global;

#[tactic(auto, unfolding(crate::specs::TokenWords::name_word))]
fn name_word(alloc: Global, bytes: &[u8]) -> Result<(Lexeme, &[u8]), ScanFault>
    ensures { Gives (λ x. (x.0, x.1.now)) result (name_word bytes.now) }
{
    let (text, rest) = bytes.split_at(name_len(bytes));
    match keyword_of(text) {
        Some(key) => Ok((Lexeme::Key(key), rest)),
        None => match Name::new(List::from_slice(alloc, text)?) {
            Some(name) => Ok((Lexeme::Name(name), rest)),
            None => Err(ScanFault::Bad(Kind::TooLong)),
        },
    }
}

fn name_is_next(bytes: &[u8]) -> bool
    ensures { result ≡ list_any starts_name (take 1 bytes.now) }
{
    match next(bytes) {
        None => false,
        Some((b, _)) => starts_name(b),
    }
}

#[tactic(auto, unfolding(crate::specs::TokenWords::number_word), using(crate::proofs::Numbers::run_laws))]
fn number_word(bytes: &[u8]) -> Result<(Lexeme, &[u8]), Kind>
    ensures { Returns (λ x. (x.0, x.1.now)) result (number_word bytes.now) }
{
    let (digits, rest) = bytes.split_at(digits_len(bytes));
    match number_value(digits) {
        None => Err(Kind::BadNumber),
        Some(n) => {
            if name_is_next(rest) {
                Err(Kind::BadNumber)
            } else {
                Ok((Lexeme::Number(n), rest))
            }
        }
    }
}

// A text, behind its opening quote.
#[tactic(auto, unfolding(crate::specs::TokenWords::text_word))]
fn text_word(alloc: Global, bytes: &[u8]) -> Result<(Lexeme, &[u8]), ScanFault>
    ensures { Gives (λ x. (x.0, x.1.now)) result (text_word bytes.now) }
{
    match content(alloc, bytes) {
        Ok((bytes, rest)) => match Content::new(bytes) {
            Some(content) => Ok((Lexeme::Text(content), rest)),
            None => Err(ScanFault::Bad(Kind::BadText)),
        },
        Err(ScanFault::Bad(_)) => Err(ScanFault::Bad(Kind::BadText)),
        Err(ScanFault::Memory) => Err(ScanFault::Memory),
    }
}

#[tactic(auto, unfolding(crate::specs::TokenWords::one_sign))]
fn one_sign(bytes: &[u8]) -> Result<(Lexeme, &[u8]), Kind>
    ensures { Returns (λ x. (x.0, x.1.now)) result (one_sign bytes.now) }
{
    let Some((a, rest)) = next(bytes) else {
        return Err(Kind::BadByte);
    };
    match sign_of(&[a]) {
        Some(sign) => Ok((Lexeme::Sign(sign), rest)),
        None => Err(Kind::BadByte),
    }
}

// The longest sign in front.
#[tactic(auto, unfolding(crate::specs::TokenWords::sign_word))]
fn sign_word(bytes: &[u8]) -> Result<(Lexeme, &[u8]), Kind>
    ensures { Returns (λ x. (x.0, x.1.now)) result (sign_word bytes.now) }
{
    let Some((a, behind)) = next(bytes) else {
        return Err(Kind::BadByte);
    };
    let Some((b, rest)) = next(behind) else {
        return one_sign(bytes);
    };
    match sign_of(&[a, b]) {
        Some(sign) => Ok((Lexeme::Sign(sign), rest)),
        None => one_sign(bytes),
    }
}

/// The token in front, and the bytes behind it.
#[tactic(auto, unfolding(crate::specs::TokenWords::word_at))]
pub fn word_at(alloc: Global, bytes: &[u8]) -> Result<(Lexeme, &[u8]), ScanFault>
    ensures { Gives (λ x. (x.0, x.1.now)) result (word_at bytes.now) }
{
    let Some((b, rest)) = next(bytes) else {
        return Err(ScanFault::Bad(Kind::BadByte));
    };
    if starts_name(b) {
        name_word(alloc, bytes)
    } else if b.is_ascii_digit() {
        Ok(number_word(bytes)?)
    } else if b == b'"' {
        text_word(alloc, rest)
    } else {
        Ok(sign_word(bytes)?)
    }
}
