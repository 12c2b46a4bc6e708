//! Texts in quotes.
ghost use Rattle.std.specs.Prelude.{◌≡◌, ◌++◌, ◌<◌, OnOk};
ghost use Rattle.std.specs.List.{flat_map};
ghost use Rattle.lara_text.specs.Quotes.{hex_digit, quoted_byte, quoted_text};

use lara_base::Bytes;
use std::alloc::AllocError;

// The hexadecimal digit of a number below 16, in lower case.
fn hex_digit(d: u8) -> u8
    requires { d < 16 }
    ensures { result ≡ hex_digit d }
{
    if d < 10 { b'0' + d } else { b'a' - 10 + d }
}

// Adds a byte as it stands within quotes.
#[tactic(auto, unfolding(crate::specs::Quotes::quoted_byte))]
fn add_quoted_byte(text: &mut Bytes, b: u8) -> Result<(), AllocError>
    ensures { OnOk result (text.new ≡ text.old ++ quoted_byte b) }
{
    if b == b'"' || b == b'\\' {
        text.extend_from_slice(&[b'\\', b])
    } else if b < 32 || b == 127 {
        text.extend_from_slice(&[b'\\', b'x', hex_digit(b / 16), hex_digit(b % 16)])
    } else {
        text.extend_from_slice(&[b])
    }
}

/// Adds the content in quotes: `"` and `\` behind a `\`, bytes below 32 and the byte 127 as `\xHH` in lower case, all
/// others as they are.
#[tactic(auto, using(crate::proofs::TextFacts::text_step), unfolding(crate::specs::Quotes::quoted_text))]
pub fn add_quoted(text: &mut Bytes, content: &[u8]) -> Result<(), AllocError>
    ensures { OnOk result (text.new ≡ text.old ++ quoted_text content.now) }
{
    text.extend_from_slice(b"\"")?;
    for byte in content {
        add_quoted_byte(text, *byte)?;
    }
    text.extend_from_slice(b"\"")
}
