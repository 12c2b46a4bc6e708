//! What is behind a text, with no text made.
ghost use Rattle.std.specs.Prelude.{◌≡◌, ◌&&◌, ◌==◌};
ghost use Rattle.std.specs.Option.{option_map};
ghost use Rattle.lara_fields.specs.TextCodes.{text_at};
ghost use Rattle.lara_fields.specs.Skipping.{behind, is_kind};

use crate::texts::piece_of;

/// Whether so many bytes are a text, or where all are FF, what stands for the longer ones.
fn is_kind(count: usize, full: bool) -> bool
    ensures { result ≡ is_kind count full }
{
    count <= 1024 || (count == 1025 && full)
}

fn stays_full(full: bool, byte: u8) -> bool
    ensures { result ≡ (full && (byte == 255)) }
{
    full && byte == 255
}

/// What is behind the text at the front.
#[tactic(auto, using(crate::proofs::SkipFacts::skip_facts))]
pub fn text_behind(bytes: &[u8]) -> Option<&[u8]>
    ensures { option_map (λ x. x.now) result ≡ behind (text_at bytes.now) }
{
    let mut rest = bytes;
    let mut count: usize = 0;
    let mut full = true;
    'pieces: loop {
        let (piece, after) = piece_of(rest)?;
        let Some(byte) = piece else {
            if is_kind(count, full) {
                return Some(after);
            }
            return None;
        };
        count += 1;
        full = stays_full(full, byte);
        rest = after;
    }
}
