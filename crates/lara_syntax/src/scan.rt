//! All tokens of a script, as items.
ghost use Rattle.std.specs.Prelude.{◌≡◌, ◌≤◌, length, IfOk};
ghost use Rattle.lara_syntax.specs.TokenReadings.{Reads, IsOnlyReading};
ghost use Rattle.lara_syntax.specs.TokenWords.{GivesStep};
ghost use Rattle.lara_syntax.specs.Spans.{LiesFrom, AreInOrder, AreSlices};
ghost use Rattle.lara_syntax.specs.Tokens.{items_of, stop_of};
ghost use Rattle.lara_syntax.specs.Limits.{most_bytes};

use crate::classes::after_blank;
use crate::item::Item;
use crate::scan_fault::ScanFault;
use crate::scan_word::word_at;
use lara_base::List;
use lara_data::Refusal;
use std::alloc::{AllocError, Global};

/// The words of a script, up to its end or to the first byte that begins no token or begins a bad one.
#[derive(Drop)]
pub struct ItemList {
    pub list: List<Item>,
    pub stopped: Option<Refusal>,
}

// The next token of a script, with the bytes behind it; its end; or the refusal where no token stands.
#[derive(Drop)]
enum Step<'a> {
    Item(Item, &'a [u8]),
    End,
    Refused(Refusal),
}

// The step behind white space and comments; `size` is the script's length.
#[tactic(auto, using(crate::proofs::ItemLaws::step_laws, crate::proofs::WordLaws::word_laws))]
fn next_item(alloc: Global, size: usize, bytes: &[u8]) -> Result<Step<'_>, AllocError>
    requires small { size ≤ most_bytes }
    requires within { length bytes.now ≤ size }
    ensures { IfOk result (λ s. GivesStep size bytes.now s) }
{
    let bytes = after_blank(bytes);
    if bytes.is_empty() {
        return Ok(Step::End);
    }
    let at = (size - bytes.len()) as u32;
    match word_at(alloc, bytes) {
        Ok((lexeme, rest)) => {
            let len = (bytes.len() - rest.len()) as u32;
            Ok(Step::Item(Item { at, len, lexeme }, rest))
        }
        Err(ScanFault::Bad(kind)) => Ok(Step::Refused(Refusal { at, kind })),
        Err(ScanFault::Memory) => Err(AllocError),
    }
}

#[tactic(auto, using(crate::proofs::Gather::gather_laws, crate::proofs::WordLaws::word_laws))]
fn exact_items(alloc: Global, bytes: &[u8]) -> Result<ItemList, AllocError>
    requires { length bytes.now ≤ most_bytes }
    ensures { IfOk result (λ t. (t.list ≡ items_of bytes.now) × (t.stopped ≡ stop_of bytes.now)) }
{
    let size = bytes.len();
    let mut list = List::new(alloc);
    let mut rest = bytes;
    loop {
        let step = next_item(alloc, size, rest)?;
        match step {
            Step::Item(item, after) => {
                list.push(item)?;
                rest = after;
            }
            Step::End => {
                return Ok(ItemList {
                    list,
                    stopped: None,
                });
            }
            Step::Refused(refusal) => {
                return Ok(ItemList {
                    list,
                    stopped: Some(refusal),
                });
            }
        }
    }
}

/// The items of a script of at most 1,048,576 bytes, and where they stop before its end.
#[tactic(auto, using(crate::proofs::ItemLaws::item_laws, crate::proofs::ReadLaws::read_laws, crate::proofs::SliceLaws::slice_laws))]
pub fn read_items(alloc: Global, bytes: &[u8]) -> Result<ItemList, AllocError>
    requires { length bytes.now ≤ most_bytes }
    ensures exact { IfOk result (λ t. (t.list ≡ items_of bytes.now) × (t.stopped ≡ stop_of bytes.now)) }
    ensures order { IfOk result (λ t. AreInOrder 0 (length bytes.now) t.list t.stopped) }
    ensures inside { IfOk result (λ t. LiesFrom 0 (length bytes.now) t.stopped) }
    ensures slices { IfOk result (λ t. AreSlices bytes.now t.list) }
    ensures reading { IfOk result (λ t. Reads (length bytes.now) bytes.now t.list t.stopped) }
    ensures only { IfOk result (λ t. IsOnlyReading bytes.now t.list t.stopped) }
{
    let items = exact_items(alloc, bytes)?;
    Ok(items)
}
