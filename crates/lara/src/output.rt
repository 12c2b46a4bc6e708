//! Whole texts over calls that may take a part.
ghost use Rattle.std.specs.Prelude.{◌≡◌, OnOk};
ghost use Rattle.lara_base.specs.Causes.{HasCause};
ghost use Rattle.lara_base.specs.Moves.{Adds, AddsFront};

use lara_base::{Failed, Sink};

/// Writes the whole text, or a front of it where the sink fails. Each call of the sink takes a byte or ends the writing.
pub fn write_whole<O: Sink>(out: &mut O, text: &[u8]) -> Result<(), Failed>
    ensures whole { OnOk result (Adds (O.held out.old) (O.held out.new) text.now) }
    ensures part { AddsFront (O.held out.old) (O.held out.new) text.now }
    ensures cause { HasCause (O.faults out.old) (O.faults out.new) result }
{
    let mut rest = text;
    while !rest.is_empty() {
        let count = out.write(rest)?;
        let (_, after) = rest.split_at(count);
        rest = after;
    }
    Ok(())
}
