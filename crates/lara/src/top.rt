//! The top call, in the order of the endings.
ghost use Rattle.std.specs.Prelude.{IsOk, ◌≡◌, ◌≤◌, ◌⊎◌, ℕ, List, length, Some, Ok, IfOk, IfErr, OnOk};
ghost use Rattle.std.specs.Io.KnownBytes.{IsAtEnd};
ghost use Rattle.lara_base.specs.Causes.{Rose};
ghost use Rattle.lara_base.specs.Moves.{Adds, AddsFront, ReadsWithin};
ghost use Rattle.lara.specs.Words.{command_of};
ghost use Rattle.lara.specs.Commands.{HasInput, ReadsInput, Told, CanCome, most_read};
ghost use Rattle.lara.specs.Ruling.{Answer, printed, command_ruling, ruling, Front, Tells, call_shows};
ghost use Rattle.lara.specs.Endings.{Gives, Caused, Quiet, Exactly, IsExact, ByWords, Reaches, source_shows, outcome_of};
ghost use Rattle.lara.specs.Stops.{at_input};
ghost use Rattle.lara.specs.RunRelations.{RunTells};
ghost use Rattle.lara.specs.Lines.{line_of};
ghost use Rattle.lara.specs.declared.outcome.Outcome.{Outcome};
ghost use Rattle.lara_data.specs.declared.refusal.Kind.{Kind};
ghost use Rattle.lara_data.specs.Plugins.{handed};

use crate::answer::answer;
use crate::input::script_bytes;
use crate::outcome::Outcome;
use crate::output::write_whole;
use crate::report::report;
use crate::words::{Command, read_command};
use lara_base::{Bytes, List, Sink, Source, Word};
use lara_data::Plugin;
use std::alloc::Global;

// The text of a run.
fn run_text<S: Source>(
    alloc: Global,
    input: &mut S,
    plugins: &Vec<Box<dyn Plugin>>,
) -> Result<Bytes, Outcome>
    ensures gives { Told (Unit {0}) (S.left input.old) (λ bytes. Gives printed (source_shows (Rose (S.faults input.old) (S.faults input.new))) (command_ruling (handed ⟦<dyn Plugin as Plugin>⟧ plugins.now.items) Command.Run bytes) result) }
    ensures most { ReadsWithin (S.left input.old) (S.left input.new) (most_read (Ok Command.Run)) }
    ensures end { OnOk result (IsAtEnd (S.left input.new)) }
    ensures cause { IfErr result (Caused (source_shows (Rose (S.faults input.old) (S.faults input.new)))) }
    ensures can { IfErr result (CanCome (Ok Command.Run)) }
    ensures later { S.faults input.old ≤ S.faults input.new }
{
    let script = script_bytes(alloc, input)?;
    answer(alloc, script.as_slice(), plugins)
}

// The text of a command, up to the step before it is written.
fn command_text<S: Source>(
    alloc: Global,
    command: Command,
    input: &mut S,
    plugins: &Vec<Box<dyn Plugin>>,
) -> Result<Bytes, Outcome>
    ensures gives { Told (HasInput command) (S.left input.old) (λ bytes. Gives printed (call_shows (Ok command) (Rose (S.faults input.old) (S.faults input.new)) ⊥) (command_ruling (handed ⟦<dyn Plugin as Plugin>⟧ plugins.now.items) command bytes) result) }
    ensures most { ReadsWithin (S.left input.old) (S.left input.new) (most_read (Ok command)) }
    ensures end { OnOk result (HasInput command → IsAtEnd (S.left input.new)) }
    ensures unread { ¬ (HasInput command) → input.new ≡ input.old }
    ensures cause { IfErr result (Caused (source_shows (Rose (S.faults input.old) (S.faults input.new)))) }
    ensures can { IfErr result (CanCome (Ok command)) }
    ensures later { S.faults input.old ≤ S.faults input.new }
{
    match command {
        Command::Run => run_text(alloc, input, plugins),
    }
}

// The steps before the text is written.
fn text_to_write<S: Source>(
    alloc: Global,
    words: &List<Word>,
    input: &mut S,
    plugins: &Vec<Box<dyn Plugin>>,
) -> Result<Bytes, Outcome>
    ensures gives { Told (ReadsInput (command_of words.now)) (S.left input.old) (λ bytes. Gives printed (call_shows (command_of words.now) (Rose (S.faults input.old) (S.faults input.new)) ⊥) (ruling (handed ⟦<dyn Plugin as Plugin>⟧ plugins.now.items) words.now bytes) result) }
    ensures usage { ByWords (command_of words.now) (outcome_of result) }
    ensures most { ReadsWithin (S.left input.old) (S.left input.new) (most_read (command_of words.now)) }
    ensures end { OnOk result (ReadsInput (command_of words.now) → IsAtEnd (S.left input.new)) }
    ensures unread { ¬ (ReadsInput (command_of words.now)) → input.new ≡ input.old }
    ensures cause { IfErr result (Caused (source_shows (Rose (S.faults input.old) (S.faults input.new)))) }
    ensures can { CanCome (command_of words.now) (outcome_of result) }
    ensures later { S.faults input.old ≤ S.faults input.new }
{
    let command = read_command(words)?;
    command_text(alloc, command, input, plugins)
}

// The steps in their order, without the line on the error stream.
fn run<S: Source, O: Sink>(
    alloc: Global,
    words: &List<Word>,
    input: &mut S,
    out: &mut O,
    plugins: &Vec<Box<dyn Plugin>>,
) -> Outcome
    ensures tells { Told (ReadsInput (command_of words.now)) (S.left input.old) (λ bytes. Tells (call_shows (command_of words.now) (Rose (S.faults input.old) (S.faults input.new)) (Rose (O.faults out.old) (O.faults out.new))) (ruling (handed ⟦<dyn Plugin as Plugin>⟧ plugins.now.items) words.now bytes) result (O.held out.old) (O.held out.new)) }
    ensures answered { Told (ReadsInput (command_of words.now)) (S.left input.old) (λ bytes. (result ≡ Outcome.Done) ⊎ (result ≡ Outcome.SinkFault) → IsOk (ruling (handed ⟦<dyn Plugin as Plugin>⟧ plugins.now.items) words.now bytes)) }
    ensures usage { ByWords (command_of words.now) result }
    ensures source { result ≡ Outcome.SourceFault → Rose (S.faults input.old) (S.faults input.new) }
    ensures sink { result ≡ Outcome.SinkFault → Rose (O.faults out.old) (O.faults out.new) }
    ensures can { CanCome (command_of words.now) result }
    ensures most { ReadsWithin (S.left input.old) (S.left input.new) (most_read (command_of words.now)) }
    ensures end { result ≡ Outcome.Done → ReadsInput (command_of words.now) → IsAtEnd (S.left input.new) }
    ensures unread { ¬ (ReadsInput (command_of words.now)) → input.new ≡ input.old }
    ensures quiet { Quiet (out.new ≡ out.old) result }
    ensures later_input { S.faults input.old ≤ S.faults input.new }
    ensures later_out { O.faults out.old ≤ O.faults out.new }
{
    match text_to_write(alloc, words, input, plugins) {
        Ok(text) => match write_whole(out, text.as_slice()) {
            Ok(()) => Outcome::Done,
            Err(_) => Outcome::SinkFault,
        },
        Err(outcome) => outcome,
    }
}

/// Runs the words over the input, and writes the text to `out` and the line of any outcome but `Done` to `err`. The
/// plugins are what applies take their tuples from; no script has an apply yet.
pub fn lara<S: Source, O: Sink, E: Sink>(
    alloc: Global,
    words: &List<Word>,
    input: &mut S,
    out: &mut O,
    err: &mut E,
    plugins: &Vec<Box<dyn Plugin>>,
) -> Outcome
    // How the run ends, and what `out` has then, are as the ruling on the words and the input says. The clauses behind this
    // one say each thing by itself.
    ensures tells { Told (ReadsInput (command_of words.now)) (S.left input.old) (λ bytes. Tells (call_shows (command_of words.now) (Rose (S.faults input.old) (S.faults input.new)) (Rose (O.faults out.old) (O.faults out.new))) (ruling (handed ⟦<dyn Plugin as Plugin>⟧ plugins.now.items) words.now bytes) result (O.held out.old) (O.held out.new)) }

    // Done: the input was read to its end, `out` has the whole text, and `err` got nothing.
    ensures done_read { result ≡ Outcome.Done → ReadsInput (command_of words.now) → IsAtEnd (S.left input.new) }
    ensures done_text { Told (ReadsInput (command_of words.now)) (S.left input.old) (λ bytes. (answer : Answer) → result ≡ Outcome.Done → ruling (handed ⟦<dyn Plugin as Plugin>⟧ plugins.now.items) words.now bytes ≡ Ok answer → Adds (O.held out.old) (O.held out.new) answer.text) }
    ensures done_only { Told (ReadsInput (command_of words.now)) (S.left input.old) (λ bytes. result ≡ Outcome.Done → IsOk (ruling (handed ⟦<dyn Plugin as Plugin>⟧ plugins.now.items) words.now bytes)) }
    ensures done_line { result ≡ Outcome.Done → err.new ≡ err.old }

    // The input is read at most one byte past the limit of its command, and not at all where the command has none.
    ensures reads_most { ReadsWithin (S.left input.old) (S.left input.new) (most_read (command_of words.now)) }
    ensures unread { ¬ (ReadsInput (command_of words.now)) → input.new ≡ input.old }

    // Any other outcome: `out` is as it was, or has a front of the text where the writing itself ended the run.
    ensures other_nothing { Quiet (out.new ≡ out.old) result }
    ensures other_front { Told (ReadsInput (command_of words.now)) (S.left input.old) (λ bytes. Front (ruling (handed ⟦<dyn Plugin as Plugin>⟧ plugins.now.items) words.now bytes) (O.held out.old) (O.held out.new)) }
    ensures other_line { AddsFront (E.held err.old) (E.held err.new) (line_of result) }
    ensures other_whole_line { ¬ (Rose (E.faults err.old) (E.faults err.new)) → Adds (E.held err.old) (E.held err.new) (line_of result) }

    // Each outcome comes only, or exactly, where its cause holds. A refusal comes exactly where the ruling says so; where the
    // words alone are wrong, for certain.
    ensures can_come { CanCome (command_of words.now) result }
    ensures usage { ByWords (command_of words.now) result }
    ensures refusals { (refusal : Outcome) → IsExact refusal → Told (ReadsInput (command_of words.now)) (S.left input.old) (λ bytes. Exactly (ruling (handed ⟦<dyn Plugin as Plugin>⟧ plugins.now.items) words.now bytes) refusal result) }
    ensures script { (at : ℕ) (kind : Kind) → Told (ReadsInput (command_of words.now)) (S.left input.old) (λ bytes. Exactly (ruling (handed ⟦<dyn Plugin as Plugin>⟧ plugins.now.items) words.now bytes) (Outcome.Script at kind) result) }
    ensures range { (statement : ℕ) → Told (ReadsInput (command_of words.now)) (S.left input.old) (λ bytes. Exactly (ruling (handed ⟦<dyn Plugin as Plugin>⟧ plugins.now.items) words.now bytes) (Outcome.Range statement) result) }

    // A run, in the relations of the grammar and of the types themselves: which bytes are a script of which statements, and
    // why the others are none (specs/RunRelations.antt).
    ensures relations { command_of words.now ≡ Ok Command.Run → Told (ReadsInput (command_of words.now)) (S.left input.old) (λ bytes. RunTells (handed ⟦<dyn Plugin as Plugin>⟧ plugins.now.items) bytes result (O.held out.old) (O.held out.new)) }

    // A fault comes only where that device's count rose, of the input only where the words are a command, and of the output
    // only where the rules answer.
    ensures source_fault { result ≡ Outcome.SourceFault → Rose (S.faults input.old) (S.faults input.new) }
    ensures source_reached { Told (ReadsInput (command_of words.now)) (S.left input.old) (λ bytes. result ≡ Outcome.SourceFault → Reaches at_input (ruling (handed ⟦<dyn Plugin as Plugin>⟧ plugins.now.items) words.now bytes)) }
    ensures sink_fault { result ≡ Outcome.SinkFault → Rose (O.faults out.old) (O.faults out.new) }
    ensures sink_reached { Told (ReadsInput (command_of words.now)) (S.left input.old) (λ bytes. result ≡ Outcome.SinkFault → IsOk (ruling (handed ⟦<dyn Plugin as Plugin>⟧ plugins.now.items) words.now bytes)) }

    // No count of faults falls.
    ensures later_input { S.faults input.old ≤ S.faults input.new }
    ensures later_out { O.faults out.old ≤ O.faults out.new }
    ensures later_err { E.faults err.old ≤ E.faults err.new }

    // Where nothing stands in the way, the run is done.
    ensures complete { Told (ReadsInput (command_of words.now)) (S.left input.old) (λ bytes. IsOk (ruling (handed ⟦<dyn Plugin as Plugin>⟧ plugins.now.items) words.now bytes) → ¬ (Rose (S.faults input.old) (S.faults input.new)) → ¬ (Rose (O.faults out.old) (O.faults out.new)) → (result ≡ Outcome.Done) ⊎ (result ≡ Outcome.Memory)) }
{
    let outcome = run(alloc, words, input, out, plugins);
    if outcome != Outcome::Done {
        report(err, outcome);
    }
    outcome
}
