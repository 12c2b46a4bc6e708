//! The top call for words and plugins that may have found no memory.
ghost use Rattle.std.specs.Prelude.{IsOk, IsErr, ◌≡◌, ◌≤◌, ◌⊎◌, ℕ, List, Some, Ok, IfOk};
ghost use Rattle.std.specs.Io.KnownBytes.{IsAtEnd};
ghost use Rattle.lara_base.specs.Causes.{Rose};
ghost use Rattle.lara_base.specs.Moves.{Adds, AddsFront, ReadsWithin};
ghost use Rattle.lara.specs.Words.{command_of};
ghost use Rattle.lara.specs.Commands.{ReadsInput, Told, CanCome, most_read};
ghost use Rattle.lara.specs.Ruling.{Answer, ruling, Front, Tells, call_shows};
ghost use Rattle.lara.specs.Endings.{Quiet, Exactly, IsExact, ByWords, Reaches};
ghost use Rattle.lara.specs.Stops.{at_input};
ghost use Rattle.lara.specs.RunRelations.{RunTells};
ghost use Rattle.lara.specs.declared.words.Command.TheVariants.{Run};
ghost use Rattle.lara.specs.declared.outcome.Outcome.{Outcome};
ghost use Rattle.lara.specs.Lines.{line_of};
ghost use Rattle.lara_data.specs.declared.refusal.Kind.{Kind};
ghost use Rattle.lara_data.specs.Plugins.{handed};

use crate::outcome::Outcome;
use crate::report::report;
use crate::top::lara;
use lara_base::{List, Sink, Source, Word};
use lara_data::Plugin;
use std::alloc::{AllocError, Global};

/// Calls `lara` with the words and the plugins. Where either found no memory, that alone is reported.
pub fn call<S: Source, O: Sink, E: Sink>(
    alloc: Global,
    words: Result<List<Word>, AllocError>,
    input: &mut S,
    out: &mut O,
    err: &mut E,
    plugins: Result<Vec<Box<dyn Plugin>>, AllocError>,
) -> Outcome
    // Without words or without plugins: want of memory, and `input` and `out` are as they were.
    ensures no_words { IsErr words → result ≡ Outcome.Memory }
    ensures no_words_input { IsErr words → input.new ≡ input.old }
    ensures no_words_out { IsErr words → out.new ≡ out.old }
    ensures no_plugins { IsErr plugins → result ≡ Outcome.Memory }
    ensures no_plugins_input { IsErr plugins → input.new ≡ input.old }
    ensures no_plugins_out { IsErr plugins → out.new ≡ out.old }

    // Else, and of `err` always, the clauses of `lara`.
    ensures tells { IfOk words (λ words. IfOk plugins (λ plugins. Told (ReadsInput (command_of words)) (S.left input.old) (λ bytes. Tells (call_shows (command_of words) (Rose (S.faults input.old) (S.faults input.new)) (Rose (O.faults out.old) (O.faults out.new))) (ruling (handed ⟦<dyn Plugin as Plugin>⟧ plugins.items) words bytes) result (O.held out.old) (O.held out.new)))) }
    ensures done_read { IfOk words (λ words. IfOk plugins (λ plugins. result ≡ Outcome.Done → ReadsInput (command_of words) → IsAtEnd (S.left input.new))) }
    ensures done_text { IfOk words (λ words. IfOk plugins (λ plugins. Told (ReadsInput (command_of words)) (S.left input.old) (λ bytes. (answer : Answer) → result ≡ Outcome.Done → ruling (handed ⟦<dyn Plugin as Plugin>⟧ plugins.items) words bytes ≡ Ok answer → Adds (O.held out.old) (O.held out.new) answer.text))) }
    ensures done_only { IfOk words (λ words. IfOk plugins (λ plugins. Told (ReadsInput (command_of words)) (S.left input.old) (λ bytes. result ≡ Outcome.Done → IsOk (ruling (handed ⟦<dyn Plugin as Plugin>⟧ plugins.items) words bytes)))) }
    ensures done_line { result ≡ Outcome.Done → err.new ≡ err.old }
    ensures reads_most { IfOk words (λ words. IfOk plugins (λ plugins. ReadsWithin (S.left input.old) (S.left input.new) (most_read (command_of words)))) }
    ensures unread { IfOk words (λ words. IfOk plugins (λ plugins. ¬ (ReadsInput (command_of words)) → input.new ≡ input.old)) }
    ensures other_nothing { Quiet (out.new ≡ out.old) result }
    ensures other_front { IfOk words (λ words. IfOk plugins (λ plugins. Told (ReadsInput (command_of words)) (S.left input.old) (λ bytes. Front (ruling (handed ⟦<dyn Plugin as Plugin>⟧ plugins.items) words bytes) (O.held out.old) (O.held out.new)))) }
    ensures other_line { AddsFront (E.held err.old) (E.held err.new) (line_of result) }
    ensures other_whole_line { ¬ (Rose (E.faults err.old) (E.faults err.new)) → Adds (E.held err.old) (E.held err.new) (line_of result) }
    ensures can_come { IfOk words (λ words. IfOk plugins (λ plugins. CanCome (command_of words) result)) }
    ensures usage { IfOk words (λ words. IfOk plugins (λ plugins. ByWords (command_of words) result)) }
    ensures refusals { IfOk words (λ words. IfOk plugins (λ plugins. (refusal : Outcome) → IsExact refusal → Told (ReadsInput (command_of words)) (S.left input.old) (λ bytes. Exactly (ruling (handed ⟦<dyn Plugin as Plugin>⟧ plugins.items) words bytes) refusal result))) }
    ensures script { IfOk words (λ words. IfOk plugins (λ plugins. (at : ℕ) (kind : Kind) → Told (ReadsInput (command_of words)) (S.left input.old) (λ bytes. Exactly (ruling (handed ⟦<dyn Plugin as Plugin>⟧ plugins.items) words bytes) (Outcome.Script at kind) result))) }
    ensures range { IfOk words (λ words. IfOk plugins (λ plugins. (statement : ℕ) → Told (ReadsInput (command_of words)) (S.left input.old) (λ bytes. Exactly (ruling (handed ⟦<dyn Plugin as Plugin>⟧ plugins.items) words bytes) (Outcome.Range statement) result))) }
    ensures relations { IfOk words (λ words. IfOk plugins (λ plugins. command_of words ≡ Ok Run → Told (ReadsInput (command_of words)) (S.left input.old) (λ bytes. RunTells (handed ⟦<dyn Plugin as Plugin>⟧ plugins.items) bytes result (O.held out.old) (O.held out.new)))) }
    ensures source_fault { result ≡ Outcome.SourceFault → Rose (S.faults input.old) (S.faults input.new) }
    ensures source_reached { IfOk words (λ words. IfOk plugins (λ plugins. Told (ReadsInput (command_of words)) (S.left input.old) (λ bytes. result ≡ Outcome.SourceFault → Reaches at_input (ruling (handed ⟦<dyn Plugin as Plugin>⟧ plugins.items) words bytes)))) }
    ensures sink_fault { result ≡ Outcome.SinkFault → Rose (O.faults out.old) (O.faults out.new) }
    ensures sink_reached { IfOk words (λ words. IfOk plugins (λ plugins. Told (ReadsInput (command_of words)) (S.left input.old) (λ bytes. result ≡ Outcome.SinkFault → IsOk (ruling (handed ⟦<dyn Plugin as Plugin>⟧ plugins.items) words bytes)))) }
    ensures later_input { S.faults input.old ≤ S.faults input.new }
    ensures later_out { O.faults out.old ≤ O.faults out.new }
    ensures later_err { E.faults err.old ≤ E.faults err.new }
    ensures complete { IfOk words (λ words. IfOk plugins (λ plugins. Told (ReadsInput (command_of words)) (S.left input.old) (λ bytes. IsOk (ruling (handed ⟦<dyn Plugin as Plugin>⟧ plugins.items) words bytes) → ¬ (Rose (S.faults input.old) (S.faults input.new)) → ¬ (Rose (O.faults out.old) (O.faults out.new)) → (result ≡ Outcome.Done) ⊎ (result ≡ Outcome.Memory)))) }
{
    let (Ok(words), Ok(plugins)) = (words, plugins) else {
        report(err, Outcome::Memory);
        return Outcome::Memory;
    };
    lara(alloc, &words, input, out, err, &plugins)
}
