//! `lara`: tables of keys and values, as a script makes them, printed.
//!
//! The program: it makes the real input and outputs, calls the top call, and exits with its status. Its modules hold
//! the top call and its steps; the top call's clauses are the theorem.
#![tactic(auto)]

mod answer;
mod arguments;
mod call;
mod input;
mod invocation;
mod line;
mod outcome;
mod output;
mod prints;
mod ranges;
mod report;
mod table_text;
mod top;
mod words;

use arguments::arguments;
use call::call;
use invocation::SystemInvocation;
use lara_base::{StderrSink, StdinSource, StdoutSink};
pub use outcome::{Outcome, Room, TripleKind};
use std::process::ExitCode;
pub use top::lara;

fn main(rt: HostRuntime) -> ExitCode {
    let alloc = rt.alloc();
    let outcome = call(
        alloc,
        arguments(alloc, &SystemInvocation::new(&rt)),
        &mut StdinSource::new(rt.stdin()),
        &mut StdoutSink::new(rt.stdout()),
        &mut StderrSink::new(rt.stderr()),
        Ok(Vec::new(alloc)),
    );
    outcome.exit_code()
}

#[cfg(test)]
mod tests;
#[cfg(test)]
mod tests_arguments;
#[cfg(test)]
mod tests_exprs;
#[cfg(test)]
mod tests_operators;
#[cfg(test)]
mod tests_plugins;
#[cfg(test)]
mod tests_random;
#[cfg(test)]
mod tests_report;
#[cfg(test)]
mod tests_stored;
#[cfg(test)]
mod tests_tables;
#[cfg(test)]
mod tests_types;
