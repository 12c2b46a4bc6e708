//! The words of the command line, from a list that tells them and from an environment made by hand, and a call whose words
//! or plugins found no memory.
ghost use Rattle.std.specs.Prelude.{Some};

use crate::arguments::arguments;
use crate::call::call;
use crate::invocation::{Invocation, SystemInvocation};
use crate::tests::{is_held, sink, source, words_of};
use lara_base::{List, Word};
use lara_data::Plugin;
use std::alloc::{AllocError, Global};
use std::env::{Env, FillError};
use std::test::Fail;

#[derive(Drop)]
struct Told {
    arguments: List<Word>,
}

impl Invocation for Told {
    ghost arguments = { λ t. Some t.arguments };

    fn argument(&self, number: usize, buf: &mut [u8]) -> Result<usize, FillError> {
        let Some(word) = self.arguments.get(number) else {
            return Err(FillError::NotPresent);
        };
        if word.len() > buf.len() {
            return Err(FillError::TooLong);
        }
        buf[..word.len()].copy_from_slice(word.as_slice());
        Ok(word.len())
    }
}

impl Env for Told {
    fn arg(&self, i: usize, buf: &mut [u8]) -> Result<usize, FillError> {
        self.argument(i, buf)
    }

    fn var(&self, _name: &str, _buf: &mut [u8]) -> Result<usize, FillError> {
        Err(FillError::NotPresent)
    }

    fn var_at(&self, _i: usize, _buf: &mut [u8]) -> Result<usize, FillError> {
        Err(FillError::NotPresent)
    }
}

// Whether these arguments are these words, from a list that tells them and from an environment.
fn are_words(alloc: Global, whole: &[&[u8]], words: &[&[u8]]) -> Result<bool, AllocError> {
    let told = Told {
        arguments: words_of(alloc, whole)?,
    };
    let want = words_of(alloc, words)?;
    Ok(arguments(alloc, &told)? == want && arguments(alloc, &SystemInvocation::new(&told))? == want)
}

#[test]
fn arguments_are_words_in_their_order(rt: HostRuntime) -> Result<(), Fail> {
    let alloc = rt.alloc();
    let long = [b'x'; 600];
    let whole: [&[u8]; 5] = [b"lara", b"run", b"", b"\xff\0", &long];
    for count in 0..6usize {
        assert!(rt;
            are_words(alloc, &whole[..count], &whole[count.min(1)..count])?,
            "at {count}"
        );
    }
    Ok(())
}

// The exit status of a call with these words and plugins over this script, or none where something else stands on `out` or on `err`
// after it.
fn call_status(
    alloc: Global,
    words: Result<List<Word>, AllocError>,
    plugins: Result<Vec<Box<dyn Plugin>>, AllocError>,
    out_want: &[u8],
    err_want: &[u8],
) -> Result<Option<u8>, AllocError> {
    let mut input = source(alloc, b"T = table [: v: count] { :4 }; print T;", 9, 0)?;
    let mut out = sink(alloc, 9, 0)?;
    let mut err = sink(alloc, 9, 0)?;
    let outcome = call(alloc, words, &mut input, &mut out, &mut err, plugins);
    if is_held(&out, out_want) && is_held(&err, err_want) {
        Ok(Some(outcome.status()))
    } else {
        Ok(None)
    }
}

#[test]
fn without_words_a_call_is_out_of_memory(rt: HostRuntime) -> Result<(), Fail> {
    let alloc = rt.alloc();
    let plugins = Ok(Vec::new(alloc));
    let status = call_status(
        alloc,
        Err(AllocError),
        plugins,
        b"",
        b"lara: out of memory\n",
    )?;
    assert_eq!(rt; status, Some(11));
    Ok(())
}

#[test]
fn without_plugins_a_call_is_out_of_memory(rt: HostRuntime) -> Result<(), Fail> {
    let alloc = rt.alloc();
    let words = words_of(alloc, &[b"run"]);
    let status = call_status(alloc, words, Err(AllocError), b"", b"lara: out of memory\n")?;
    assert_eq!(rt; status, Some(11));
    Ok(())
}

#[test]
fn with_words_a_call_is_that_of_lara(rt: HostRuntime) -> Result<(), Fail> {
    let alloc = rt.alloc();
    let words = words_of(alloc, &[b"run"]);
    let plugins = Ok(Vec::new(alloc));
    let status = call_status(alloc, words, plugins, b"T[: v: count]\n:4\nend 1\n", b"")?;
    assert_eq!(rt; status, Some(0));
    Ok(())
}
