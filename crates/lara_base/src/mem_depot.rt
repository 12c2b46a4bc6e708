//! A depot in memory, which fails at the calls that a list names.
ghost use Rattle.std.specs.Prelude.{◌≡◌, ◌-◌, ◌++◌, [], None, Some, take, drop, length, min, option_map, OnOk, OnErr, IsOk, IsSome, IfSome, ◌<◌};
ghost use Rattle.std.specs.Map.{update};
ghost use Rattle.lara_base.specs.Depots.{same_name, appended};
ghost use Rattle.lara_base.specs.MemDepots.{files_in, place_in, depot_files, depot_faults, depot_calls, depot_fails};

use crate::calls::Calls;
use crate::depot::Depot;
use crate::file_name::FileName;
use crate::list::{Bytes, List};
use crate::streams::Failed;
use std::alloc::{AllocError, Global};

// A file that is held.
#[derive(Drop)]
struct MemFile {
    name: FileName,
    bytes: Bytes,
}

/// Files in a list. It tells them. A call goes along the names once, and takes or gives only the bytes that it is asked
/// for, so that its time grows with the number of files and with those bytes.
#[derive(Drop)]
pub struct MemDepot {
    alloc: Global,
    files: Vec<MemFile>,
    calls: Calls,
}

impl MemDepot {
    /// No files. Calls are numbered from 1, and those in `fails` fail, as does a call that finds no memory.
    pub fn new(alloc: Global, fails: List<u64>) -> MemDepot
        ensures files { depot_files result ≡ (λ _. None) }
        ensures faults { depot_faults result ≡ 0 }
        ensures calls { depot_calls result ≡ 0 }
        ensures fails { depot_fails result ≡ fails }
    {
        MemDepot {
            alloc,
            files: Vec::new(alloc),
            calls: Calls::new(fails),
        }
    }

    /// The number of calls so far.
    pub fn calls(&self) -> u64
        ensures { result ≡ depot_calls self.now }
    {
        self.calls.made()
    }
}

// Where the first file of this name stands.
fn place(files: &[MemFile], name: &FileName) -> Option<usize>
    ensures first { result ≡ place_in files.now name.now }
    ensures bound { IfSome result (λ at. at < length files.now) }
{
    files.iter().position(|file| file.name == *name)
}

// The bytes of the first file of this name.
#[tactic(auto, using(crate::proofs::HeldFiles::file_at, crate::proofs::HeldFiles::no_file))]
fn find<'a>(files: &'a [MemFile], name: &FileName) -> Option<&'a [u8]>
    ensures { option_map (λ bytes. bytes.now) result ≡ files_in files.now name.now }
{
    match place(files, name) {
        Some(at) => Some(files[at].bytes.as_slice()),
        None => None,
    }
}

// Puts a file of these bytes in the place of the one of this name, or behind the others.
#[tactic(auto, using(crate::proofs::HeldFiles::no_file))]
fn put(files: &mut Vec<MemFile>, name: &FileName, bytes: Bytes) -> Result<(), AllocError>
    ensures ok { OnOk result (files_in files.new.items ≡ update same_name (files_in files.old.items) name.now (Some bytes)) }
    ensures err { OnErr result (files.new.items ≡ files.old.items) }
    ensures sure { IsSome (files_in files.old.items name.now) → IsOk result }
{
    match place(files, name) {
        Some(at) => {
            files[at].bytes = bytes;
            Ok(())
        }
        None => {
            files.push(MemFile { name: *name, bytes })?;
            Ok(())
        }
    }
}

// Adds the bytes at the end of the file of this name, or puts a file of them behind the others.
#[tactic(auto, using(crate::proofs::HeldFiles::no_file))]
fn add(
    alloc: Global,
    files: &mut Vec<MemFile>,
    name: &FileName,
    bytes: &[u8],
) -> Result<(), AllocError>
    ensures ok { OnOk result (files_in files.new.items ≡ update same_name (files_in files.old.items) name.now (appended bytes.now (files_in files.old.items name.now))) }
    ensures err { OnErr result (files.new.items ≡ files.old.items) }
    ensures sure { IsSome (files_in files.old.items name.now) → bytes.now ≡ [] → IsOk result }
{
    match place(files, name) {
        Some(at) => {
            let file = &mut files[at];
            file.bytes.extend_from_slice(bytes)?;
            Ok(())
        }
        None => {
            files.push(MemFile {
                name: *name,
                bytes: List::from_slice(alloc, bytes)?,
            })?;
            Ok(())
        }
    }
}

// Puts a file of a copy of these bytes in the place of the one of this name, or behind the others.
fn store(
    alloc: Global,
    files: &mut Vec<MemFile>,
    name: &FileName,
    bytes: &[u8],
) -> Result<(), AllocError>
    ensures ok { OnOk result (files_in files.new.items ≡ update same_name (files_in files.old.items) name.now (Some bytes.now)) }
    ensures err { OnErr result (files.new.items ≡ files.old.items) }
    ensures sure { IsSome (files_in files.old.items name.now) → bytes.now ≡ [] → IsOk result }
{
    put(files, name, List::from_slice(alloc, bytes)?)
}

// Takes the file of this name away.
fn take_away(files: &mut Vec<MemFile>, name: &FileName)
    ensures { files_in files.new.items ≡ update same_name (files_in files.old.items) name.now None }
{
    files.retain(|file| file.name != *name);
}

// Puts the bytes from a place on into the front of the buffer, as many as it has room for or there are.
fn give(bytes: &[u8], at: u64, buf: &mut [u8]) -> usize
    ensures count { result ≡ min (length buf.old) (length bytes.now - at) }
    ensures given { buf.new ≡ take result (drop at bytes.now) ++ drop result buf.old }
{
    if at >= bytes.len() as u64 {
        return 0;
    }
    let rest = &bytes[at as usize..];
    let count = rest.len().min(buf.len());
    buf[..count].copy_from_slice(&rest[..count]);
    count
}

impl Depot for MemDepot {
    ghost use Rattle.std.specs.Prelude.{◌↔◌, IsErr, IfOk, IfSome, MatchResult, Contains};
    ghost use Rattle.std.specs.Io.{ReadsAtMost};
    ghost use Rattle.lara_base.specs.Causes.{HasCause, Counts};
    ghost use Rattle.lara_base.specs.Depots.{Reads, Changes, begun, appended, replaced, removed, MayBegin, MayAppend, MayRemove, Others};
    ghost use Rattle.lara_base.specs.MemDepots.{depot_files, depot_faults, depot_call, depot_fails, Goes};

    ghost told = { λ d. Some (depot_files d) };

    ghost faults = { depot_faults };

    fn len(&mut self, name: &FileName) -> Result<Option<u64>, Failed>
        ensures len { IfOk result (λ n. n ≡ option_map length (depot_files self.old name.now)) }
        ensures files { Some (depot_files self.new) ≡ Some (depot_files self.old) }
        ensures cause { HasCause (depot_faults self.old) (depot_faults self.new) result }

        // Just the listed calls fail. The next call has the next number.
        ensures listed { IsErr result ↔ Contains (depot_fails self.old) (depot_call self.old) }
        ensures counts { Counts (depot_faults self.old) (depot_faults self.new) result }
        ensures goes { Goes self.old self.new }
    {
        self.calls.make()?;
        match find(&self.files, name) {
            Some(bytes) => Ok(Some(bytes.len() as u64)),
            None => Ok(None),
        }
    }

    fn read(&mut self, name: &FileName, at: u64, buf: &mut [u8]) -> Result<usize, Failed>
        ensures bound { ReadsAtMost result buf.new }
        ensures bytes { IfOk result (λ n. Reads (depot_files self.old name.now) at n buf.new) }
        ensures files { Some (depot_files self.new) ≡ Some (depot_files self.old) }
        ensures cause { HasCause (depot_faults self.old) (depot_faults self.new) result }

        // Just the listed calls fail, and what stands in the buffer behind what is given stays.
        ensures listed { IsErr result ↔ Contains (depot_fails self.old) (depot_call self.old) }
        ensures behind { MatchResult result (λ n. drop n buf.new ≡ drop n buf.old) (λ _. buf.new ≡ buf.old) }
        ensures counts { Counts (depot_faults self.old) (depot_faults self.new) result }
        ensures goes { Goes self.old self.new }
    {
        self.calls.make()?;
        match find(&self.files, name) {
            Some(bytes) => Ok(give(bytes, at, buf)),
            None => Ok(0),
        }
    }

    fn begin(&mut self, name: &FileName) -> Result<(), Failed>
        ensures ok { OnOk result (Changes (Some (depot_files self.old)) (Some (depot_files self.new)) name.now begun) }
        ensures err { OnErr result (MayBegin (Some (depot_files self.old)) (Some (depot_files self.new)) name.now) }
        ensures others { Others (Some (depot_files self.old)) (Some (depot_files self.new)) name.now }
        ensures cause { HasCause (depot_faults self.old) (depot_faults self.new) result }

        // The listed calls fail, and a call that finds no memory, which nothing asks for where the file is there. A call
        // that fails leaves each file as it was.
        ensures listed { Contains (depot_fails self.old) (depot_call self.old) → IsErr result }
        ensures there { IsSome (depot_files self.old name.now) → ¬ (Contains (depot_fails self.old) (depot_call self.old)) → IsOk result }
        ensures kept { OnErr result (depot_files self.new ≡ depot_files self.old) }
        ensures counts { Counts (depot_faults self.old) (depot_faults self.new) result }
        ensures goes { Goes self.old self.new }
    {
        self.calls.make()?;
        match put(&mut self.files, name, List::new(self.alloc)) {
            Ok(()) => Ok(()),
            Err(_) => Err(self.calls.fault()),
        }
    }

    fn append(&mut self, name: &FileName, bytes: &[u8]) -> Result<(), Failed>
        ensures ok { OnOk result (Changes (Some (depot_files self.old)) (Some (depot_files self.new)) name.now (appended bytes.now)) }
        ensures err { OnErr result (MayAppend (Some (depot_files self.old)) (Some (depot_files self.new)) name.now bytes.now) }
        ensures others { Others (Some (depot_files self.old)) (Some (depot_files self.new)) name.now }
        ensures cause { HasCause (depot_faults self.old) (depot_faults self.new) result }

        // The listed calls fail, and a call that finds no memory, which nothing asks for where nothing is added to a file
        // that is there. A call that fails leaves each file as it was.
        ensures listed { Contains (depot_fails self.old) (depot_call self.old) → IsErr result }
        ensures there { IsSome (depot_files self.old name.now) → bytes.now ≡ [] → ¬ (Contains (depot_fails self.old) (depot_call self.old)) → IsOk result }
        ensures kept { OnErr result (depot_files self.new ≡ depot_files self.old) }
        ensures counts { Counts (depot_faults self.old) (depot_faults self.new) result }
        ensures goes { Goes self.old self.new }
    {
        self.calls.make()?;
        match add(self.alloc, &mut self.files, name, bytes) {
            Ok(()) => Ok(()),
            Err(_) => Err(self.calls.fault()),
        }
    }

    fn replace(&mut self, name: &FileName, bytes: &[u8]) -> Result<(), Failed>
        ensures ok { OnOk result (Changes (Some (depot_files self.old)) (Some (depot_files self.new)) name.now (replaced bytes.now)) }
        ensures err { OnErr result (Some (depot_files self.new) ≡ Some (depot_files self.old)) }
        ensures others { Others (Some (depot_files self.old)) (Some (depot_files self.new)) name.now }
        ensures cause { HasCause (depot_faults self.old) (depot_faults self.new) result }

        // The listed calls fail, and a call that finds no memory, which nothing asks for where nothing replaces a file
        // that is there.
        ensures listed { Contains (depot_fails self.old) (depot_call self.old) → IsErr result }
        ensures there { IsSome (depot_files self.old name.now) → bytes.now ≡ [] → ¬ (Contains (depot_fails self.old) (depot_call self.old)) → IsOk result }
        ensures counts { Counts (depot_faults self.old) (depot_faults self.new) result }
        ensures goes { Goes self.old self.new }
    {
        self.calls.make()?;
        match store(self.alloc, &mut self.files, name, bytes) {
            Ok(()) => Ok(()),
            Err(_) => Err(self.calls.fault()),
        }
    }

    fn remove(&mut self, name: &FileName) -> Result<(), Failed>
        ensures ok { OnOk result (Changes (Some (depot_files self.old)) (Some (depot_files self.new)) name.now removed) }
        ensures err { OnErr result (MayRemove (Some (depot_files self.old)) (Some (depot_files self.new)) name.now) }
        ensures others { Others (Some (depot_files self.old)) (Some (depot_files self.new)) name.now }
        ensures cause { HasCause (depot_faults self.old) (depot_faults self.new) result }

        // Just the listed calls fail, and leave each file as it was.
        ensures listed { IsErr result ↔ Contains (depot_fails self.old) (depot_call self.old) }
        ensures kept { OnErr result (depot_files self.new ≡ depot_files self.old) }
        ensures counts { Counts (depot_faults self.old) (depot_faults self.new) result }
        ensures goes { Goes self.old self.new }
    {
        self.calls.make()?;
        take_away(&mut self.files, name);
        Ok(())
    }
}
