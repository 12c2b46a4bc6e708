//! What no clause says: that a depot in memory finds memory, and each of its calls through the trait.
ghost use Rattle.std.specs.Prelude.{Some, OnOk};
ghost use Rattle.lara_base.specs.Causes.{HasCause};
ghost use Rattle.lara_base.specs.Depots.{Holds, Others};

use crate::{Depot, Failed, FileName, List, MemDepot};
use std::alloc::{AllocError, Global};
use std::test::Fail;

const FIRST: FileName = FileName::Cells {
    generation: 1,
    number: 0,
};

const SECOND: FileName = FileName::Cells {
    generation: 1,
    number: 1,
};

// Makes the file anew, of these bytes. Two calls in a row are one change.
fn write<D: Depot>(depot: &mut D, name: &FileName, bytes: &[u8]) -> Result<(), Failed>
    ensures file { OnOk result (Holds (D.told depot.new) name.now (Some bytes.now)) }
    ensures others { Others (D.told depot.old) (D.told depot.new) name.now }
    ensures cause { HasCause (D.faults depot.old) (D.faults depot.new) result }
{
    depot.begin(name)?;
    depot.append(name, bytes)
}

fn len<D: Depot>(depot: &mut D, name: &FileName) -> Result<Option<u64>, Failed> {
    depot.len(name)
}

// Up to four bytes from a place on, with zeros behind them, and their number.
fn read<D: Depot>(depot: &mut D, name: &FileName, at: u64) -> Result<([u8; 4], usize), Failed> {
    let mut buf = [0; 4];
    let count = depot.read(name, at, &mut buf)?;
    Ok((buf, count))
}

// A depot with two files, whose calls of these numbers fail. Four calls make the files.
fn depot(alloc: Global, fails: &[u64]) -> Result<MemDepot, AllocError> {
    let mut depot = MemDepot::new(alloc, List::from_slice(alloc, fails)?);
    match write(&mut depot, &FIRST, b"abc") {
        Ok(()) => {}
        Err(_) => return Err(AllocError),
    }
    match write(&mut depot, &SECOND, b"xyz") {
        Ok(()) => {}
        Err(_) => return Err(AllocError),
    }
    Ok(depot)
}

#[test]
fn files_are_written_and_read(rt: HostRuntime) -> Result<(), Fail> {
    let mut depot = depot(rt.alloc(), &[])?;
    assert_eq!(rt; depot.append(&FIRST, b"de"), Ok(()));
    assert_eq!(rt; len(&mut depot, &FIRST), Ok(Some(5)));
    assert_eq!(rt; read(&mut depot, &FIRST, 0), Ok((*b"abcd", 4)));
    assert_eq!(rt; read(&mut depot, &FIRST, 3), Ok((*b"de\0\0", 2)));
    assert_eq!(rt; read(&mut depot, &SECOND, 0), Ok((*b"xyz\0", 3)));
    assert_eq!(rt; depot.calls(), 9);
    Ok(())
}

#[test]
fn a_read_past_the_end_gives_nothing(rt: HostRuntime) -> Result<(), Fail> {
    let mut depot = depot(rt.alloc(), &[])?;
    assert_eq!(rt; read(&mut depot, &FIRST, 3), Ok(([0; 4], 0)));
    assert_eq!(rt; read(&mut depot, &FIRST, u64::MAX), Ok(([0; 4], 0)));
    Ok(())
}

#[test]
fn a_missing_file(rt: HostRuntime) -> Result<(), Fail> {
    let mut depot = depot(rt.alloc(), &[])?;
    assert_eq!(rt; len(&mut depot, &FileName::Catalog), Ok(None));
    assert_eq!(rt; read(&mut depot, &FileName::Catalog, 0), Ok(([0; 4], 0)));
    assert_eq!(rt; depot.remove(&FileName::Catalog), Ok(()));
    assert_eq!(rt; depot.append(&FileName::Catalog, b"m"), Ok(()));
    assert_eq!(rt;
        read(&mut depot, &FileName::Catalog, 0),
        Ok((*b"m\0\0\0", 1))
    );
    Ok(())
}

#[test]
fn files_are_replaced_and_removed(rt: HostRuntime) -> Result<(), Fail> {
    let mut depot = depot(rt.alloc(), &[])?;
    assert_eq!(rt; depot.replace(&FIRST, b"wxyz"), Ok(()));
    assert_eq!(rt; depot.replace(&FileName::Catalog, b"new"), Ok(()));
    assert_eq!(rt; depot.begin(&SECOND), Ok(()));
    assert_eq!(rt; read(&mut depot, &FIRST, 0), Ok((*b"wxyz", 4)));
    assert_eq!(rt; read(&mut depot, &FileName::Catalog, 0), Ok((*b"new\0", 3)));
    assert_eq!(rt; len(&mut depot, &SECOND), Ok(Some(0)));
    assert_eq!(rt; depot.remove(&FIRST), Ok(()));
    assert_eq!(rt; len(&mut depot, &FIRST), Ok(None));
    assert_eq!(rt; len(&mut depot, &FileName::Catalog), Ok(Some(3)));
    Ok(())
}

// Each call on the first file once, from the fifth call on, and which of them failed.
fn each_call<D: Depot>(depot: &mut D) -> [bool; 6] {
    [
        depot.len(&FIRST).is_err(),
        depot.read(&FIRST, 0, &mut [0; 4]).is_err(),
        depot.append(&FIRST, b"d").is_err(),
        depot.replace(&FIRST, b"r").is_err(),
        depot.begin(&FIRST).is_err(),
        depot.remove(&FIRST).is_err(),
    ]
}

#[test]
fn each_call_fails_in_turn(rt: HostRuntime) -> Result<(), Fail> {
    for call in 0..6 {
        let mut depot = depot(rt.alloc(), &[5 + call as u64])?;
        let failed = each_call(&mut depot);
        for other in 0..6 {
            assert_eq!(rt; failed[other], other == call);
        }
        assert_eq!(rt; depot.calls(), 10);
        assert_eq!(rt; read(&mut depot, &SECOND, 0), Ok((*b"xyz\0", 3)));
    }
    Ok(())
}
