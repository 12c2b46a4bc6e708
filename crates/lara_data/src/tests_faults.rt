//! The texts of faults, and that want of memory is told as such.

use crate::{FileFault, IterFault, Kind, ReadFault, Refusal};
use lara_base::FileName;
use std::alloc::{AllocError, AllocFailed, Global};
use std::fmt::Display;
use std::test::Fail;

fn text_of<T: Display>(alloc: Global, fault: &T) -> Result<String, AllocError> {
    fault.to_string(alloc)
}

// Whether the fault's text is this one.
fn is_told<T: Display>(alloc: Global, fault: &T, text: &str) -> Result<bool, AllocError> {
    Ok(text_of(alloc, fault)?.as_str() == text)
}

fn is_refusal_told(alloc: Global, at: u32, kind: Kind, text: &str) -> Result<bool, AllocError> {
    is_told(alloc, &ReadFault::Refused(Refusal { at, kind }), text)
}

fn from_memory<T: From<AllocError>>() -> T {
    T::from(AllocError)
}

fn from_value<T: From<AllocFailed<u8>>>() -> T {
    T::from(AllocFailed { value: 0 })
}

#[test]
fn a_refusal_tells_its_place_and_kind(rt: HostRuntime) -> Result<(), Fail> {
    let alloc = rt.alloc();
    for (at, kind, text) in [
        (0, Kind::BadByte, "byte 0: BadByte"),
        (1, Kind::BadNumber, "byte 1: BadNumber"),
        (2, Kind::BadText, "byte 2: BadText"),
        (3, Kind::Unexpected, "byte 3: Unexpected"),
        (4, Kind::TooLong, "byte 4: TooLong"),
        (5, Kind::TooMany, "byte 5: TooMany"),
        (6, Kind::NoTable, "byte 6: NoTable"),
        (7, Kind::NoName, "byte 7: NoName"),
        (8, Kind::NameTwice, "byte 8: NameTwice"),
        (9, Kind::TooManyColumns, "byte 9: TooManyColumns"),
        (10, Kind::NotInRange, "byte 10: NotInRange"),
        (11, Kind::TypesDiffer, "byte 11: TypesDiffer"),
        (12, Kind::NoCommonValue, "byte 12: NoCommonValue"),
        (13, Kind::NotAKey, "byte 13: NotAKey"),
        (14, Kind::NotAnOrder, "byte 14: NotAnOrder"),
        (15, Kind::NoPlugin, "byte 15: NoPlugin"),
        (
            4_294_967_295,
            Kind::PluginRefuses,
            "byte 4294967295: PluginRefuses",
        ),
    ] {
        assert!(rt; is_refusal_told(alloc, at, kind, text)?, "at {at}");
    }
    Ok(())
}

#[test]
fn a_fault_tells_what_failed(rt: HostRuntime) -> Result<(), Fail> {
    let alloc = rt.alloc();
    let damaged = IterFault::Damaged {
        file: FileName::Catalog,
        at: 17,
    };
    let broken = FileFault::NotInGrammar { at: 18 };
    let memory = "out of memory";
    assert!(rt; is_told(alloc, &ReadFault::Memory, memory)?);
    assert!(rt; is_told(alloc, &damaged, "a file is damaged at byte 17")?);
    assert!(rt; is_told(alloc, &IterFault::Depot, "the depot failed")?);
    assert!(rt; is_told(alloc, &IterFault::Memory, memory)?);
    assert!(rt; is_told(alloc, &broken, "byte 18 is not in the grammar")?);
    assert!(rt; is_told(alloc, &FileFault::Memory, memory)?);
    Ok(())
}

#[test]
fn want_of_memory_is_told_as_such(rt: HostRuntime) {
    assert_eq!(rt; from_memory::<ReadFault>(), ReadFault::Memory);
    assert_eq!(rt; from_memory::<IterFault>(), IterFault::Memory);
    assert_eq!(rt; from_memory::<FileFault>(), FileFault::Memory);
    assert_eq!(rt; from_value::<ReadFault>(), ReadFault::Memory);
    assert_eq!(rt; from_value::<IterFault>(), IterFault::Memory);
    assert_eq!(rt; from_value::<FileFault>(), FileFault::Memory);
}
