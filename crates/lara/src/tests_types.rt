//! Tables of every type of values and keys in whole calls: worked examples with their exact bytes, ranges, and broken
//! literals with place and kind worked out by hand.

use crate::tests::{is_past_range, printing_rows, prints, refused_rows};
use lara_base::{Bytes, List};
use std::alloc::{AllocError, Global};
use std::test::Fail;

// In order: paths end to end, text keys in the order of their bytes, two distances, a flag key with three types of
// values, shortest steps, the widest way through, which nodes are reached, the least route (of two as long the lesser by
// bytes), the later text, escapes, products that are zero though no factor is `none`, and an empty text that no table keeps.
const PRINTING: &str = "\
A = table [x: nat : p: path] { 1 : \"ab\" }; B = table [x: nat : p: path] { 1 : \"c\" }; C = join A B; print C;|C[x: nat : p: path]
1:\"abc\"
end 1
~\
T = table [s: text : n: count] { \"ab\":1; \"a\\x00\":2; \"a\":3 }; print T;|T[s: text : n: count]
\"a\":3
\"a\\x00\":2
\"ab\":1
end 3
~\
T = table [i: nat : d: minplus, e: minplus] { 1 : 4, inf }; print T;|T[i: nat : d: minplus, e: minplus]
1:4,inf
end 1
~\
M = table [b: flag : f: flag, m: maxmin, l: last] { true : true, 3, \"x\"; true : false, 9, \"ab\" }; print M;|M[b: flag : f: flag, m: maxmin, l: last]
true:true,9,\"x\"
end 1
~\
E = table [src: text, dst: text : d: minplus] { \"oslo\",\"bergen\":7; \"oslo\",\"voss\":2; \"voss\",\"bergen\":4 };
S = table [src: text : d: minplus] { \"oslo\":0; \"voss\":2 };
N = agg (join S E) by dst;
print N;|N[dst: text : d: minplus]
\"bergen\":6
\"voss\":2
end 2
~\
E = table [a: nat, b: nat : w: maxmin] { 1,2:5; 1,3:9 }; F = table [b: nat, c: nat : w: maxmin] { 2,4:7; 3,4:4 }; W = agg (join E F) by a, c; print W;|W[a: nat, c: nat : w: maxmin]
1,4:5
end 1
~\
E = table [a: nat, b: nat : r: flag] { 1,2:true; 2,3:true; 3,1:false }; S = table [a: nat : r: flag] { 1:true }; N = agg (join S E) by b; print N;|N[b: nat : r: flag]
2:true
end 1
~\
E = table [a: nat, b: nat : p: path] { 1,2:\"b\"; 1,3:\"a\" }; F = table [b: nat, c: nat : p: path] { 2,4:\"a\"; 3,4:\"b\" }; R = agg (join E F) by c; print R;|R[c: nat : p: path]
4:\"ab\"
end 1
~\
T = table [i: nat : l: last] { 1:\"ab\"; 1:\"b\" }; U = union T (table [i: nat : l: last] { 1:\"aa\"; 2:\"\" }); print U;|U[i: nat : l: last]
1:\"b\"
end 1
~\
T = table [b: flag, s: text : p: path] { true,\"\":\"\\\"\\\\\"; false,\"\\x7f\\x1F\":\"\\x41\"; false,\"!\":none }; print T; print T by s, b;|T[b: flag, s: text : p: path]
false,\"\\x7f\\x1f\":\"A\"
true,\"\":\"\\\"\\\\\"
end 2
T[s: text, b: flag : p: path]
\"\",true:\"\\\"\\\\\"
\"\\x7f\\x1f\",false:\"A\"
end 2
~\
A = table [i: nat : d: minplus, f: flag] { 1:inf,true; 2:3,false; 3:3,true }; B = table [i: nat : d: minplus, f: flag] { 1:0,false; 2:1,true; 3:inf,false }; C = join A B; print C;|C[i: nat : d: minplus, f: flag]
2:4,false
end 1
~\
T = table [i: nat : d: minplus] { 1 : 18446744073709551613; 2 : inf }; print T;|T[i: nat : d: minplus]
1:18446744073709551613
end 1
~";

#[test]
fn tables_of_each_type_are_printed(rt: HostRuntime) -> Result<(), Fail> {
    assert_eq!(rt; printing_rows(rt.alloc(), PRINTING)?, 12);
    Ok(())
}

// In order: kinds of key columns, kinds of value columns, and numbers past the range of their columns.
const REFUSED: &str = "\
T = table [s: text : v: count] { 1:1 };|lara: script byte 33: TypesDiffer
T = table [b: flag : v: count] { \"a\":1 };|lara: script byte 33: TypesDiffer
T = table [i: nat : v: count] { true:1 };|lara: script byte 32: TypesDiffer
T = table [i: nat : v: count] { 1:inf };|lara: script byte 34: TypesDiffer
T = table [i: nat : d: minplus] { 1:none };|lara: script byte 36: TypesDiffer
T = table [i: nat : w: maxmin] { 1:inf };|lara: script byte 35: TypesDiffer
T = table [i: nat : f: flag] { 1:1 };|lara: script byte 33: TypesDiffer
T = table [i: nat : l: last] { 1:none };|lara: script byte 33: TypesDiffer
T = table [i: nat : p: path] { 1:true };|lara: script byte 33: TypesDiffer
T = table [i: nat : d: minplus] { 1:18446744073709551614 };|lara: script byte 36: NotInRange
T = table [i: nat : w: maxmin] { 1:18446744073709551615 };|lara: script byte 35: NotInRange
T = table [i: nat : d: minplus, v: count] { 1:18446744073709551614,true };|lara: script byte 67: TypesDiffer
T = table [i: text : v: count] {}; U = table [i: nat : v: count] {}; V = union T U;|lara: script byte 73: TypesDiffer
T = table [i: nat : v: maxmin] {}; U = table [i: nat : v: count] {}; V = join T U;|lara: script byte 73: TypesDiffer
";

#[test]
fn literals_of_other_kinds_are_refused(rt: HostRuntime) -> Result<(), Fail> {
    assert_eq!(rt; refused_rows(rt.alloc(), REFUSED)?, 14);
    Ok(())
}

#[test]
fn a_distance_past_the_range_is_out_of_range(rt: HostRuntime) -> Result<(), Fail> {
    let script =
        b"T = table [i: nat : d: minplus] { 1 : 18446744073709551613 }; U = table [i: nat : d: minplus] { 1:1 }; V = join T U; W = union U V; print W; print V;";
    let err = b"lara: statement 6 is out of range\n";
    assert!(rt; is_past_range(rt.alloc(), script, err)?);
    Ok(())
}

// A path of 1,000 bytes joined with one of that many: what is joined is printed, or what was joined.
fn joined(alloc: Global, count: usize, last: &[u8]) -> Result<Bytes, AllocError> {
    let mut script = List::new(alloc);
    script.extend_from_slice(b"A = table [x: nat : p: path] { 1 : \"")?;
    script.extend_from_slice(&vec![in alloc; b'a'; 1000]?)?;
    script.extend_from_slice(b"\" }; B = table [x: nat : p: path] { 1 : \"")?;
    script.extend_from_slice(&vec![in alloc; b'b'; count]?)?;
    script.extend_from_slice(b"\" }; C = join A B; ")?;
    script.extend_from_slice(last)?;
    Ok(script)
}

// Whether a joined path of 1,000 and that many bytes is past the range where it is printed.
fn is_joined_past_range(alloc: Global, count: usize) -> Result<bool, AllocError> {
    let script = joined(alloc, count, b"print B; print C;")?;
    is_past_range(
        alloc,
        script.as_slice(),
        b"lara: statement 5 is out of range\n",
    )
}

// Whether the second path of 25 bytes is printed though the joined one, which is not printed, is past the range.
fn is_printed_beside(alloc: Global) -> Result<bool, AllocError> {
    let script = joined(alloc, 25, b"print B;")?;
    let text = b"B[x: nat : p: path]\n1:\"bbbbbbbbbbbbbbbbbbbbbbbbb\"\nend 1\n";
    prints(alloc, script.as_slice(), text)
}

#[test]
fn joined_paths_past_the_limit_are_out_of_range(rt: HostRuntime) -> Result<(), Fail> {
    let alloc = rt.alloc();
    assert!(rt; is_joined_past_range(alloc, 25)?);
    assert!(rt; !is_joined_past_range(alloc, 24)?);
    assert!(rt; is_printed_beside(alloc)?);
    Ok(())
}
