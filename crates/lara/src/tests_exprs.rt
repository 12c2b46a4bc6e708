//! Expressions, maps, filters, promotes and renames in whole calls: worked examples with their exact bytes, and a broken script
//! for each line of their rules with its place and kind worked out by hand.

use crate::tests::{is_past_range, printing_rows, prints, refused_rows, refuses};
use lara_base::{Bytes, List};
use std::alloc::{AllocError, Global};
use std::test::Fail;

// In order: a value made into a key, with the way through two distances and with the lesser of them; a value past its range that
// a filter drops; a filter by keys and values; columns that swap their names; a histogram; a default row, which is no entry;
// how operators bind; each function, also of what is absent; numbers past their range; orders of texts, paths and flags; and
// keys of each type made of values.
const PRINTING: &str = "\
T = table [i: nat : v: count] { 1:3; 2:5 }; U = promote T to h: nat = v * 2; V = rename U i to j; W = map V to d: minplus = dist(h) * dist(j); print W by h, j;|W[h: nat, j: nat : d: minplus]
6,1:7
10,2:12
end 2
~\
T = table [i: nat : v: count] { 1:3; 2:5 }; U = promote T to h: nat = v * 2; V = rename U i to j; W = map V to d: minplus = dist(h) + dist(j); print W by h, j;|W[h: nat, j: nat : d: minplus]
6,1:1
10,2:2
end 2
~\
T = table [i: nat : v: count] { 1:18446744073709551614; 1:1 }; U = filter T where v < 10; print U;|U[i: nat : v: count]
end 0
~\
T = table [s: text, i: nat : v: count] { \"a\",1:3; \"a\",2:9; \"b\",1:4; \"c\",3:1 }; U = filter T where s != \"c\" and (i == 1 or v > 8); print U;|U[s: text, i: nat : v: count]
\"a\",1:3
\"a\",2:9
\"b\",1:4
end 3
~\
T = table [i: nat, j: nat : v: count] { 1,2:3; 5,4:6 }; U = rename T i to j, j to i, v to w; print U; print U by i, j;|U[j: nat, i: nat : w: count]
1,2:3
5,4:6
end 2
U[i: nat, j: nat : w: count]
2,1:3
4,5:6
end 2
~\
T = table [w: text : n: count] { \"a\":2; \"b\":5; \"c\":2 }; H = agg (promote (map T to n: count = n, c: count = 1) to size: nat = n) by size; M = map H to words: count = c; print M;|M[size: nat : words: count]
2:2
5:1
end 2
~\
T = table [i: nat : v: count, w: count] { 1:3,1; 2:5,9; 4:0,7 }; M = map T to x: count = if v > 3 then w else 0; print M;|M[i: nat : x: count]
2:9
end 1
~\
T = table [i: nat : v: count] { 0:1; 1:1; 2:1; 3:1 }; F = filter T where i == 0 or i == 1 and false; M = map T to x: count = 1 + i * 2 + 1, y: flag = not i == 1, z: count = if i == 3 then 1 else 2 + 3; print F; print M;|F[i: nat : v: count]
0:1
end 1
M[i: nat : x: count, y: flag, z: count]
0:2,true,5
1:4,false,5
2:6,true,5
3:8,true,1
end 4
~\
T = table [s: text : d: minplus, p: path, f: flag] { \"ab\":4,\"x\",true; \"\":inf,none,true }; M = map T to a: count = len(s), b: last = text(p) ++ s ++ \"!\", c: path = path(s) * p, e: minplus = dist(num(f)) * d, g: count = num(f) + len(text(p)); print M;|M[s: text : a: count, b: last, c: path, e: minplus, g: count]
\"\":0,\"!\",none,inf,1
\"ab\":2,\"xab!\",\"abx\",5,2
end 2
~\
T = table [i: nat : v: count] { 1:18446744073709551614; 1:1; 2:18446744073709551614 }; M = map T to b: flag = v > 18446744073709551614, d: minplus = dist(v) + dist(7), n: count = v * 0 + 1; print M;|M[i: nat : b: flag, d: minplus, n: count]
1:true,7,1
2:false,7,1
end 2
~\
T = table [s: text : f: flag] { \"ab\":true; \"b\":true }; M = map T to t: flag = s < \"b\", p: flag = path(s) < path(\"b\"), f: flag = f > false; print M;|M[s: text : t: flag, p: flag, f: flag]
\"ab\":true,false,true
\"b\":false,false,true
end 2
~\
T = table [i: nat : l: last, f: flag] { 1:\"x\",true; 2:\"y\",false }; U = promote (promote T to t: text = l) to g: flag = not f; print U by g, t, i;|U[g: flag, t: text, i: nat : l: last, f: flag]
false,\"x\",1:\"x\",true
true,\"y\",2:\"y\",false
end 2
~\
";

#[test]
fn expressions_print_their_tables(rt: HostRuntime) -> Result<(), Fail> {
    assert_eq!(rt; printing_rows(rt.alloc(), PRINTING)?, 12);
    Ok(())
}

const REFUSED: &str = "\
T = table [i: nat, s: text : v: count, d: minplus, p: path, f: flag] {}; U = filter T where z == 1;|lara: script byte 92: NoName
T = table [i: nat, s: text : v: count, d: minplus, p: path, f: flag] {}; U = filter T where i == 18446744073709551615;|lara: script byte 97: NotInRange
T = table [i: nat, s: text : v: count, d: minplus, p: path, f: flag] {}; U = filter T where i == s;|lara: script byte 94: TypesDiffer
T = table [i: nat, s: text : v: count, d: minplus, p: path, f: flag] {}; U = filter T where i < d;|lara: script byte 94: TypesDiffer
T = table [i: nat, s: text : v: count, d: minplus, p: path, f: flag] {}; U = filter T where f and i;|lara: script byte 94: TypesDiffer
T = table [i: nat, s: text : v: count, d: minplus, p: path, f: flag] {}; U = filter T where i or f;|lara: script byte 94: TypesDiffer
T = table [i: nat, s: text : v: count, d: minplus, p: path, f: flag] {}; U = filter T where not i;|lara: script byte 92: TypesDiffer
T = table [i: nat, s: text : v: count, d: minplus, p: path, f: flag] {}; U = filter T where s + s == s;|lara: script byte 94: TypesDiffer
T = table [i: nat, s: text : v: count, d: minplus, p: path, f: flag] {}; U = filter T where f * f;|lara: script byte 94: TypesDiffer
T = table [i: nat, s: text : v: count, d: minplus, p: path, f: flag] {}; U = filter T where i ++ i == s;|lara: script byte 94: TypesDiffer
T = table [i: nat, s: text : v: count, d: minplus, p: path, f: flag] {}; U = filter T where p ++ s == s;|lara: script byte 94: TypesDiffer
T = table [i: nat, s: text : v: count, d: minplus, p: path, f: flag] {}; U = filter T where 1 == num(i);|lara: script byte 97: TypesDiffer
T = table [i: nat, s: text : v: count, d: minplus, p: path, f: flag] {}; U = filter T where 1 == num(s);|lara: script byte 97: TypesDiffer
T = table [i: nat, s: text : v: count, d: minplus, p: path, f: flag] {}; U = filter T where d == dist(d);|lara: script byte 97: TypesDiffer
T = table [i: nat, s: text : v: count, d: minplus, p: path, f: flag] {}; U = filter T where 1 == len(p);|lara: script byte 97: TypesDiffer
T = table [i: nat, s: text : v: count, d: minplus, p: path, f: flag] {}; U = filter T where p == path(p);|lara: script byte 97: TypesDiffer
T = table [i: nat, s: text : v: count, d: minplus, p: path, f: flag] {}; U = filter T where s == text(s);|lara: script byte 97: TypesDiffer
T = table [i: nat, s: text : v: count, d: minplus, p: path, f: flag] {}; U = filter T where if i then f else f;|lara: script byte 92: TypesDiffer
T = table [i: nat, s: text : v: count, d: minplus, p: path, f: flag] {}; U = filter T where if f then i else s;|lara: script byte 92: TypesDiffer
T = table [i: nat, s: text : v: count, d: minplus, p: path, f: flag] {}; U = filter T where (i + s) == y;|lara: script byte 95: TypesDiffer
T = table [i: nat, s: text : v: count, d: minplus, p: path, f: flag] {}; U = filter T where (i + y) == (i + s);|lara: script byte 97: NoName
T = table [i: nat, s: text : v: count, d: minplus, p: path, f: flag] {}; U = filter T where if (i + s) == 1 then y else z;|lara: script byte 98: TypesDiffer
T = table [i: nat, s: text : v: count, d: minplus, p: path, f: flag] {}; U = filter T where not y + i;|lara: script byte 96: NoName
T = table [i: nat, s: text : v: count, d: minplus, p: path, f: flag] {}; U = filter T where i + 1;|lara: script byte 77: TypesDiffer
T = table [i: nat, s: text : v: count, d: minplus, p: path, f: flag] {}; U = filter (filter T where y) where z;|lara: script byte 100: NoName
T = table [i: nat, s: text : v: count, d: minplus, p: path, f: flag] {}; U = map T to x: count = y, i: count = z;|lara: script byte 100: NameTwice
T = table [i: nat, s: text : v: count, d: minplus, p: path, f: flag] {}; U = map T to x: count = y, x: count = z;|lara: script byte 100: NameTwice
T = table [i: nat, s: text : v: count, d: minplus, p: path, f: flag] {}; U = map T to x: minplus = i, y: count = z;|lara: script byte 113: NoName
T = table [i: nat, s: text : v: count, d: minplus, p: path, f: flag] {}; U = map T to x: count = i, y: minplus = i + i;|lara: script byte 113: TypesDiffer
T = table [i: nat, s: text : v: count, d: minplus, p: path, f: flag] {}; U = map T to y: path = (i + i) * i;|lara: script byte 97: TypesDiffer
T = table [i: nat, s: text : v: count, d: minplus, p: path, f: flag] {}; U = map T to y: path = (((i) + i) * i);|lara: script byte 99: TypesDiffer
T = table [i: nat, s: text : v: count, d: minplus, p: path, f: flag] {}; U = map T to y: last = if f then i else i;|lara: script byte 96: TypesDiffer
T = table [i: nat, s: text : v: count, d: minplus, p: path, f: flag] {}; U = map T to y: maxmin = not f;|lara: script byte 98: TypesDiffer
T = table [i: nat, s: text : v: count, d: minplus, p: path, f: flag] {}; U = map T to a: count = 1, b: count = 1, c: count = 1, e: count = 1, g: count = 1, h: count = 1, j: count = 1, k: count = 1, l: count = 1;|lara: script byte 77: TooManyColumns
T = table [i: nat, s: text : v: count, d: minplus, p: path, f: flag] {}; U = map T to a: count = 1, b: count = 1, c: count = 1, e: count = 1, g: count = 1, h: count = 1, j: count = 1, k: count = 1, l: count = f;|lara: script byte 209: TypesDiffer
T = table [i: nat, s: text : v: count, d: minplus, p: path, f: flag] {}; U = promote T to v: nat = y;|lara: script byte 77: NameTwice
T = table [i: nat, s: text : v: count, d: minplus, p: path, f: flag] {}; U = promote T to i: nat = y;|lara: script byte 77: NameTwice
T = table [i: nat, s: text : v: count, d: minplus, p: path, f: flag] {}; U = promote T to h: nat = y;|lara: script byte 99: NoName
T = table [i: nat, s: text : v: count, d: minplus, p: path, f: flag] {}; U = promote T to h: nat = s;|lara: script byte 77: TypesDiffer
T = table [i: nat, s: text : v: count, d: minplus, p: path, f: flag] {}; U = promote T to h: text = p;|lara: script byte 77: TypesDiffer
T = table [a: nat, b: nat, c: nat, d: nat, e: nat, f: nat, g: nat, h: nat : v: count] {}; U = promote T to i: nat = v;|lara: script byte 94: TooManyColumns
T = table [i: nat, s: text : v: count, d: minplus, p: path, f: flag] {}; U = rename T i to j, i to k, y to z;|lara: script byte 102: NoName
T = table [i: nat, s: text : v: count, d: minplus, p: path, f: flag] {}; U = rename T i to j, s to k, i to z;|lara: script byte 102: NameTwice
T = table [i: nat, s: text : v: count, d: minplus, p: path, f: flag] {}; U = rename T i to s;|lara: script byte 77: NameTwice
T = table [i: nat, s: text : v: count, d: minplus, p: path, f: flag] {}; U = rename T i to j, v to j;|lara: script byte 77: NameTwice
T = table [i: nat, s: text : v: count, d: minplus, p: path, f: flag] {}; U = filter T where ;|lara: script byte 92: Unexpected
T = table [i: nat, s: text : v: count, d: minplus, p: path, f: flag] {}; U = filter T i == 1;|lara: script byte 86: Unexpected
T = table [i: nat, s: text : v: count, d: minplus, p: path, f: flag] {}; U = filter T where 1 < 2 < 3;|lara: script byte 98: Unexpected
T = table [i: nat, s: text : v: count, d: minplus, p: path, f: flag] {}; U = filter T where i == not f;|lara: script byte 97: Unexpected
T = table [i: nat, s: text : v: count, d: minplus, p: path, f: flag] {}; U = filter T where f and if f then f else f;|lara: script byte 98: Unexpected
T = table [i: nat, s: text : v: count, d: minplus, p: path, f: flag] {}; U = filter T where if f then ;|lara: script byte 102: Unexpected
T = table [i: nat, s: text : v: count, d: minplus, p: path, f: flag] {}; U = filter T where if f then f ;|lara: script byte 104: Unexpected
T = table [i: nat, s: text : v: count, d: minplus, p: path, f: flag] {}; U = filter T where len s;|lara: script byte 96: Unexpected
T = table [i: nat, s: text : v: count, d: minplus, p: path, f: flag] {}; U = filter T where (f;|lara: script byte 94: Unexpected
T = table [i: nat, s: text : v: count, d: minplus, p: path, f: flag] {}; U = filter T where f)|lara: script byte 93: Unexpected
T = table [i: nat, s: text : v: count, d: minplus, p: path, f: flag] {}; U = map T x: count = 1;|lara: script byte 83: Unexpected
T = table [i: nat, s: text : v: count, d: minplus, p: path, f: flag] {}; U = map T to x = 1;|lara: script byte 88: Unexpected
T = table [i: nat, s: text : v: count, d: minplus, p: path, f: flag] {}; U = map T to x: nat = 1;|lara: script byte 89: Unexpected
T = table [i: nat, s: text : v: count, d: minplus, p: path, f: flag] {}; U = map T to x: count = 1, ;|lara: script byte 100: Unexpected
T = table [i: nat, s: text : v: count, d: minplus, p: path, f: flag] {}; U = promote T to h: count = 1;|lara: script byte 93: Unexpected
T = table [i: nat, s: text : v: count, d: minplus, p: path, f: flag] {}; U = promote T to h: nat = 1, g: nat = 2;|lara: script byte 100: Unexpected
T = table [i: nat, s: text : v: count, d: minplus, p: path, f: flag] {}; U = rename T i j;|lara: script byte 88: Unexpected
T = table [i: nat, s: text : v: count, d: minplus, p: path, f: flag] {}; U = rename T ;|lara: script byte 86: Unexpected
T = table [i: nat, s: text : v: count, d: minplus, p: path, f: flag] {}; U = rename T i to j s to k;|lara: script byte 93: Unexpected
T = table [i: nat, s: text : v: count, d: minplus, p: path, f: flag] {}; U = filter filter T where f where f;|lara: script byte 84: Unexpected
";

#[test]
fn broken_expressions_are_refused_at_their_place(rt: HostRuntime) -> Result<(), Fail> {
    assert_eq!(rt; refused_rows(rt.alloc(), REFUSED)?, 65);
    Ok(())
}

#[test]
fn a_computed_value_past_its_range_is_out_of_range(rt: HostRuntime) -> Result<(), Fail> {
    let script =
        b"T = table [i: nat : v: count] { 1:18446744073709551614 }; U = map T to w: count = v + 1; V = filter U where w < 5; W = promote T to h: nat = v + 1; print V; print W; print U;";
    let err = b"lara: statement 6 is out of range\n";
    assert!(rt; is_past_range(rt.alloc(), script, err)?);
    Ok(())
}

// A filter whose test has that many of these words in a row before `f`, and that many of the others behind it.
fn filtered(
    alloc: Global,
    count: usize,
    before: &[u8],
    behind: &[u8],
) -> Result<Bytes, AllocError> {
    let mut script = List::new(alloc);
    script.extend_from_slice(b"T = table [i: nat : f: flag] { 1:true }; U = filter T where ")?;
    for _ in 0..count {
        script.extend_from_slice(before)?;
    }
    script.extend_from_slice(b"f")?;
    for _ in 0..count {
        script.extend_from_slice(behind)?;
    }
    script.extend_from_slice(b"; print U;")?;
    Ok(script)
}

const KEPT: &[u8] = b"U[i: nat : f: flag]\n1:true\nend 1\n";

// Whether a filter with that many of these words keeps the entry.
fn keeps(alloc: Global, count: usize, before: &[u8], behind: &[u8]) -> Result<bool, AllocError> {
    let script = filtered(alloc, count, before, behind)?;
    prints(alloc, script.as_slice(), KEPT)
}

// Whether it is refused with this line.
fn breaks(
    alloc: Global,
    count: usize,
    before: &[u8],
    behind: &[u8],
    err: &[u8],
) -> Result<bool, AllocError> {
    let script = filtered(alloc, count, before, behind)?;
    refuses(alloc, script.as_slice(), err)
}

#[test]
fn at_most_64_levels_are_open(rt: HostRuntime) -> Result<(), Fail> {
    let alloc = rt.alloc();
    assert!(rt; keeps(alloc, 64, b"(", b")")?);
    assert!(rt; breaks(alloc, 65, b"(", b")", b"lara: script byte 124: TooMany\n")?);
    assert!(rt; keeps(alloc, 64, b"not ", b"")?);
    assert!(rt; breaks(alloc, 65, b"not ", b"", b"lara: script byte 316: TooMany\n")?);
    Ok(())
}

#[test]
fn at_most_1024_operators_stand_in_a_statement(rt: HostRuntime) -> Result<(), Fail> {
    let alloc = rt.alloc();
    assert!(rt; keeps(alloc, 1024, b"", b" or f")?);
    assert!(rt;
        breaks(
            alloc,
            1025,
            b"",
            b" or f",
            b"lara: script byte 5182: TooMany\n"
        )?
    );
    Ok(())
}
