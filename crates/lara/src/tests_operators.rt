//! Joins, unions and aggs in whole calls: worked examples with their exact bytes, and a broken script for each line of the
//! type rules with its place and kind worked out by hand.

use crate::tests::{is_past_range, printing_rows, refused_rows, refuses};
use std::test::Fail;

// In order: a sparse product, the sum of all, a sum of nothing, a union that sums over what one side has alone, all pairs
// without a common key, zero products, a name in its own assignment, and the columns of both sides of a union.
const PRINTING: &str = "\
A = table [i: nat, k: nat : v: count] { 1,1:2; 1,2:3 };
B = table [k: nat, j: nat : v: count] { 1,5:10; 2,5:100 };
C = agg (join A B) by i, j;
print C by j, i;
|C[j: nat, i: nat : v: count]
5,1:320
end 1
~\
T = table [i: nat : v: count] { 1:3; 2:4 }; S = agg T by; print S;|S[: v: count]
:7
end 1
~\
T = table [i: nat : v: count] {}; S = agg T by; print S;|S[: v: count]
end 0
~\
T = table [a: nat : v: count] { 1:1; 2:2; 3:3; 4:4 }; U = table [a: nat, c: nat : v: count] { 2,1:10; 2,2:20; 9,1:5 }; W = union T U; print W;|W[a: nat : v: count]
1:1
2:32
3:3
4:4
9:5
end 5
~\
A = table [i: nat : v: count] { 1:2 }; B = table [j: nat : v: count] { 5:3; 6:4 }; C = join A B; print C;|C[i: nat, j: nat : v: count]
1,5:6
1,6:8
end 2
~\
A = table [i: nat : v: count, w: count] { 1:0,3; 2:1,3 }; B = table [i: nat : w: count, v: count] { 1:0,5; 2:0,7 }; C = join A B; print C;|C[i: nat : v: count, w: count]
2:7,0
end 1
~\
T = table [i: nat : v: count] { 1:3 }; T = union T T; T = join T ((T)); print T;|T[i: nat : v: count]
1:36
end 1
~\
U = union (table [a: nat, b: nat : v: count] { 1,2:3 }) (table [b: nat, a: nat : w: count, v: count] { 2,1:5,6 }); print U by b, a;|U[b: nat, a: nat : v: count, w: count]
2,1:9,5
end 1
~";

#[test]
fn operators_print_their_tables(rt: HostRuntime) -> Result<(), Fail> {
    assert_eq!(rt; printing_rows(rt.alloc(), PRINTING)?, 8);
    Ok(())
}

#[test]
fn a_product_past_the_range_is_out_of_range(rt: HostRuntime) -> Result<(), Fail> {
    let script =
        b"A = table [i: nat : v: count] { 1:4294967296 }; B = join A A; C = join B A; print A; print C;";
    let err = b"lara: statement 5 is out of range\n";
    assert!(rt; is_past_range(rt.alloc(), script, err)?);
    Ok(())
}

#[test]
fn a_join_without_a_common_value_column(rt: HostRuntime) -> Result<(), Fail> {
    let script =
        b"A = table [i: nat : v: count] {};\nB = table [i: nat : w: count] {};\nC = join A B;\n";
    let err = b"lara: script byte 72: NoCommonValue\n";
    assert!(rt; refuses(rt.alloc(), script, err)?);
    Ok(())
}

const REFUSED: &str = "\
T = load X;|lara: script byte 9: NoTable
T = table [i: nat : v: count] {}; U = load T;|lara: script byte 43: NoTable
T = X;|lara: script byte 4: NoName
T = T;|lara: script byte 4: NoName
T = join A B;|lara: script byte 9: NoName
T = agg A by i;|lara: script byte 8: NoName
T = table [i: nat : v: count] {}; U = union T X;|lara: script byte 46: NoName
T = union (table [i: nat, i: nat : v: count] {}) X;|lara: script byte 26: NameTwice
T = join table [: a: count, b: count, c: count, d: count, e: count, f: count, g: count, h: count, i: count] {} X;|lara: script byte 9: TooManyColumns
T = agg table [i: nat : v: count] { 1:1; 1,2:3 } by zz;|lara: script byte 41: TypesDiffer
T = agg table [i: nat : v: count] { 1:18446744073709551615 } by zz;|lara: script byte 38: NotInRange
C = join (table [i: nat : v: count] {}) (table [v: nat : w: count] {});|lara: script byte 4: TypesDiffer
C = join (table [i: nat : v: count] {}) (table [j: nat : v: count, i: count] {});|lara: script byte 4: TypesDiffer
C = join (table [i: nat : v: count] {}) (table [i: nat : w: count] {});|lara: script byte 4: NoCommonValue
C = join (table [a: nat, b: nat, c: nat, d: nat, e: nat : v: count] {}) (table [f: nat, g: nat, h: nat, i: nat : v: count] {});|lara: script byte 4: TooManyColumns
C = join (table [a: nat, b: nat, c: nat, d: nat, e: nat : v: count] {}) (table [f: nat, g: nat, h: nat, i: nat : w: count] {});|lara: script byte 4: NoCommonValue
C = union (table [i: nat : v: count] {}) (table [v: nat : w: count] {});|lara: script byte 4: TypesDiffer
C = union (table [: a: count, b: count, c: count, d: count, e: count] {}) (table [: f: count, g: count, h: count, i: count] {});|lara: script byte 4: TooManyColumns
C = agg table [i: nat : v: count] {} by i, v;|lara: script byte 43: NotAKey
C = agg table [i: nat : v: count] {} by i, i, zz;|lara: script byte 46: NotAKey
C = agg table [i: nat, j: nat : v: count] {} by i, i;|lara: script byte 51: NameTwice
C = agg table [i: nat, j: nat : v: count] {} by i, j, j, i;|lara: script byte 54: NameTwice
T = table [i: nat : v: count] {}; C = join (agg T by zz) X;|lara: script byte 53: NotAKey
T = table [i: nat : v: count] {}; C = join X (agg T by zz);|lara: script byte 43: NoName
T = table [i: nat : v: count] {}; C = agg (join T X) by zz;|lara: script byte 50: NoName
T = table [i: nat : v: count] {}; C = union (union T X) Y;|lara: script byte 53: NoName
T = table [i: nat, j: nat : v: count] {}; C = agg T by j; print C by i;|lara: script byte 66: NotAnOrder
T = table [i: nat, j: nat : v: count] {}; C = agg T by j; print C by j, i;|lara: script byte 66: NotAnOrder
T = table [i: nat : v: count] {}; C = join T T; print D by i;|lara: script byte 54: NoName
C = X; print Y;|lara: script byte 4: NoName
T = ;|lara: script byte 4: Unexpected
T = join A;|lara: script byte 10: Unexpected
T = join A join B C;|lara: script byte 11: Unexpected
T = (A;|lara: script byte 6: Unexpected
T = (A|lara: script byte 6: Unexpected
T = A B;|lara: script byte 6: Unexpected
T = agg A;|lara: script byte 9: Unexpected
T = agg A by i,;|lara: script byte 15: Unexpected
T = load (A);|lara: script byte 9: Unexpected
T = apply A with words(s) as w;|lara: script byte 4: Unexpected
T = ();|lara: script byte 5: Unexpected
print (T);|lara: script byte 6: Unexpected
";

#[test]
fn broken_operators_are_refused_at_their_place(rt: HostRuntime) -> Result<(), Fail> {
    assert_eq!(rt; refused_rows(rt.alloc(), REFUSED)?, 42);
    Ok(())
}
