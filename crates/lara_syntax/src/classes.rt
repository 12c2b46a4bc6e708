//! What bytes begin with: blanks, names, digits and their value.
ghost use Rattle.std.specs.Prelude.{◌≡◌, ◌+◌, ◌≤◌, ◌<◌, ◌-◌, ◌*◌, ◌∷◌, [], length, IfSome, MatchOption, true};
ghost use Rattle.std.specs.Char.{is_ascii_digit};
ghost use Rattle.std.specs.List.{list_all};
ghost use Rattle.lara_base.specs.Names.{goes_on};
ghost use Rattle.lara_syntax.specs.ByteClasses.{is_space, run_len, after_blank, number_value, within_64};

use lara_base::goes_on;

fn is_space(b: u8) -> bool
    ensures { result ≡ is_space b }
{
    b == b' ' || b == b'\t' || b == b'\r' || b == b'\n'
}

/// How many bytes of a name stand in front.
pub fn name_len(bytes: &[u8]) -> usize
    ensures value { result ≡ run_len goes_on bytes.now }
    ensures within { result ≤ length bytes.now }
{
    let mut len = 0;
    let mut rest = bytes;
    while let [b, more @ ..] = rest {
        if !goes_on(*b) {
            break;
        }
        len += 1;
        rest = more;
    }
    len
}

/// How many digits stand in front.
pub fn digits_len(bytes: &[u8]) -> usize
    ensures value { result ≡ run_len is_ascii_digit bytes.now }
    ensures within { result ≤ length bytes.now }
{
    let mut len = 0;
    let mut rest = bytes;
    while let [b, more @ ..] = rest {
        if !b.is_ascii_digit() {
            break;
        }
        len += 1;
        rest = more;
    }
    len
}

/// The bytes behind white space and comments. A comment ends at an LF alone.
pub fn after_blank(bytes: &[u8]) -> &[u8]
    ensures value { result.now ≡ after_blank bytes.now }
    ensures within { length result.now ≤ length bytes.now }
{
    let mut comment = false;
    let mut rest = bytes;
    while let [b, more @ ..] = rest {
        if comment {
            comment = *b != b'\n';
        } else if *b == b'#' {
            comment = true;
        } else if !is_space(*b) {
            break;
        }
        rest = more;
    }
    rest
}

/// The next byte, and those after it.
pub fn next(bytes: &[u8]) -> Option<(u8, &[u8])>
    ensures { MatchOption result (bytes.now ≡ []) (λ x. bytes.now ≡ x.0 ∷ x.1.now) }
{
    match bytes {
        [] => None,
        [b, rest @ ..] => Some((*b, rest)),
    }
}

// The number with one more digit, or None where it is past the greatest.
fn with_digit(value: u64, b: u8) -> Option<u64>
    requires { 48 ≤ b }
    ensures value { result ≡ within_64 (value * 10 + (b - 48)) }
    ensures small { IfSome result (λ v. v < 18446744073709551616) }
{
    let digit = u64::from(b - b'0');
    if value > (u64::MAX - digit) / 10 {
        return None;
    }
    Some(value * 10 + digit)
}

/// The value of decimal digits, or None where it is past 2^64 - 1.
#[tactic(auto, using(crate::proofs::Numbers::number_laws))]
pub fn number_value(digits: &[u8]) -> Option<u64>
    requires { list_all is_ascii_digit digits.now ≡ true }
    ensures { result ≡ number_value digits.now }
{
    let mut value = 0;
    let mut rest = digits;
    loop {
        match next(rest) {
            None => return Some(value),
            Some((b, more)) => match with_digit(value, b) {
                None => return None,
                Some(v) => {
                    value = v;
                    rest = more;
                }
            },
        }
    }
}
