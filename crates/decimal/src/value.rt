// The value of digits, kept at CAP once it is there: no run of digits overflows or costs more than
// a step for each.
ghost use Rattle.std.specs.Prelude.{◌≡◌, ◌+◌, ◌*◌, ◌-◌, min};
ghost use Rattle.decimal.specs.Digits.{value_from, value, first, cap};

use crate::cut;
use std::iter::repeat_n;

const CAP: u64 = 1_000_000_000_000_000_000;

// The digit's value; 0 of a byte below `0`.
pub fn digit_value(b: u8) -> u64
    ensures { result ≡ b - 48 }
{
    u64::from(b.saturating_sub(b'0'))
}

// One more digit after digits of value n.
fn one_more(n: u64, b: u8) -> u64
    ensures { result ≡ min (10 * n + (b - 48)) cap }
{
    if n < CAP {
        CAP.min(10 * n + digit_value(b))
    } else {
        CAP
    }
}

// The value of the digits s after digits of value n.
pub fn value_from(n: u64, s: &[u8]) -> u64
    ensures { result ≡ min (value_from n s.now) cap }
{
    s.iter().fold(n, |m, b| one_more(m, *b)).min(CAP)
}

// The value of the digits s.
pub fn value_of(s: &[u8]) -> u64
    ensures { result ≡ min (value s.now) cap }
{
    value_from(0, s)
}

// The value of the first k digits of s, with zeros after its end, after digits of value n.
pub fn value_first(n: u64, k: usize, s: &[u8]) -> u64
    ensures { result ≡ min (value_from n (first k s.now)) cap }
{
    let zeros = repeat_n(b'0', k.saturating_sub(s.len()));
    zeros
        .fold(value_from(n, cut::upto(s, k)), one_more)
        .min(CAP)
}
