// Document 01's operands of the number with given e, v, i and f.
ghost use Rattle.std.specs.Prelude.{◌≡◌, false, ◌^◌, ◌≤◌, ◌<◌};
ghost use Rattle.number.specs.Limits.{max_exponent};
ghost use Rattle.number.specs.Admitted.{w_of, t_of, number_from};
ghost use Rattle.check_laws.specs.Check.{lowest};

use decimal::{DigitValue, Places, num};
use number::Number;

// The fraction digits without trailing zeros: their count and value.
#[derive(Clone, Copy)]
pub struct Trimmed {
    pub w: Places,
    pub t: DigitValue,
}

// 10^k.
pub fn power(k: u8) -> u64
    requires { k ≤ 18 }
    ensures { result ≡ 10 ^ k }
{
    num::power(u64::from(k))
}

// The least i that an exponent allows.
pub fn lowest_of(e: u8) -> u64
    requires { e ≤ max_exponent }
    ensures { result ≡ lowest e }
{
    if e == 0 { 0 } else { power(e) }
}

// Takes the trailing zeros of f, with v digits, off one by one.
fn strip(v: u8, f: u64) -> Trimmed
    requires { f < 10 ^ v }
    ensures { (result.w.0 ≡ w_of v f) × (result.t.0 ≡ t_of v f) }
{
    let mut w = v;
    let mut t = f;
    // Two numbers change in each turn, and the end depends on one of them.
    while 0 < w {
        if t % 10 != 0 {
            return Trimmed {
                w: Places(w),
                t: DigitValue(t),
            };
        }
        t = t / 10;
        w -= 1;
    }
    Trimmed {
        w: Places(w),
        t: DigitValue(t),
    }
}

// The number.
pub fn number_at(e: u8, v: u8, i: u64, f: u64) -> Number
    requires { f < 10 ^ v }
    ensures { result ≡ number_from false e v i f }
{
    let part = strip(v, f);
    Number {
        negative: false,
        e,
        i,
        v: Places(v),
        f: DigitValue(f),
        w: part.w,
        t: part.t,
    }
}
