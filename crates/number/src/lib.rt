// The number on the wire: what its text is, its operands by document 01, and refusals 12 to 15 of
// its parts (parted). Crate number_text reads the text.
//
// specs/Grammar.antt says what a number's text is, specs/Reading.antt what is read of it,
// specs/Limits.antt the limits, each of which is one constant here.
#![tactic(auto)]

ghost use Rattle.std.specs.Prelude.{◌≡◌, ◌≤◌};
ghost use Rattle.decimal.specs.Digits.{AllDigits};
ghost use Rattle.number.specs.Limits.{max_exponent};
ghost use Rattle.number.specs.Reading.{parts_from, after_zero, sized, judge};

use answer::{NumberRow, Refusal};
use decimal::{DigitValue, Places, cut, scan, value};

pub const MAX_BYTES: usize = 64;

pub const MAX_EXPONENT: u64 = 14;

pub const INTEGER_LIMIT: u64 = 1_000_000_000_000_000;

pub const MAX_PLACES: usize = 9;

// A number as read: its sign, and document 01's operands of the absolute value.
#[derive(Clone, Copy)]
pub struct Number {
    pub negative: bool,
    pub e: u8,
    pub i: u64,
    pub v: Places,
    pub f: DigitValue,
    pub w: Places,
    pub t: DigitValue,
}

pub fn refuse(row: NumberRow) -> Result<Number, Refusal>
    ensures { result ≡ Err (Refusal.Number row) }
{
    Err(Refusal::Number(row))
}

// An exponent is written after a zero integer part.
fn after_zero(whole: &[u8], exponent: &[u8]) -> bool
    ensures { result ≡ after_zero whole.now exponent.now }
{
    !exponent.is_empty() && value::value_of(whole) == 0
}

// The number with its point shifted e places to the right.
fn shifted(negative: bool, whole: &[u8], fraction: &[u8], e: u64) -> Result<Number, Refusal>
    requires { (e ≤ max_exponent) × AllDigits whole.now × AllDigits fraction.now }
    ensures { result ≡ sized negative whole.now fraction.now e }
{
    let places = e as usize;
    let i = value::value_first(value::value_of(whole), places, fraction);
    if INTEGER_LIMIT <= i {
        return refuse(NumberRow::IntegerTooLong);
    }
    let rest = cut::after(fraction, places);
    let v = rest.len();
    if MAX_PLACES < v {
        return refuse(NumberRow::FractionTooLong);
    }
    let w = scan::trimmed_len(rest);
    let f = value::value_of(rest);
    let t = value::value_of(cut::upto(rest, w));
    Ok(Number {
        negative,
        e: e as u8,
        i,
        v: Places(v as u8),
        f: DigitValue(f),
        w: Places(w as u8),
        t: DigitValue(t),
    })
}

// The parts are told: refusals 12 to 15, or the number.
pub fn parted(
    negative: bool,
    whole: &[u8],
    fraction: &[u8],
    exponent: &[u8],
) -> Result<Number, Refusal>
    requires { AllDigits whole.now × AllDigits fraction.now }
    ensures { result ≡ judge (parts_from negative whole.now fraction.now exponent.now) }
{
    let e = value::value_of(exponent);
    if MAX_EXPONENT < e {
        return refuse(NumberRow::ExponentTooLarge);
    }
    if after_zero(whole, exponent) {
        return refuse(NumberRow::ExponentAfterZero);
    }
    shifted(negative, whole, fraction, e)
}
