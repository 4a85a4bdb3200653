// Reads a number text: document 01's operands, or refusals 10 to 15. Here the text is cut into its
// sign, digits and exponent; crate number judges the parts and says what is read.
//
// The entry is read_number.
#![tactic(auto)]

ghost use Rattle.std.specs.Prelude.{◌≡◌};
ghost use Rattle.decimal.specs.Digits.{AllDigits};
ghost use Rattle.number.specs.Grammar.{is_mark, is_exponent};
ghost use Rattle.number.specs.Reading.{exponent_at, point_at, whole_at, judged, read_number};

use answer::{NumberRow, Refusal};
use decimal::{cut, scan};
use number::Number;

// `c` or `e`
fn is_mark(b: u8) -> bool
    ensures { result ≡ is_mark b }
{
    matches!(b, b'c' | b'e')
}

fn is_exponent(s: &[u8]) -> bool
    ensures { result ≡ is_exponent s.now }
{
    !s.is_empty() && s[0] != b'0' && scan::digit_run(s) == s.len()
}

// Behind the digits: nothing, or a mark and an exponent.
fn read_exponent(negative: bool, whole: &[u8], fraction: &[u8], s: &[u8]) -> Result<Number, Refusal>
    requires { AllDigits whole.now × AllDigits fraction.now }
    ensures { result ≡ judged (exponent_at negative whole.now fraction.now s.now) }
{
    let exponent = match s {
        [] => s,
        [mark, exponent @ ..] if is_mark(*mark) && is_exponent(exponent) => exponent,
        _ => return number::refuse(NumberRow::NotANumber),
    };
    number::parted(negative, whole, fraction, exponent)
}

fn read_point(negative: bool, whole: &[u8], s: &[u8]) -> Result<Number, Refusal>
    requires { AllDigits whole.now }
    ensures { result ≡ judged (point_at negative whole.now s.now) }
{
    // Cut by a flag: two ways on would be several times as slow for a short number.
    let pointed = cut::begins_with(s, b'.');
    let behind = cut::after(s, usize::from(pointed));
    let n = if pointed { scan::digit_run(behind) } else { 0 };
    if pointed && n == 0 {
        return number::refuse(NumberRow::NotANumber);
    }
    read_exponent(negative, whole, cut::upto(behind, n), cut::after(behind, n))
}

fn read_whole(negative: bool, s: &[u8]) -> Result<Number, Refusal>
    ensures { result ≡ judged (whole_at negative s.now) }
{
    let (whole, rest) = s.split_at(scan::digit_run(s));
    if whole.is_empty() {
        return number::refuse(NumberRow::NotANumber);
    }
    read_point(negative, whole, rest)
}

// The number that a text spells, or refusals 10 to 15 in the order of the table.
pub fn read_number(text: &[u8]) -> Result<Number, Refusal>
    ensures { result ≡ read_number text.now }
{
    if number::MAX_BYTES < text.len() {
        return number::refuse(NumberRow::NumberTooLong);
    }
    // Here too.
    let negative = cut::begins_with(text, b'-');
    read_whole(negative, cut::after(text, usize::from(negative)))
}
