// Prints a number through a pattern: document 01's text in the area that the caller lends, or the
// refusal.
//
// The entry is print. specs/Outcome.antt says which refusal or text it is and what the area holds
// behind; crate print_area writes it.
#![tactic(auto)]

ghost use Rattle.std.specs.Prelude.{◌≡◌, true, ◌≤◌, length};
ghost use Rattle.area.specs.Area.{most};
ghost use Rattle.rounding.specs.Limits.{within};
ghost use Rattle.symbols.specs.Entries.{read_symbols, symbol_in, standard_record};
ghost use Rattle.pattern_reader.specs.Reading.{read_pattern};
ghost use Rattle.number.specs.Reading.{read_number};
ghost use Rattle.layout.specs.Text.{text_of};
ghost use Rattle.print.specs.Outcome.{of_number, outcome, answer_of, area_of};

use answer::{PrintRow, Refusal};
use number::Number;
use pattern_reader::Pattern;

// The number is read: 50, and then its digits.
fn print_number(
    house: &[u8],
    pattern: &[u8],
    p: Pattern,
    n: Number,
    out: &mut [u8],
) -> Result<usize, Refusal>
    requires rounds { within p.step p.factor p.most n.i n.v.0 n.f.0 ≡ true }
    requires text_fits { length (text_of (symbol_in house.now standard_record) pattern.now p n) ≤ most }
    ensures value { result ≡ answer_of (of_number house.now pattern.now p n) out.old }
    ensures out_after { out.new ≡ area_of (of_number house.now pattern.now p n) out.old }
{
    if 0 < n.e {
        return Err(Refusal::Print(PrintRow::PrintedExponent));
    }
    let mut digits = [b'0'; 41];
    rounding::round_into(&mut digits, p.step, p.factor, p.most, n.i, n.v, n.f);
    print_area::write_digits(house, pattern, p, n.negative, &digits, out)
}

// Prints the number through the pattern with the symbols of the record, and the standard symbols where
// it lacks one. A refusal leaves the area as it was; a success writes its text at the front and no
// byte beyond, and answers its length.
pub fn print(
    symbols: &[u8],
    pattern: &[u8],
    number: &[u8],
    out: &mut [u8],
) -> Result<usize, Refusal>
    ensures value { result ≡ answer_of (outcome symbols.now pattern.now number.now) out.old }
    ensures out_after { out.new ≡ area_of (outcome symbols.now pattern.now number.now) out.old }
{
    symbols::read_symbols(symbols)?;
    let p = pattern_reader::read_pattern(pattern)?;
    let n = number_text::read_number(number)?;
    print_number(symbols, pattern, p, n, out)
}
