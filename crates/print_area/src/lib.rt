// A number's text in the area that the caller lends: whole at its front, or nothing of it and the bytes
// needed.
//
// write_digits is for crate print, which knows from what it read how long a text can be. specs/Whole.antt
// says what it answers and what the area holds behind. The text itself is layout's.
#![tactic(auto)]

ghost use Rattle.std.specs.Prelude.{◌≡◌, ◌≤◌, length};
ghost use Rattle.area.specs.Area.{most};
ghost use Rattle.symbols.specs.Entries.{symbol_in, standard_record};
ghost use Rattle.layout.specs.Text.{affixes_of, laid_out};
ghost use Rattle.print_area.specs.Whole.{written_in, area_with};

use answer::{PrintRow, Refusal};
use pattern_reader::Pattern;

// A text of at most so many bytes is laid out once.
const ROOM: usize = 64;

// The digits as the pattern's text. It is laid out aside, so that nothing is written of one that is too
// long; one that had no room there is laid out again. Answers the text's length, or the bytes needed
// where it is longer than the area.
pub fn write_digits(
    house: &[u8],
    pattern: &[u8],
    p: Pattern,
    negative: bool,
    digits: &[u8],
    out: &mut [u8],
) -> Result<usize, Refusal>
    requires { length (laid_out (symbol_in house.now standard_record) pattern.now p (affixes_of p negative) digits.now) ≤ most }
    ensures value { result ≡ written_in (laid_out (symbol_in house.now standard_record) pattern.now p (affixes_of p negative) digits.now) out.old }
    ensures out_after { out.new ≡ area_with (laid_out (symbol_in house.now standard_record) pattern.now p (affixes_of p negative) digits.now) out.old }
{
    let a = layout::affixes_of(p, negative);
    let mut aside = [0u8; ROOM];
    let need = layout::write_text(&mut aside, house, pattern, p, a, digits);
    if out.len() < need {
        return Err(Refusal::Print(PrintRow::AreaTooShort(need)));
    }
    if need <= ROOM {
        area::append(out, 0, decimal::cut::upto(&aside, need));
    } else {
        layout::write_text(out, house, pattern, p, a, digits);
    }
    Ok(need)
}
