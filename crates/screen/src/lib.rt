// The library that a screen links: every job as an entry for C and Rust.
//
// An entry answers 0, or the number of document 01's refusal. The figures come in an area of eight:
// how many there are, then they; entries past them keep what they held. No entry needs anything
// tested first. include/okwazibelu.h has the same entries for C. Crate screen_figures has the code and
// the figures of an answer; its specs/Figures.antt says which they are.
#![tactic(auto)]

ghost use Rattle.std.specs.Prelude.{◌≡◌};
ghost use Rattle.number.specs.Reading.{read_number};
ghost use Rattle.select_text.specs.Select.{select_of};
ghost use Rattle.check_text.specs.Check.{check_pack};
ghost use Rattle.print.specs.Outcome.{outcome, answer_of, area_of};
ghost use Rattle.screen_figures.specs.Figures.{noted, read_code, read_figures, select_code, select_figures, check_code, check_figures, print_code, print_figures};

// Reads a number: sign (1: negative), e, v, i, f, w, t, or refusal 10 to 15.
#[unsafe(no_mangle)]
pub extern "C" fn okw_read_number(number: &[u8], figures: &mut [u64; 8]) -> u32
    ensures value { result ≡ read_code (read_number number.now) }
    ensures figures_after { figures.new ≡ noted (read_figures (read_number number.now)) figures.old }
{
    screen_figures::note_reading(figures, number_text::read_number(number))
}

// The number's word by the pack, 0 to 5 for zero, one, two, few, many, other; or the refusal of the
// pack, of the number, or 27.
#[unsafe(no_mangle)]
pub extern "C" fn okw_select(pack: &[u8], number: &[u8], figures: &mut [u64; 8]) -> u32
    ensures value { result ≡ select_code (select_of pack.now number.now) }
    ensures figures_after { figures.new ≡ noted (select_figures (select_of pack.now number.now)) figures.old }
{
    screen_figures::note_selection(figures, select_text::select(pack, number))
}

// Checks a pack: no figures where it passes, or refusal 20 to 27.
#[unsafe(no_mangle)]
pub extern "C" fn okw_check(pack: &[u8], figures: &mut [u64; 8]) -> u32
    ensures value { result ≡ check_code (check_pack pack.now) }
    ensures figures_after { figures.new ≡ noted (check_figures (check_pack pack.now)) figures.old }
{
    screen_figures::note_check(figures, check_text::check(pack))
}

// Prints a number through a pattern into out, with the symbols of the record and the standard symbols
// where it lacks one: the text's length, or the refusal of the symbols, of the pattern, of the number,
// 50 or 51. A refusal leaves out as it was.
#[unsafe(no_mangle)]
pub extern "C" fn okw_print(
    symbols: &[u8],
    pattern: &[u8],
    number: &[u8],
    out: &mut [u8],
    figures: &mut [u64; 8],
) -> u32
    ensures value { result ≡ print_code (answer_of (outcome symbols.now pattern.now number.now) out.old) }
    ensures out_after { out.new ≡ area_of (outcome symbols.now pattern.now number.now) out.old }
    ensures figures_after { figures.new ≡ noted (print_figures (answer_of (outcome symbols.now pattern.now number.now) out.old)) figures.old }
{
    screen_figures::note_printed(figures, print::print(symbols, pattern, number, out))
}
