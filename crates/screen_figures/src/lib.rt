// What a caller from C or Rust gets of each job's answer: a code, 0 or the number of document 01's
// refusal, and the figures.
//
// The figures come in an area of eight: how many there are, then they; entries past them keep what
// they held. The entries are note_reading, note_selection, note_check and note_printed, one for each
// job's answer. specs/Figures.antt says which code and which figures an answer has.
#![tactic(auto)]

ghost use Rattle.std.specs.Prelude.{◌≡◌, [], ◌∷◌, ◌≤◌, min, length, take, set};
ghost use Rattle.std.proofs.lemmas.List.Edits.{sets};
ghost use Rattle.answer.specs.Table.{number_of, figures_of};
ghost use Rattle.screen_figures.specs.Figures.{noted, sign_of, operands_of, word_number, read_code, read_figures, select_code, select_figures, check_code, check_figures, print_code, print_figures};

use answer::{Keyword, Refusal};
use number::Number;

// Stores a figure at a place, if there is one.
fn put(figures: &mut [u64], at: usize, x: u64)
    ensures { figures.new ≡ set figures.old at x }
{
    if at < figures.len() {
        figures[at] = x;
    }
}

// Stores the first n values behind the count's place.
fn put_values(figures: &mut [u64], values: &[u64], n: usize)
    requires { n ≤ length values.now }
    ensures { figures.new ≡ sets figures.old 1 (take n values.now) }
{
    for k in 0..n {
        put(figures, k + 1, values[k]);
    }
}

// Stores how many of the first `count` values there are, and then they.
fn note(figures: &mut [u64; 8], values: &[u64], count: usize)
    ensures { figures.new ≡ noted (take count values.now) figures.old }
{
    let n = count.min(values.len());
    put(figures, 0, n as u64);
    put_values(figures, values, n);
}

// A refusal's number, and its figures stored.
fn note_refusal(figures: &mut [u64; 8], refusal: Refusal) -> u32
    ensures value { result ≡ number_of refusal }
    ensures figures_after { figures.new ≡ noted (figures_of refusal) figures.old }
{
    let list = answer_lists::figures(refusal);
    note(figures, &list.values, list.count);
    u32::from(answer_table::number(refusal))
}

fn sign_of(negative: bool) -> u64
    ensures { result ≡ sign_of negative }
{
    if negative { 1 } else { 0 }
}

fn note_number(figures: &mut [u64; 8], x: Number) -> u32
    ensures value { result ≡ 0 }
    ensures figures_after { figures.new ≡ noted (operands_of x) figures.old }
{
    let values = [
        sign_of(x.negative),
        u64::from(x.e),
        u64::from(x.v.0),
        x.i,
        x.f.0,
        u64::from(x.w.0),
        x.t.0,
    ];
    note(figures, &values, 7);
    0
}

fn word_number(k: Keyword) -> u64
    ensures { result ≡ word_number k }
{
    match k {
        Keyword::Zero => 0,
        Keyword::One => 1,
        Keyword::Two => 2,
        Keyword::Few => 3,
        Keyword::Many => 4,
        Keyword::Other => 5,
    }
}

fn note_one(figures: &mut [u64; 8], x: u64) -> u32
    ensures value { result ≡ 0 }
    ensures figures_after { figures.new ≡ noted (x ∷ []) figures.old }
{
    note(figures, &[x], 1);
    0
}

fn note_none(figures: &mut [u64; 8]) -> u32
    ensures value { result ≡ 0 }
    ensures figures_after { figures.new ≡ noted [] figures.old }
{
    note(figures, &[], 0);
    0
}

// A number's reading: sign (1: negative), e, v, i, f, w, t, or the refusal.
pub fn note_reading(figures: &mut [u64; 8], reading: Result<Number, Refusal>) -> u32
    ensures value { result ≡ read_code reading }
    ensures figures_after { figures.new ≡ noted (read_figures reading) figures.old }
{
    match reading {
        Ok(x) => note_number(figures, x),
        Err(r) => note_refusal(figures, r),
    }
}

// A selection: the word's number, 0 to 5 for zero, one, two, few, many, other; or the refusal.
pub fn note_selection(figures: &mut [u64; 8], selection: Result<Keyword, Refusal>) -> u32
    ensures value { result ≡ select_code selection }
    ensures figures_after { figures.new ≡ noted (select_figures selection) figures.old }
{
    match selection {
        Ok(k) => note_one(figures, word_number(k)),
        Err(r) => note_refusal(figures, r),
    }
}

// A pack's check: no figures where it passes, or the refusal.
pub fn note_check(figures: &mut [u64; 8], checked: Result<(), Refusal>) -> u32
    ensures value { result ≡ check_code checked }
    ensures figures_after { figures.new ≡ noted (check_figures checked) figures.old }
{
    match checked {
        Ok(()) => note_none(figures),
        Err(r) => note_refusal(figures, r),
    }
}

// What was printed: the text's length, or the refusal.
pub fn note_printed(figures: &mut [u64; 8], printed: Result<usize, Refusal>) -> u32
    ensures value { result ≡ print_code printed }
    ensures figures_after { figures.new ≡ noted (print_figures printed) figures.old }
{
    match printed {
        Ok(n) => note_one(figures, n as u64),
        Err(r) => note_refusal(figures, r),
    }
}
