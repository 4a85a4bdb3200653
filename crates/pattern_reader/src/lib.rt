// Reads a pattern: refusals 30 to 36, and where its parts stand and what its number part asks for.
//
// The entry is read_pattern. specs/Reading.antt says what is read, specs/Limits.antt the bounds, each
// of which is one constant here; crate pattern_grammar, specs/Grammar.antt, what a pattern is.
#![tactic(auto)]

ghost use Rattle.std.specs.Prelude.{◌≡◌, ◌+◌, ◌≤◌, length};
ghost use Rattle.pattern_reader.specs.Reading.{places, half_of, fits, many_places, step_over, many_marks, same_marks, span, factor_of, pattern_of, judged, own_affixes, halves, read_pattern, capped_half};

use answer::{PatternRow, Refusal};
use decimal::cut;
use pattern_number::Shape;
use pattern_token::Mark;

const MAX_BYTES: usize = 256;

const MAX_WHOLE: usize = 15;

const MAX_FRACTION: usize = 9;

const MAX_STEP: u64 = 999_999;

// A part of the pattern.
#[derive(Clone, Copy)]
pub struct Span {
    pub start: usize,
    pub len: usize,
}

// What a negative number is printed with: the minus symbol before the positive affixes, or a prefix
// and a suffix of its own.
#[derive(Clone, Copy)]
pub enum Negative {
    MinusSymbol,
    Own(Span, Span),
}

// A subpattern, of any bytes: how many its parts have, whether its suffix leaves no quote open, what its
// number part asks for, and how often the marks stand in its affixes.
#[derive(Clone, Copy)]
pub struct Half {
    pub prefix: usize,
    pub number: usize,
    pub suffix: usize,
    pub closed: bool,
    pub shape: Shape,
    pub percents: usize,
    pub permilles: usize,
}

// A pattern as read: its parts, least integer digits, least and most fraction digits, group sizes
// (0: no groups), the step in units of the last fraction place, and what percent or permille
// multiplies by.
#[derive(Clone, Copy)]
pub struct Pattern {
    pub prefix: Span,
    pub number: Span,
    pub suffix: Span,
    pub least: usize,
    pub fraction: usize,
    pub most: usize,
    pub primary: usize,
    pub secondary: usize,
    pub step: u64,
    pub factor: u64,
    pub negative: Negative,
}

fn refuse(row: PatternRow) -> Result<Pattern, Refusal>
    ensures { result ≡ Err (Refusal.Pattern row) }
{
    Err(Refusal::Pattern(row))
}

// How many number-part bytes s begins with.
fn place_run(s: &[u8]) -> usize
    ensures { (result ≡ places s.now) × (result ≤ length s.now) }
{
    s.iter()
        .take_while(|b| pattern_token::is_place(**b))
        .count()
}

// Reads the subpattern that s begins with.
fn read_half(s: &[u8]) -> Half
    ensures value { result ≡ capped_half (half_of s.now) }
    ensures suffix_in_bounds { result.prefix + result.number + result.suffix ≤ length s.now }
{
    let a = pattern_affix::affix_of(s);
    let p = a.len;
    let rest = cut::after(s, p);
    let n = place_run(rest);
    let behind = cut::after(s, p + n);
    let x = pattern_affix::affix_of(behind);
    let prefix = cut::upto(s, p);
    let suffix = cut::upto(behind, x.len);
    let shape = pattern_number::read_part(cut::upto(rest, n));
    Half {
        prefix: p,
        number: n,
        suffix: x.len,
        closed: x.closed,
        shape,
        percents: pattern_affix::count_marks(Mark::Percent, prefix)
            + pattern_affix::count_marks(Mark::Percent, suffix),
        permilles: pattern_affix::count_marks(Mark::Permille, prefix)
            + pattern_affix::count_marks(Mark::Permille, suffix),
    }
}

fn does_fit(h: Half) -> bool
    ensures { result ≡ fits h }
{
    h.closed && h.shape.fits
}

fn has_many_places(h: Half) -> bool
    ensures { result ≡ many_places h }
{
    MAX_WHOLE < h.shape.whole || MAX_FRACTION < h.shape.most
}

fn is_step_over(h: Half) -> bool
    ensures { result ≡ step_over h }
{
    MAX_STEP < h.shape.step
}

fn has_many_marks(h: Half) -> bool
    ensures { result ≡ many_marks h }
{
    1 < h.percents.saturating_add(h.permilles)
}

fn has_same_marks(a: Half, b: Half) -> bool
    ensures { result ≡ same_marks a b }
{
    a.percents == b.percents && a.permilles == b.permilles
}

fn factor_of(h: Half) -> u64
    ensures { result ≡ factor_of h }
{
    if 0 < h.percents {
        100
    } else if 0 < h.permilles {
        1000
    } else {
        1
    }
}

fn span_at(start: usize, len: usize) -> Span
    ensures { result ≡ span start len }
{
    Span { start, len }
}

fn pattern_of(h: Half, negative: Negative) -> Pattern
    requires { h.prefix + h.number ≤ 256 }
    ensures { result ≡ pattern_of h negative }
{
    let p = h.shape;
    Pattern {
        prefix: span_at(0, h.prefix),
        number: span_at(h.prefix, h.number),
        suffix: span_at(h.prefix + h.number, h.suffix),
        least: p.least,
        fraction: p.fraction,
        most: p.most,
        primary: p.primary,
        secondary: p.secondary,
        step: p.step,
        factor: factor_of(h),
        negative,
    }
}

// The table's rows 33 to 36 of the subpatterns a and b, in their order, or the pattern.
fn judge(a: Half, b: Half, negative: Negative) -> Result<Pattern, Refusal>
    requires { a.prefix + a.number ≤ 256 }
    ensures { result ≡ judged a b negative }
{
    if !does_fit(a) || !does_fit(b) {
        refuse(PatternRow::NotAPattern)
    } else if has_many_places(a) || has_many_places(b) {
        refuse(PatternRow::TooManyPlaces)
    } else if is_step_over(a) || is_step_over(b) {
        refuse(PatternRow::StepTooLarge)
    } else if has_many_marks(a) || has_many_marks(b) || !has_same_marks(a, b) {
        refuse(PatternRow::PercentMismatch)
    } else {
        Ok(pattern_of(a, negative))
    }
}

// The affixes of the subpattern b, which starts at a place.
fn own_affixes(at: usize, b: Half) -> Negative
    requires { at + b.prefix + b.number ≤ 256 }
    ensures { result ≡ own_affixes at b }
{
    let prefix = span_at(at, b.prefix);
    let suffix = span_at(at + b.prefix + b.number, b.suffix);
    Negative::Own(prefix, suffix)
}

// Reads the subpatterns of s: the second from the pattern's middle, by the same reader.
fn read_halves(s: &[u8]) -> Result<Pattern, Refusal>
    requires { length s.now ≤ 256 }
    ensures { result ≡ halves s.now }
{
    let a = read_half(s);
    let end = a.prefix + a.number + a.suffix;
    let Some((first, rest)) = cut::after(s, end).split_first() else {
        return judge(a, a, Negative::MinusSymbol);
    };
    if *first != b';' {
        return refuse(PatternRow::NotAPattern);
    }
    let b = read_half(rest);
    if b.prefix + b.number + b.suffix != rest.len() {
        return refuse(PatternRow::NotAPattern);
    }
    judge(a, b, own_affixes(end + 1, b))
}

// Reads a pattern.
pub fn read_pattern(s: &[u8]) -> Result<Pattern, Refusal>
    ensures { result ≡ read_pattern s.now }
{
    if MAX_BYTES < s.len() {
        refuse(PatternRow::PatternTooLong)
    } else if !utf8::is_utf8(s) {
        refuse(PatternRow::PatternNotUtf8)
    } else if pattern_affix::has_reserved(s) {
        refuse(PatternRow::ReservedByte)
    } else {
        read_halves(s)
    }
}
