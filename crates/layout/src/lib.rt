// Lays out a rounded value's digits as document 01's text: affixes, groups and symbols, written into
// an area that the caller lends.
//
// The entry is write_text. specs/Layout.antt says which digits are shown and how they are grouped,
// specs/Text.antt what stands around them, specs/Plain.antt which bytes are copied there. Every
// function is total; what an area has no room for is counted and not written. The area and the place
// reached in it go through as two parameters, as in crate area: a struct would have to lend the area
// on at each call.
#![tactic(auto)]

ghost use Rattle.std.specs.Prelude.{◌≡◌, [], ◌-◌, max, min, if◌then◌else◌};
ghost use Rattle.area.specs.Area.{Wrote};
ghost use Rattle.pattern_token.specs.Items.{items};
ghost use Rattle.symbols.specs.Entries.{symbol_in, standard_record};
ghost use Rattle.layout.specs.Layout.{whole_digits, fraction_digits, zero_digit, spell, mark, group_size, grouped, pointed};
ghost use Rattle.layout.specs.Plain.{is_plain, plain};
ghost use Rattle.layout.specs.Text.{symbol_of, render, rendered, affix_text, negative_affixes, affixes_of, minimum_in, number_text, laid_out};

use decimal::cut::{after, upto};
use decimal::scan::{leading_zeros, trimmed_len};
use pattern_reader::{Negative, Pattern, Span};
use pattern_token::{Item, Mark};
use symbols::{STANDARD, Symbol};

// A number's affixes: whether the minus symbol stands before them, and where they stand in the
// pattern.
#[derive(Clone, Copy)]
pub struct Affixes {
    pub minus: bool,
    pub prefix: Span,
    pub suffix: Span,
}

fn symbol_of(m: Mark) -> Symbol
    ensures { result ≡ symbol_of m }
{
    match m {
        Mark::Minus => Symbol::Minus,
        Mark::Plus => Symbol::Plus,
        Mark::Percent => Symbol::Percent,
        Mark::Permille => Symbol::Permille,
    }
}

// The symbol y, of the house record or else of the standard record.
fn append_symbol(out: &mut [u8], at: usize, house: &[u8], y: Symbol) -> usize
    ensures { Wrote out.old at (symbol_in house.now standard_record y) out.new result }
{
    area::append(out, at, symbols::find(house, &STANDARD, y))
}

fn append_if(out: &mut [u8], at: usize, on: bool, s: &[u8]) -> usize
    ensures { Wrote out.old at (if on then s.now else []) out.new result }
{
    if on { area::append(out, at, s) } else { at }
}

// What an item of an affix prints.
fn append_item(out: &mut [u8], at: usize, house: &[u8], t: Item) -> usize
    ensures { Wrote out.old at (render (symbol_in house.now standard_record) t) out.new result }
{
    match t {
        Item::Text(b) => area::put(out, at, b),
        Item::Symbol(m) => append_symbol(out, at, house, symbol_of(m)),
        Item::Place(_) | Item::Quote | Item::Semicolon | Item::Reserved => at,
    }
}

// Whether b stands for itself wherever it stands.
fn is_plain(b: u8) -> bool
    ensures { result ≡ is_plain b }
{
    matches!(b, b' ' | b'$' | b'F'..=0xC1 | 0xC3..=0xE1 | 0xE3..)
}

fn are_plain(s: &[u8]) -> bool
    ensures { result ≡ plain s.now }
{
    s.iter().all(|b| is_plain(*b))
}

// What an affix prints.
fn append_affix(out: &mut [u8], at: usize, house: &[u8], s: &[u8]) -> usize
    ensures { Wrote out.old at (rendered (symbol_in house.now standard_record) (items s.now)) out.new result }
{
    if are_plain(s) {
        area::append(out, at, s)
    } else {
        append_items(out, at, house, s)
    }
}

// The same, item by item.
fn append_items(out: &mut [u8], at: usize, house: &[u8], s: &[u8]) -> usize
    ensures { Wrote out.old at (rendered (symbol_in house.now standard_record) (items s.now)) out.new result }
{
    let mut k = at;
    for item in pattern_token::items_of(s) {
        k = append_item(out, k, house, item);
    }
    k
}

fn append_part(out: &mut [u8], at: usize, house: &[u8], pattern: &[u8], p: Span) -> usize
    ensures { Wrote out.old at (affix_text (symbol_in house.now standard_record) pattern.now p) out.new result }
{
    append_affix(out, at, house, upto(after(pattern, p.start), p.len))
}

// Whether a group symbol stands with so many digits to come.
fn is_marked(primary: usize, secondary: usize, left: usize) -> bool
    ensures { result ≡ mark primary secondary left }
{
    primary != 0 && primary <= left && (left - primary).is_multiple_of(secondary)
}

// The primary size of groups among so many integer digits: 0 where they are too few to be grouped.
fn primary_size(house: &[u8], primary: usize, digits: usize) -> usize
    ensures { result ≡ group_size (minimum_in (symbol_in house.now standard_record)) primary digits }
{
    if primary != 0
        && primary <= digits
        && symbols::minimum(house, &STANDARD) as usize <= digits - primary
    {
        primary
    } else {
        0
    }
}

// How a digit is spelled: as the byte that it is, while digit zero is ASCII's.
fn append_digit(out: &mut [u8], at: usize, b: u8) -> usize
    ensures { Wrote out.old at (spell zero_digit b) out.new result }
{
    area::put(out, at, b)
}

// Digits, with the group symbol among them.
fn append_digits(
    out: &mut [u8],
    at: usize,
    group: &[u8],
    primary: usize,
    secondary: usize,
    d: &[u8],
) -> usize
    ensures { Wrote out.old at (grouped zero_digit group.now primary secondary d.now) out.new result }
{
    let mut k = at;
    for (i, b) in d.iter().enumerate() {
        k = append_digit(out, k, *b);
        let left = d.len() - (i + 1);
        k = append_if(out, k, is_marked(primary, secondary, left), group);
    }
    k
}

// The decimal symbol and the fraction's digits, or nothing.
fn append_fraction(out: &mut [u8], at: usize, point: &[u8], fraction: &[u8]) -> usize
    ensures { Wrote out.old at (pointed zero_digit point.now fraction.now) out.new result }
{
    let k = append_if(out, at, !fraction.is_empty(), point);
    append_digits(out, k, b"", 0, 0, fraction)
}

// The integer digits shown of d, whose last `most` digits are the fraction's.
fn whole_shown(least: usize, most: usize, d: &[u8]) -> &[u8]
    ensures { result.now ≡ whole_digits least most d.now }
{
    let s = upto(d, d.len().saturating_sub(most));
    after(s, leading_zeros(s).min(s.len().saturating_sub(least)))
}

fn fraction_shown(least: usize, most: usize, d: &[u8]) -> &[u8]
    ensures { result.now ≡ fraction_digits least most d.now }
{
    let s = after(d, d.len().saturating_sub(most));
    upto(s, least.max(trimmed_len(s)))
}

fn append_number(out: &mut [u8], at: usize, house: &[u8], p: Pattern, d: &[u8]) -> usize
    ensures { Wrote out.old at (number_text (symbol_in house.now standard_record) p d.now) out.new result }
{
    let group = symbols::find(house, &STANDARD, Symbol::Group);
    let whole = whole_shown(p.least, p.most, d);
    let size = primary_size(house, p.primary, whole.len());
    let k = append_digits(out, at, group, size, p.secondary, whole);
    let point = symbols::find(house, &STANDARD, Symbol::Decimal);
    append_fraction(out, k, point, fraction_shown(p.fraction, p.most, d))
}

// The affixes of a number that is negative or not.
pub fn affixes_of(p: Pattern, negative: bool) -> Affixes
    ensures { result ≡ affixes_of p negative }
{
    match p.negative {
        Negative::Own(prefix, suffix) if negative => Affixes {
            minus: false,
            prefix,
            suffix,
        },
        _ => Affixes {
            minus: negative,
            prefix: p.prefix,
            suffix: p.suffix,
        },
    }
}

fn append_minus(out: &mut [u8], house: &[u8], on: bool) -> usize
    ensures { Wrote out.old 0 (if on then (symbol_in house.now standard_record (Symbol.Minus)) else []) out.new result }
{
    if on {
        append_symbol(out, 0, house, Symbol::Minus)
    } else {
        0
    }
}

// The text of the digits d under the pattern p, which was read of the bytes `pattern`, with the
// affixes a: written into out as far as it has room. Answers the bytes needed.
pub fn write_text(
    out: &mut [u8],
    house: &[u8],
    pattern: &[u8],
    p: Pattern,
    a: Affixes,
    d: &[u8],
) -> usize
    ensures { Wrote out.old 0 (laid_out (symbol_in house.now standard_record) pattern.now p a d.now) out.new result }
{
    let first = append_minus(out, house, a.minus);
    let second = append_part(out, first, house, pattern, a.prefix);
    let third = append_number(out, second, house, p, d);
    append_part(out, third, house, pattern, a.suffix)
}
