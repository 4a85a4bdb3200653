// The symbol record: refusals 40 and 41, and the body of a symbol.
//
// The entries are read_symbols, find and minimum. specs/Kinds.antt says what a kind byte means,
// specs/Entries.antt what a record of such kinds holds, by the definitions of crate records. A new
// kind is a line in the enum, in kind_of and in their definitions.
#![tactic(auto)]

ghost use Rattle.std.specs.Prelude.{◌≡◌, None, MatchOption, get_or};
ghost use Rattle.std.specs.Option.{option_map};
ghost use Rattle.records.specs.Entries.{head_of, Stands, Located};
ghost use Rattle.symbols.specs.Kinds.{upper_of, kind_of, name_of, length_of};
ghost use Rattle.symbols.specs.Entries.{entries, broken, twice, body_fits, fits_as, bodies_fit, read_symbols, symbol_in};

use answer::{Refusal, SymbolRow};

// The last is the minimum grouping digits: its body is no text but a number.
#[derive(Clone, Copy, PartialEq, Eq)]
pub enum Symbol {
    Decimal,
    Group,
    Minus,
    Plus,
    Percent,
    Permille,
    Minimum,
}

pub const STANDARD: [u8; 16] = [
    0x11, 0x2E, 0x21, 0x2C, 0x31, 0x2D, 0x41, 0x2B, 0x51, 0x25, 0x63, 0xE2, 0x80, 0xB0, 0x71, 0x01,
];

// What a kind byte means: a symbol and its body's length.
#[tactic(auto, unfolding(crate::specs::Kinds::kind_of))]
fn kind_of(b: u8) -> Option<(Symbol, usize)>
    ensures { result ≡ kind_of b }
{
    let len = usize::from(b % 16);
    match b {
        0x11..=0x14 => Some((Symbol::Decimal, len)),
        0x21..=0x24 => Some((Symbol::Group, len)),
        0x31..=0x34 => Some((Symbol::Minus, len)),
        0x41..=0x44 => Some((Symbol::Plus, len)),
        0x51..=0x54 => Some((Symbol::Percent, len)),
        0x61..=0x64 => Some((Symbol::Permille, len)),
        0x71 => Some((Symbol::Minimum, 1)),
        _ => None,
    }
}

// The entry that s begins with: its symbol, its body, and the bytes behind it.
fn split_entry(s: &[u8]) -> Option<(Symbol, &[u8], &[u8])>
    ensures { MatchOption result (head_of length_of name_of s.now ≡ None) (λ e. Stands length_of name_of s.now (upper_of e.0) e.1.now e.2.now) }
{
    let (b, rest) = s.split_first()?;
    let (symbol, len) = kind_of(*b)?;
    let head = records::head_in(symbol, len, s.len())?;
    let (body, behind) = rest.split_at(head.len);
    Some((symbol, body, behind))
}

// Whether s has an unknown kind or a body cut short.
fn is_broken(mut s: &[u8]) -> bool
    ensures { result ≡ broken s.now }
{
    while let Some((_, _, rest)) = split_entry(s) {
        s = rest;
    }
    !s.is_empty()
}

// The body of the first entry in s of the symbol y.
fn locate(mut s: &[u8], y: Symbol) -> Option<&[u8]>
    ensures { Located length_of name_of (upper_of y) s.now (option_map (λ b. b.now) result) }
{
    while let Some((symbol, body, rest)) = split_entry(s) {
        if symbol == y {
            return Some(body);
        }
        s = rest;
    }
    None
}

// Whether s has a symbol twice. No more than seven entries are passed before that is known.
fn is_twice(mut s: &[u8]) -> bool
    ensures { result ≡ twice (entries s.now) }
{
    while let Some((symbol, _, rest)) = split_entry(s) {
        if locate(rest, symbol).is_some() {
            return true;
        }
        s = rest;
    }
    false
}

fn body_fits(s: &[u8]) -> bool
    ensures { result ≡ body_fits s.now }
{
    utf8::is_char(s) && !first(s).is_ascii_digit()
}

// Whether s is a body of the symbol.
fn fits_as(y: Symbol, s: &[u8]) -> bool
    ensures { result ≡ fits_as (upper_of y) s.now }
{
    match y {
        Symbol::Minimum => matches!(first(s), 1..=4),
        _ => body_fits(s),
    }
}

fn do_bodies_fit(mut s: &[u8]) -> bool
    ensures { result ≡ bodies_fit (entries s.now) }
{
    while let Some((symbol, body, rest)) = split_entry(s) {
        if !fits_as(symbol, body) {
            return false;
        }
        s = rest;
    }
    true
}

// Judges a symbol record.
pub fn read_symbols(s: &[u8]) -> Result<(), Refusal>
    ensures { result ≡ read_symbols s.now }
{
    if is_broken(s) || is_twice(s) {
        Err(Refusal::Symbols(SymbolRow::NotASymbolRecord))
    } else if do_bodies_fit(s) {
        Ok(())
    } else {
        Err(Refusal::Symbols(SymbolRow::BadSymbolBody))
    }
}

// The symbol's body: a part of the house record where that has the symbol, else of the standard record.
pub fn find<'a>(house: &'a [u8], standard: &'a [u8], y: Symbol) -> &'a [u8]
    ensures { result.now ≡ symbol_in house.now standard.now y }
{
    locate(house, y)
        .or_else(|| locate(standard, y))
        .unwrap_or(&standard[..0])
}

// The first byte of s, or 0.
fn first(s: &[u8]) -> u8
    ensures { result ≡ get_or s.now 0 0 }
{
    s.first().copied().unwrap_or(0)
}

// The minimum grouping digits: the byte of its body.
pub fn minimum<'a>(house: &'a [u8], standard: &'a [u8]) -> u8
    ensures { result ≡ get_or (symbol_in house.now standard.now (Symbol.Minimum)) 0 0 }
{
    first(find(house, standard, Symbol::Minimum))
}
