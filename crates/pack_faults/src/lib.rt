// Which of the rows 22 to 26 a token falls under, and the first fault.
//
// specs/Faults.antt has both as definitions; the functions are those. Every function is total.
#![tactic(auto, using(pack_token::proofs::Spellings::spellings))]

ghost use Rattle.std.specs.Prelude.{◌≡◌, take};
ghost use Rattle.pack_grammar.specs.Limits.{is_modulus};
ghost use Rattle.pack_faults.specs.Faults.{capped, keyword_number, held, name_row, operand_row, value_row, upper_row, mark_after};

use answer::{PackRow, Place};
use decimal::cut::upto;
use decimal::value::value_of;
use pack_grammar::{MAX_CLAUSES, MAX_RANGES, MAX_RELATIONS, MAX_VALUE};

// A row of 22 to 26 and the place where it falls.
#[derive(Clone, Copy)]
pub struct Fault {
    pub row: PackRow,
    pub at: Place,
}

// The place of the last token before nothing could follow, and the first fault.
#[derive(Clone, Copy, Default)]
pub struct Mark {
    pub stop: usize,
    pub fault: Option<Fault>,
}

// The value of the token, exact up to 1,000,000.
pub fn capped_value(t: &[u8]) -> u32
    ensures { result ≡ capped t.now }
{
    value_of(t).min(1_000_001) as u32
}

pub fn keyword_number(t: &[u8]) -> u8
    ensures { result ≡ keyword_number t.now }
{
    match t {
        b"zero" => 0,
        b"one" => 1,
        b"two" => 2,
        b"few" => 3,
        b"many" => 4,
        b"other" => 5,
        _ => 6,
    }
}

// The key is one of the first n.
pub fn held_before(keys: &[u8], n: usize, key: u8) -> bool
    ensures { result ≡ held key (take n keys.now) }
{
    upto(keys, n).contains(&key)
}

pub fn name_row(key: u8, again: bool) -> Option<PackRow>
    ensures { result ≡ name_row key again }
{
    if again || 6 <= key {
        Some(PackRow::BadKeyword)
    } else {
        None
    }
}

pub fn operand_row(clauses: usize, relations: usize) -> Option<PackRow>
    ensures { result ≡ operand_row clauses relations }
{
    if clauses < MAX_CLAUSES && relations < MAX_RELATIONS {
        None
    } else {
        Some(PackRow::TooMany)
    }
}

pub fn is_modulus(m: u32) -> bool
    ensures { result ≡ is_modulus m }
{
    matches!(m, 10 | 100 | 1000 | 10_000 | 100_000 | 1_000_000)
}

pub fn value_row(v: u32, values: usize) -> Option<PackRow>
    ensures { result ≡ value_row v values }
{
    if MAX_VALUE < v {
        Some(PackRow::ValueTooLarge)
    } else if values < MAX_RANGES {
        None
    } else {
        Some(PackRow::TooMany)
    }
}

pub fn upper_row(v: u32, low: u32) -> Option<PackRow>
    ensures { result ≡ upper_row v low }
{
    if MAX_VALUE < v {
        Some(PackRow::ValueTooLarge)
    } else if v < low {
        Some(PackRow::RangeReversed)
    } else {
        None
    }
}

pub fn mark_after(m: Mark, stop: usize, row: Option<PackRow>, at: usize) -> Mark
    ensures { result ≡ mark_after m stop row at }
{
    let fault = match row {
        Some(row) if m.fault.is_none() => Some(Fault { row, at: Place(at) }),
        _ => m.fault,
    };
    Mark { stop, fault }
}
