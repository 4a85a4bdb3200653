// Reads the number part of a pattern: whether it has its grammar, and what it asks for.
//
// The entry is read_part. specs/Shape.antt says what is read of which bytes.
#![tactic(auto)]

ghost use Rattle.std.specs.Prelude.{◌≡◌, false, ◌+◌, ◌≤◌, ◌<◌, min, length, MatchOption};
ghost use Rattle.pattern_number.specs.Shape.{count, ordered, apart, whole_fits, hashes, fraction_fits, number_fits, last, primary_of, secondary_of, unit, step_of, shape_of, step_cap, capped};

use decimal::value::digit_value;
use decimal::{cut, scan};

const STEP_CAP: u64 = 1_000_000;

// What a number part asks for: `fits` where it has the grammar; least integer digits, integer places,
// least and most fraction digits, group sizes (0: no groups), and the step in units of the last
// fraction place. A flag and no Option: the definition shape_of has every number for any bytes.
#[derive(Clone, Copy)]
pub struct Shape {
    pub fits: bool,
    pub least: usize,
    pub whole: usize,
    pub fraction: usize,
    pub most: usize,
    pub primary: usize,
    pub secondary: usize,
    pub step: u64,
}

// How many bytes of s are from low to high.
fn count_in(s: &[u8], low: u8, high: u8) -> usize
    ensures { (result ≡ count low high s.now) × (result ≤ length s.now) }
{
    s.iter().filter(|b| low <= **b && **b <= high).count()
}

// Whether `#` stand first in s, then digits, commas anywhere.
fn is_ordered(s: &[u8]) -> bool
    ensures { result ≡ ordered false s.now }
{
    s.iter()
        .filter(|b| **b != b',')
        .skip_while(|b| **b == b'#')
        .all(|b| scan::is_digit(*b))
}

// Whether no comma of s is last, or adjacent to another.
fn are_apart(s: &[u8]) -> bool
    ensures { result ≡ apart s.now }
{
    let next = cut::after(s, 1);
    !s.ends_with(b",") && !s.iter().zip(next).any(|(a, b)| *a == b',' && *b == b',')
}

fn whole_fits(s: &[u8]) -> bool
    ensures { result ≡ whole_fits s.now }
{
    !cut::begins_with(s, b',') && are_apart(s) && is_ordered(s)
}

// How many `#` s begins with.
fn hash_run(s: &[u8]) -> usize
    ensures { (result ≡ hashes s.now) × (result ≤ length s.now) }
{
    s.iter().take_while(|b| **b == b'#').count()
}

fn fraction_fits(s: &[u8]) -> bool
    ensures { result ≡ fraction_fits s.now }
{
    let n = scan::digit_run(s);
    n + hash_run(cut::after(s, n)) == s.len()
}

// How many places stand behind the last comma of s.
fn last_group(s: &[u8]) -> Option<usize>
    ensures { MatchOption result (last 44 s.now ≡ 0) (λ n. (0 < last 44 s.now) × (last 44 s.now + n ≡ length s.now)) }
{
    s.iter().rev().position(|b| *b == b',')
}

fn primary_of(s: &[u8]) -> usize
    ensures { result ≡ primary_of s.now }
{
    last_group(s).unwrap_or(0)
}

fn secondary_of(s: &[u8]) -> usize
    ensures { result ≡ secondary_of s.now }
{
    match last_group(s) {
        Some(n) => last_group(&s[..s.len() - n - 1]).unwrap_or(n),
        None => 0,
    }
}

// One byte more of the step, kept at STEP_CAP once it is there.
fn unit_more(n: u64, b: u8) -> u64
    ensures { result ≡ min (unit n b) step_cap }
{
    let more = match b {
        b'#' => n.saturating_mul(10),
        b'0'..=b'9' => n.saturating_mul(10).saturating_add(digit_value(b)),
        _ => n,
    };
    more.min(STEP_CAP)
}

fn step_of(s: &[u8]) -> u64
    ensures { result ≡ min (step_of s.now) step_cap }
{
    s.iter().fold(0, |n, b| unit_more(n, *b)).max(1)
}

// Whether the part s has the grammar.
fn number_fits(s: &[u8]) -> bool
    ensures { result ≡ number_fits s.now }
{
    let point = scan::run_until(s, b'.');
    0 < count_in(s, b'0', b'9')
        && whole_fits(cut::upto(s, point))
        && fraction_fits(cut::after(s, point + 1))
}

// Reads a number part.
pub fn read_part(s: &[u8]) -> Shape
    ensures { result ≡ capped (shape_of s.now) }
{
    let point = scan::run_until(s, b'.');
    let whole = cut::upto(s, point);
    let fraction = cut::after(s, point + 1);
    Shape {
        fits: number_fits(s),
        least: count_in(whole, b'0', b'9'),
        whole: whole.len() - count_in(whole, b',', b','),
        fraction: count_in(fraction, b'0', b'9'),
        most: fraction.len(),
        primary: primary_of(whole),
        secondary: secondary_of(whole),
        step: step_of(s),
    }
}
