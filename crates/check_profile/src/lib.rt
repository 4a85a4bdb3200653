// Profiles of clauses: what a clause leaves of e, of v, of w and of the last digit of i, whether f may be
// 0, and whether n and f are asked, as bits of one number.
//
// Each bit is a test of every relation, so that two clauses joined have the bits that both have: the
// profile of a pair of clauses is one `&`. Crate check_laws has the definition (specs/Profile.antt), crate
// check_digits the bits of one relation. The entries are clause_profile and within, which make a profile,
// and exponent_of, v_of, w_of, allows_zero, spares_n, spares_f, whole_digits and part_digits, which read
// one.
#![tactic(auto)]

ghost use Rattle.std.specs.Prelude.{◌≡◌, not, List, [], ◌∷◌, ◌/◌, ◌%◌, ◌≤◌, ◌<◌};
ghost use Rattle.decimal.specs.Lists.{all};
ghost use Rattle.pack_rules.specs.Room.{range_room, relation_room};
ghost use Rattle.pack_rules.specs.Syntax.{Relation};
ghost use Rattle.pack_rules.specs.Stretch.{relation_by, table_of, relations_in};
ghost use Rattle.check_laws.specs.Bounded.{bounded};
ghost use Rattle.check_laws.specs.Fast.{asks_of, exponent_of, passes, query_t};
ghost use Rattle.check_laws.specs.Profile.{packed, profile_of, whole_digits, part_digits};

use check_digits::{digits, values};
use check_laws::{Bounds, limits};
use pack_rules::{Pack, Single, letter, single_at};

// Every e, and every v or w.
const EACH_E: u64 = 32_767;

const EACH_PLACE: u64 = 1_023;

// The flags of a relation of n, of f, of t, and of another letter; where f is 0 is told apart.
const N_ASKED: u64 = 5;

const F_ASKED: u64 = 2;

const T_ASKED: u64 = 6;

const NEITHER_ASKED: u64 = 7;

// The factors of v, w, the flags and the last digits in a profile, and how many values the parts have.
const V_PLACE: u64 = 1_048_576;

const W_PLACE: u64 = 1_073_741_824;

const ZERO_PLACE: u64 = 1_099_511_627_776;

const N_PLACE: u64 = 2_199_023_255_552;

const F_PLACE: u64 = 4_398_046_511_104;

const WHOLE_PLACE: u64 = 8_796_093_022_208;

const PART_PLACE: u64 = 9_007_199_254_740_992;

const PLACES: u64 = 1_024;

const FLAGS: u64 = 8;

// Past the largest e.
const NO_EXPONENT: u64 = limits::NO_EXPONENT as u64;

// Every last digit.
const EACH_DIGIT: u64 = 1_023;

// The parts as one profile.
fn pack_parts(e: u64, v: u64, w: u64, flags: u64, whole: u64, part: u64) -> u64
    requires { (e < 1_048_576) × (v < 1_024) × (w < 1_024) × (flags < 8) × (whole < 1_024) × (part < 1_024) }
    ensures { result ≡ packed e v w flags whole part }
{
    ((((part * PLACES + whole) * FLAGS + flags) * PLACES + w) * PLACES + v) * V_PLACE + e
}

// One where the last digit is not asked.
fn any_digit(e: u64, v: u64, w: u64, flags: u64) -> u64
    requires { (e < 1_048_576) × (v < 1_024) × (w < 1_024) × (flags < 8) }
    ensures { result ≡ packed e v w flags 1_023 1_023 }
{
    pack_parts(e, v, w, flags, EACH_DIGIT, EACH_DIGIT)
}

// The profile of a relation, by its letter.
fn relation_profile(pack: &Pack, s: Single) -> u64
    ensures { result ≡ profile_of (relation_by pack.now.low pack.now.high s ∷ []) }
{
    match s.operand {
        letter::N => {
            let d = digits::digits_of(pack, s);
            if s.negated {
                pack_parts(EACH_E, EACH_PLACE, EACH_PLACE, N_ASKED, d, EACH_DIGIT)
            } else {
                pack_parts(EACH_E, EACH_PLACE, 1, N_ASKED, d, EACH_DIGIT)
            }
        }
        letter::I => {
            let d = digits::digits_of(pack, s);
            pack_parts(EACH_E, EACH_PLACE, EACH_PLACE, NEITHER_ASKED, d, d)
        }
        letter::F => {
            let zero = values::zero_of(pack, s);
            any_digit(EACH_E, EACH_PLACE, EACH_PLACE, zero + F_ASKED)
        }
        letter::T => {
            let zero = values::zero_of(pack, s);
            any_digit(EACH_E, EACH_PLACE, EACH_PLACE, zero + T_ASKED)
        }
        letter::V => {
            let v = values::places_of(pack, s);
            any_digit(EACH_E, v, EACH_PLACE, NEITHER_ASKED)
        }
        letter::W => {
            let w = values::places_of(pack, s);
            any_digit(EACH_E, EACH_PLACE, w, NEITHER_ASKED)
        }
        _ => {
            let e = values::exponents_of(pack, s);
            any_digit(e, EACH_PLACE, EACH_PLACE, NEITHER_ASKED)
        }
    }
}

// The profile of the relations from place `from` to before `to`.
pub fn clause_profile(pack: &Pack, from: usize, to: usize) -> u64
    requires { to ≤ relation_room }
    ensures { result ≡ profile_of (relations_in (table_of pack.now) from to) }
{
    let mut p = any_digit(EACH_E, EACH_PLACE, EACH_PLACE, NEITHER_ASKED);
    for j in from..to {
        p &= relation_profile(pack, single_at(pack, j));
    }
    p
}

// The profile with bounds for v as well. Bounds that every v has change nothing.
pub fn within(p: u64, b: Bounds) -> u64
    ensures { (c : List Relation) → p ≡ profile_of c → result ≡ profile_of (bounded b c) }
{
    if values::is_free(b) {
        return p;
    }
    let v = values::between(b);
    any_digit(EACH_E, v, EACH_PLACE, NEITHER_ASKED) & p
}

// The least e that is left; past the largest where none is.
pub fn exponent_of(p: u64) -> u64
    ensures { (c : List Relation) → p ≡ profile_of c → result ≡ exponent_of c }
{
    let e = p % V_PLACE;
    if e == 0 {
        return NO_EXPONENT;
    }
    u64::trailing_zeros(e) as u64
}

// The v, and the w, that are left, as bits.
pub fn v_of(p: u64) -> u64
    ensures { result ≡ p / 1_048_576 % 1_024 }
{
    p / V_PLACE % PLACES
}

pub fn w_of(p: u64) -> u64
    ensures { result ≡ p / 1_073_741_824 % 1_024 }
{
    p / W_PLACE % PLACES
}

// Whether f may be 0, whether no relation asks n, and whether none asks f.
pub fn allows_zero(p: u64) -> bool
    ensures { (c : List Relation) → p ≡ profile_of c → result ≡ all (λ (r : Relation). passes (query_t 0) r 0) c }
{
    p / ZERO_PLACE % 2 == 1
}

pub fn spares_n(p: u64) -> bool
    ensures { (c : List Relation) → p ≡ profile_of c → result ≡ not (asks_of 110 c) }
{
    p / N_PLACE % 2 == 1
}

pub fn spares_f(p: u64) -> bool
    ensures { (c : List Relation) → p ≡ profile_of c → result ≡ not (asks_of 102 c) }
{
    p / F_PLACE % 2 == 1
}

// The last digits of i that are left where f is 0, and where it is not, as bits.
pub fn whole_digits(p: u64) -> u64
    ensures { result ≡ whole_digits p }
{
    p / WHOLE_PLACE % PLACES
}

pub fn part_digits(p: u64) -> u64
    ensures { result ≡ part_digits p }
{
    p / PART_PLACE
}
