// The least admitted number of a clause whose v is within bounds.
ghost use Rattle.std.specs.Prelude.{◌≡◌, Bool, true, false, List, ℕ, ◌^◌, ◌≤◌, ◌<◌, if◌then◌else◌};
ghost use Rattle.number.specs.Limits.{max_exponent};
ghost use Rattle.pack_rules.specs.Room.{relation_room};
ghost use Rattle.pack_rules.specs.Syntax.{Relation};
ghost use Rattle.check_laws.specs.Bounded.{bounded};
ghost use Rattle.check_laws.specs.Check.{lowest};
ghost use Rattle.check_laws.specs.Fast.{query_i, exponent_of, fractions, fraction_code, integer_of, kind_rank, clause_rank};
ghost use Rattle.check_laws.specs.Floors.{NoneBelow, Under};
ghost use Rattle.check_laws.specs.Profile.{profile_of};
ghost use Rattle.pack_rules.specs.Stretch.{table_of};
ghost use Rattle.check_laws.specs.Read.{joined_in};
ghost use Rattle.check_laws.specs.Spots.{kind_spot, spot_rank, Proper};

use answer::Witness;
use check_fraction::part_code;
use check_laws::{Bounds, Floors, Query, Span, limits};
use check_least::least_from;
use check_places::{order, places};
use decimal::num::power;
use decimal::{DigitValue, Places};
use pack_rules::Pack;

// The least integer part that an exponent allows.
fn lowest_of(e: u64) -> u64
    requires { e ≤ max_exponent }
    ensures { result ≡ lowest e }
{
    if e == 0 { 0 } else { power(e) }
}

fn one_if(b: bool) -> u64
    ensures { result ≡ (if b then 1 else 0) }
{
    if b { 1 } else { 0 }
}

// The least i at e; there is none below the floor.
pub fn integer_of(pack: &Pack, s: Span, whole: bool, e: u64, floor: u64) -> u64
    requires { (e ≤ max_exponent) × (s.to ≤ relation_room) × (s.stop ≤ relation_room) × NoneBelow (query_i whole) (joined_in (table_of pack.now) s) floor }
    ensures { result ≡ integer_of whole e (joined_in (table_of pack.now) s) }
{
    let n = one_if(whole);
    let q = Query {
        n: n,
        i: 1,
        f: 0,
        t: 0,
        odd: false,
    };
    let lo = lowest_of(e);
    least_from(pack, s, q, lo, floor, limits::INTEGER_LIMIT)
}

// The number with e, with v and f as one number q, and with i; none where i is past the largest.
fn spot_of(e: u64, q: u64, i: u64) -> Witness
    requires { (e ≤ max_exponent) × (q < fractions) }
    ensures { ((w : Bool) (c : List Relation) → q ≡ fraction_code w c → i ≡ integer_of w e c → spot_rank result ≡ kind_spot w e c) × Proper result }
{
    if limits::INTEGER_LIMIT <= i {
        return order::nowhere();
    }
    Witness {
        e: e as u8,
        v: Places((q / limits::FRACTION_LIMIT) as u8),
        i,
        f: DigitValue(q % limits::FRACTION_LIMIT),
    }
}

// The least number at e whose f is not 0. There is no search where the floor leaves no t, and none for f
// where there is no i.
fn part_spot(pack: &Pack, s: Span, b: Bounds, p: u64, l: Floors, e: u64) -> Witness
    requires e_le_max_exponent { (e ≤ max_exponent) × (s.to ≤ relation_room) × (s.stop ≤ relation_room) × Under (joined_in (table_of pack.now) s) l }
    requires profile { p ≡ profile_of (bounded b (joined_in (table_of pack.now) s)) }
    ensures { (spot_rank result ≡ kind_spot false e (bounded b (joined_in (table_of pack.now) s))) × Proper result }
{
    if !places::opens(check_profile::v_of(p), check_profile::w_of(p)) {
        return order::nowhere();
    }
    if limits::FRACTION_LIMIT <= l.tail {
        return order::nowhere();
    }
    let i = integer_of(pack, s, false, e, l.part);
    if limits::INTEGER_LIMIT <= i {
        return order::nowhere();
    }
    let q = part_code(pack, s, b, p, l.tail);
    if limits::FRACTIONS <= q {
        return order::nowhere();
    }
    spot_of(e, q, i)
}

// Whether the number whose f is 0 comes before each whose f is not, by its v and f as q and its i: where
// n is not asked, i is the same for both; where it has no places, it has fewer.
fn comes_first(p: u64, q: u64, i: u64) -> bool
    requires { q < fractions }
    ensures { result ≡ true → (c : List Relation) (e : ℕ) → p ≡ profile_of c → e ≤ max_exponent → q ≡ fraction_code true c → i ≡ integer_of true e c → kind_rank true e c ≤ kind_rank false e c }
{
    check_profile::spares_n(p) || (q == 0 && i < limits::INTEGER_LIMIT)
}

// The least number at e.
fn spot_at(pack: &Pack, s: Span, b: Bounds, p: u64, l: Floors, e: u64) -> Witness
    requires e_le_max_exponent { (e ≤ max_exponent) × (s.to ≤ relation_room) × (s.stop ≤ relation_room) × Under (joined_in (table_of pack.now) s) l }
    requires profile { (p ≡ profile_of (bounded b (joined_in (table_of pack.now) s))) × (e ≡ exponent_of (bounded b (joined_in (table_of pack.now) s))) }
    ensures { (spot_rank result ≡ clause_rank (bounded b (joined_in (table_of pack.now) s))) × Proper result }
{
    let q = places::whole_code(p);
    if limits::FRACTIONS <= q {
        return part_spot(pack, s, b, p, l, e);
    }
    let i = integer_of(pack, s, true, e, l.whole);
    let x = spot_of(e, q, i);
    if comes_first(p, q, i) {
        return x;
    }
    let y = part_spot(pack, s, b, p, l, e);
    order::earlier(x, y)
}

// The least number of the clause whose v is within the bounds; p is the profile of both.
pub fn clause_spot(pack: &Pack, s: Span, b: Bounds, p: u64, l: Floors) -> Witness
    requires in_room { (s.to ≤ relation_room) × (s.stop ≤ relation_room) × Under (joined_in (table_of pack.now) s) l }
    requires profile { p ≡ profile_of (bounded b (joined_in (table_of pack.now) s)) }
    ensures { (spot_rank result ≡ clause_rank (bounded b (joined_in (table_of pack.now) s))) × Proper result }
{
    let e = check_profile::exponent_of(p);
    if limits::MAX_EXPONENT < e {
        return order::nowhere();
    }
    spot_at(pack, s, b, p, l, e)
}
