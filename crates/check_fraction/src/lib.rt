// The least v and f of a clause where f is not 0, as one number: v * 10^9 + f.
//
// There is a search for each count of zeros at f's end, or one search where that is enough. Crate
// check_laws has the definitions and their laws (specs/Fast.antt, proofs/Placing.antt, proofs/LeastF.antt).
// The entries are part_code and alone_of.
#![tactic(auto)]

ghost use Rattle.std.specs.Prelude.{◌≡◌, false, not, suc, ◌+◌, ◌*◌, ◌%◌, ◌^◌, ◌≤◌, ◌<◌, min};
ghost use Rattle.number.specs.Limits.{max_places};
ghost use Rattle.check_laws.specs.Bounded.{bounded};
ghost use Rattle.check_laws.specs.Fast.{alone, alone_of, least_f, asks_of, tail_of, tail_code, part_code};
ghost use Rattle.check_laws.specs.Floors.{NoneBelow};
ghost use Rattle.check_laws.specs.Profile.{profile_of, Settled};
ghost use Rattle.check_laws.specs.Read.{joined_in};
ghost use Rattle.pack_rules.specs.Room.{relation_room};
ghost use Rattle.pack_rules.specs.Stretch.{table_of};

use check_laws::{Bounds, Query, Span, limits};
use check_least::least_from;
use check_places::places;
use decimal::num::power;
use pack_rules::Pack;

// The least t before k zeros, by a search; there is none below the least by what is asked of t alone.
fn tail_of(pack: &Pack, s: Span, k: u64, least: u64) -> u64
    requires { (k < max_places) × (s.to ≤ relation_room) × (s.stop ≤ relation_room) × (least ≡ alone_of (joined_in (table_of pack.now) s)) }
    ensures { result ≡ tail_of k (joined_in (table_of pack.now) s) }
{
    let ten = power(k);
    let end = power(limits::MAX_PLACES - k);
    let q = Query {
        n: 0,
        i: 0,
        f: ten,
        t: 1,
        odd: true,
    };
    least_from(pack, s, q, 0, least, end)
}

// The least t by what is asked of t alone; there is none below the floor.
pub fn alone_of(pack: &Pack, s: Span, floor: u64) -> u64
    requires { (s.to ≤ relation_room) × (s.stop ≤ relation_room) × NoneBelow alone (joined_in (table_of pack.now) s) floor }
    ensures { result ≡ alone_of (joined_in (table_of pack.now) s) }
{
    let q = Query {
        n: 0,
        i: 0,
        f: 0,
        t: 1,
        odd: true,
    };
    least_from(pack, s, q, 0, floor, limits::FRACTION_LIMIT)
}

// The least t before k zeros, where t is the least by what is asked of t alone: where no relation asks f,
// there is no more to ask.
fn tail_at(pack: &Pack, s: Span, k: u64, t: u64, spared: bool) -> u64
    requires { (k < max_places) × (s.to ≤ relation_room) × (s.stop ≤ relation_room) × (t ≡ alone_of (joined_in (table_of pack.now) s)) × (spared ≡ not (asks_of 102 (joined_in (table_of pack.now) s))) }
    ensures { result ≡ tail_of k (joined_in (table_of pack.now) s) }
{
    if spared {
        return t.min(power(limits::MAX_PLACES - k));
    }
    tail_of(pack, s, k, t)
}

// The least v and f, where f ends in k zeros and is not 0. There is no search where no v is settled.
fn tail_code(pack: &Pack, s: Span, b: Bounds, vs: u64, ws: u64, k: u64, t: u64, spared: bool) -> u64
    requires in_room { (k < max_places) × (s.to ≤ relation_room) × (s.stop ≤ relation_room) × (t ≡ alone_of (joined_in (table_of pack.now) s)) × (spared ≡ not (asks_of 102 (joined_in (table_of pack.now) s))) }
    requires settled { Settled (bounded b (joined_in (table_of pack.now) s)) vs ws }
    ensures { result ≡ tail_code k (bounded b (joined_in (table_of pack.now) s)) }
{
    if limits::MAX_PLACES < places::settled_places(vs, ws, k) {
        return limits::FRACTIONS;
    }
    let u = tail_at(pack, s, k, t, spared);
    let v = places::tail_places(vs, ws, k, u);
    if limits::MAX_PLACES < v {
        return limits::FRACTIONS;
    }
    v * limits::FRACTION_LIMIT + u * power(k)
}

// The least over the zeros at the end of f. More zeros need more places than one that is found may have.
fn least_code(pack: &Pack, s: Span, b: Bounds, vs: u64, ws: u64, t: u64, spared: bool) -> u64
    requires in_room { (s.to ≤ relation_room) × (s.stop ≤ relation_room) × (t ≡ alone_of (joined_in (table_of pack.now) s)) × (spared ≡ not (asks_of 102 (joined_in (table_of pack.now) s))) }
    requires settled { Settled (bounded b (joined_in (table_of pack.now) s)) vs ws }
    ensures { result ≡ part_code max_places (bounded b (joined_in (table_of pack.now) s)) }
{
    let mut best: u64 = limits::FRACTIONS;
    for k in 0..limits::MAX_PLACES {
        if best <= (k + 1) * limits::FRACTION_LIMIT {
            return best;
        }
        best = best.min(tail_code(pack, s, b, vs, ws, k, t, spared));
    }
    best
}

// The least f other than 0 by what is asked of f alone.
fn least_f(pack: &Pack, s: Span) -> u64
    requires { (s.to ≤ relation_room) × (s.stop ≤ relation_room) }
    ensures { result ≡ least_f (joined_in (table_of pack.now) s) }
{
    let q = Query {
        n: 0,
        i: 0,
        f: 1,
        t: 0,
        odd: false,
    };
    least_from(pack, s, q, 1, 0, limits::FRACTION_LIMIT)
}

// How many zeros f ends in, or 8 where it ends in more.
fn zeros_of(f: u64) -> u64
    ensures { (result < max_places) × (f % 10 ^ result ≡ 0) }
{
    for k in 1..limits::MAX_PLACES {
        if f % power(k) != 0 {
            return k - 1;
        }
    }
    limits::MAX_PLACES - 1
}

// v and f as one number.
fn code_of(v: u64, f: u64) -> u64
    requires { (v ≤ suc max_places) × (f ≤ 10 ^ max_places) }
    ensures { result ≡ v * 10 ^ max_places + f }
{
    v * limits::FRACTION_LIMIT + f
}

// The least over the zeros at the end, where f is asked. No f comes before the least by what is asked of
// f alone, nor its v before the least with room for that. So they are a bound, and often reached: then
// one search for t is enough.
fn asked_code(pack: &Pack, s: Span, b: Bounds, vs: u64, ws: u64, t: u64) -> u64
    requires in_room { (s.to ≤ relation_room) × (s.stop ≤ relation_room) × (t ≡ alone_of (joined_in (table_of pack.now) s)) × (false ≡ not (asks_of 102 (joined_in (table_of pack.now) s))) }
    requires settled { Settled (bounded b (joined_in (table_of pack.now) s)) vs ws }
    ensures { result ≡ part_code max_places (bounded b (joined_in (table_of pack.now) s)) }
{
    let f = least_f(pack, s);
    let v = places::least_room(vs, f);
    if limits::MAX_PLACES < v {
        return limits::FRACTIONS;
    }
    let k = zeros_of(f);
    let x = tail_code(pack, s, b, vs, ws, k, t, false);
    if x <= code_of(v, f) {
        return x;
    }
    least_code(pack, s, b, vs, ws, t, false)
}

// The least v and f, where f is not 0: none where no t meets what is asked of t alone.
pub fn part_code(pack: &Pack, s: Span, b: Bounds, p: u64, floor: u64) -> u64
    requires in_room { (s.to ≤ relation_room) × (s.stop ≤ relation_room) × NoneBelow alone (joined_in (table_of pack.now) s) floor }
    requires profile { p ≡ profile_of (bounded b (joined_in (table_of pack.now) s)) }
    ensures { result ≡ part_code max_places (bounded b (joined_in (table_of pack.now) s)) }
{
    let t = alone_of(pack, s, floor);
    if limits::FRACTION_LIMIT <= t {
        return limits::FRACTIONS;
    }
    let vs = check_profile::v_of(p);
    let ws = check_profile::w_of(p);
    if check_profile::spares_f(p) {
        return least_code(pack, s, b, vs, ws, t, true);
    }
    asked_code(pack, s, b, vs, ws, t)
}
