// The v that a profile leaves, by its bits for v and for w: where f is 0, and where it ends in zeros.
ghost use Rattle.std.specs.Prelude.{◌≡◌, Bool, false, List, ℕ, suc, ◌-◌, ◌^◌, ◌≤◌, ◌<◌, ltb};
ghost use Rattle.decimal.specs.Choice.{both};
ghost use Rattle.decimal.specs.Lists.{all};
ghost use Rattle.number.specs.Limits.{max_places};
ghost use Rattle.pack_rules.specs.Syntax.{Relation};
ghost use Rattle.check_laws.specs.Seek.{seek};
ghost use Rattle.check_laws.specs.Fast.{settled_f, whole_code, part_code, tail_places, fractions};
ghost use Rattle.check_laws.specs.Profile.{profile_of, marked, Settled, least_room};

use check_laws::limits;
use decimal::num::power;

// How many v there are.
const PLACES: u64 = limits::MAX_PLACES + 1;

// Whether the bit k is set.
fn is_marked(m: u64, k: u64) -> bool
    requires { k ≤ max_places }
    ensures { result ≡ marked m k }
{
    (m >> k) % 2 == 1
}

// Whether v and w are settled.
fn settled_at(vs: u64, ws: u64, v: u64, w: u64) -> bool
    requires { (v ≤ max_places) × (w ≤ max_places) }
    ensures { (c : List Relation) → Settled c vs ws → result ≡ all (settled_f v w) c }
{
    is_marked(vs, v) && is_marked(ws, w)
}

// Whether a w other than 0 is left with a v that is no less: where none is, f is 0.
pub fn opens(vs: u64, ws: u64) -> bool
    ensures { result ≡ false → (c : List Relation) → Settled c vs ws → fractions ≡ part_code max_places c }
{
    for w in 1..PLACES {
        if is_marked(ws, w) {
            return vs >> w != 0;
        }
    }
    false
}

// The least v that is settled where f is 0.
fn whole_places(vs: u64, ws: u64) -> u64
    ensures { ((c : List Relation) → Settled c vs ws → result ≡ seek (λ (v : ℕ). all (settled_f v 0) c) (suc max_places) 0) × (result ≤ suc max_places) }
{
    for v in 0..PLACES {
        if settled_at(vs, ws, v, 0) {
            return v;
        }
    }
    PLACES
}

// The least v where f is 0, as v and f in one number.
pub fn whole_code(p: u64) -> u64
    ensures { (c : List Relation) → p ≡ profile_of c → result ≡ whole_code c }
{
    if !check_profile::allows_zero(p) {
        return limits::FRACTIONS;
    }
    let v = whole_places(check_profile::v_of(p), check_profile::w_of(p));
    v * limits::FRACTION_LIMIT
}

// The least v that is settled where f ends in k zeros.
pub fn settled_places(vs: u64, ws: u64, k: u64) -> u64
    requires { k < max_places }
    ensures { (c : List Relation) → Settled c vs ws → result ≡ seek (λ (v : ℕ). all (settled_f v (v - k)) c) (max_places - k) (suc k) }
{
    for v in k + 1..PLACES {
        if settled_at(vs, ws, v, v - k) {
            return v;
        }
    }
    PLACES
}

// Whether v is settled where t stands before k zeros, and has room for t.
fn room_for(vs: u64, ws: u64, k: u64, t: u64, v: u64) -> bool
    requires { (k < v) × (v ≤ max_places) }
    ensures { (c : List Relation) → Settled c vs ws → result ≡ both (all (settled_f v (v - k)) c) (ltb t (10 ^ (v - k))) }
{
    settled_at(vs, ws, v, v - k) && t < power(v - k)
}

// The least such v.
pub fn tail_places(vs: u64, ws: u64, k: u64, t: u64) -> u64
    requires { k < max_places }
    ensures { ((c : List Relation) → Settled c vs ws → result ≡ tail_places k t c) × (result ≤ suc max_places) }
{
    for v in k + 1..PLACES {
        if room_for(vs, ws, k, t, v) {
            return v;
        }
    }
    PLACES
}

// Whether v is left and has room for f.
fn has_room(vs: u64, f: u64, v: u64) -> bool
    requires { v ≤ max_places }
    ensures { result ≡ both (marked vs v) (ltb f (10 ^ v)) }
{
    is_marked(vs, v) && f < power(v)
}

// The least such v other than 0.
pub fn least_room(vs: u64, f: u64) -> u64
    ensures { (result ≡ least_room vs f) × (result ≤ suc max_places) }
{
    for v in 1..PLACES {
        if has_room(vs, f, v) {
            return v;
        }
    }
    PLACES
}
