// The values of e, of v and of w at which a relation holds, as bits.
ghost use Rattle.std.specs.Prelude.{◌≡◌, Bool, true, ℕ, suc, ◌^◌, ◌≤◌, ◌<◌};
ghost use Rattle.number.specs.Limits.{max_exponent, max_places};
ghost use Rattle.pack_rules.specs.Room.{range_room};
ghost use Rattle.pack_rules.specs.Stretch.{relation_by};
ghost use Rattle.select.specs.Select.{bit};
ghost use Rattle.check_laws.specs.Bounded.{from_to};
ghost use Rattle.check_laws.specs.Fast.{test};
ghost use Rattle.check_laws.specs.Profile.{values_of};

use check_laws::{Bounds, limits};
use check_relation::relation::holds_of;
use pack_rules::{Pack, Single};

const EXPONENTS: u64 = limits::MAX_EXPONENT + 1;

const PLACES: u64 = limits::MAX_PLACES + 1;

// The largest v.
const LAST_V: u8 = limits::MAX_PLACES as u8;

// The values below n at which the test holds, as bits.
pub fn bits_where<F: Fn(u64) -> bool>(n: u64, test: F) -> u64
    requires few { n ≤ 15 }
    requires callable { (x : ℕ) → x < n → F.pre test x }
    ensures bound { result < 2 ^ n }
    ensures marks { (p : ℕ → Bool) → ((x : ℕ) (r : Bool) → x < n → F.post test x r → r ≡ p x) → result ≡ values_of p n }
{
    let mut mask: u64 = 0;
    for x in 0..n {
        if test(x) {
            mask |= 1 << x;
        }
    }
    mask
}

// The e, and the v or w, at which the relation holds.
pub fn exponents_of(pack: &Pack, s: Single) -> u64
    ensures { (result ≡ values_of (test (relation_by pack.now.low pack.now.high s)) (suc max_exponent)) × (result < 32_768) }
{
    bits_where(EXPONENTS, |x| holds_of(pack, s, x))
}

pub fn places_of(pack: &Pack, s: Single) -> u64
    ensures { (result ≡ values_of (test (relation_by pack.now.low pack.now.high s)) (suc max_places)) × (result < 1_024) }
{
    bits_where(PLACES, |x| holds_of(pack, s, x))
}

// Whether it holds at 0, as a bit.
pub fn zero_of(pack: &Pack, s: Single) -> u64
    ensures { (result ≡ bit (test (relation_by pack.now.low pack.now.high s) 0)) × (result ≤ 1) }
{
    if holds_of(pack, s, 0) { 1 } else { 0 }
}

// Whether every v is within the bounds.
pub fn is_free(b: Bounds) -> bool
    ensures { result ≡ true → (b.least.0 ≡ 0) × (max_places ≤ b.most.0) }
{
    b.least.0 == 0 && LAST_V <= b.most.0
}

// The v that are.
pub fn between(b: Bounds) -> u64
    ensures { (result ≡ values_of (from_to b) (suc max_places)) × (result < 1_024) }
{
    bits_where(
        PLACES,
        |v| u64::from(b.least.0) <= v && v <= u64::from(b.most.0),
    )
}
