// The last digits of the numbers that a relation may hold of, as bits: bit d for the digit d.
ghost use Rattle.std.specs.Prelude.{◌≡◌, not, ℕ, ◌+◌, ◌-◌, ◌*◌, ◌%◌, ◌^◌, ◌≤◌, ◌<◌, min};
ghost use Rattle.decimal.specs.Lists.{all, any};
ghost use Rattle.pack_rules.specs.Room.{range_room};
ghost use Rattle.pack_rules.specs.Stretch.{ranges_in, relation_by};
ghost use Rattle.check_laws.specs.Profile.{values_of, round, reaches, spares, ends_in};

use crate::values::bits_where;
use pack_rules::{Pack, Single};

// Every digit.
const EACH: u64 = 1_023;

fn two_to(k: u64) -> u64
    requires { k ≤ 20 }
    ensures { result ≡ 2 ^ k }
{
    1 << k
}

// The digit u and the n that follow it; behind 9 comes 0.
fn digits_from(u: u64, n: u64) -> u64
    requires { (u < 10) × (n < 10) }
    ensures { (result ≡ values_of (round u (u + n)) 10) × (result < 1_024) }
{
    let m = two_to(u + n + 1) - two_to(u);
    m % 1_024 + m / 1_024
}

// The last digits of the numbers in the range a..b.
fn reached(a: u32, b: u32) -> u64
    ensures { (result ≡ values_of (λ (d : ℕ). reaches d (record { low = a; high = b })) 10) × (result < 1_024) }
{
    let u = u64::from(a) % 10;
    let n = u64::from(b.saturating_sub(a));
    if 9 <= n { EACH } else { digits_from(u, n) }
}

// The digits in one of which ends a number in a range from place `from` to before `to`.
fn any_reached(pack: &Pack, from: usize, to: usize) -> u64
    requires { to ≤ range_room }
    ensures { (result ≡ values_of (λ (d : ℕ). any (reaches d) (ranges_in pack.now.low pack.now.high from to)) 10) × (result < 1_024) }
{
    let mut mask: u64 = 0;
    for k in from..to {
        mask |= reached(pack.low[k], pack.high[k]);
    }
    mask
}

// Whether the range a..b has not every remainder by m that ends in d.
fn is_spared(a: u32, b: u32, m: u32, d: u64) -> bool
    requires { d < 10 }
    ensures { result ≡ spares m d (record { low = a; high = b }) }
{
    d < u64::from(a) || u64::from(b) + 10 < u64::from(m) + d
}

// The digits that it spares.
fn spared_digits(a: u32, b: u32, m: u32) -> u64
    ensures { (result ≡ values_of (λ (d : ℕ). spares m d (record { low = a; high = b })) 10) × (result < 1_024) }
{
    bits_where(10, |d| is_spared(a, b, m, d))
}

// The same; a range that ends before the last ten remainders spares each digit.
fn spared(a: u32, b: u32, m: u32) -> u64
    ensures { (result ≡ values_of (λ (d : ℕ). spares m d (record { low = a; high = b })) 10) × (result < 1_024) }
{
    if u64::from(b) + 10 < u64::from(m) {
        EACH
    } else {
        spared_digits(a, b, m)
    }
}

// The digits that each range from place `from` to before `to` spares.
fn all_spared(pack: &Pack, from: usize, to: usize, m: u32) -> u64
    requires { to ≤ range_room }
    ensures { (result ≡ values_of (λ (d : ℕ). all (spares m d) (ranges_in pack.now.low pack.now.high from to)) 10) × (result < 1_024) }
{
    let mut mask = EACH;
    for k in from..to {
        mask &= spared(pack.low[k], pack.high[k], m);
    }
    mask
}

// The last digits of the numbers that the relation may hold of.
pub fn digits_of(pack: &Pack, s: Single) -> u64
    ensures { (result ≡ values_of (λ (d : ℕ). ends_in d (relation_by pack.now.low pack.now.high s)) 10) × (result < 1_024) }
{
    let m = s.modulus;
    if 0 < m % 10 {
        return EACH;
    }
    if !s.negated {
        return any_reached(pack, s.from, s.to);
    }
    if m == 0 {
        return EACH;
    }
    all_spared(pack, s.from, s.to, m)
}
