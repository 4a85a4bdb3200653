// A relation, its numbers taken out of the pack's arrays: what it says of a value, or of the number searched for
// at a level, and how far it says so.
ghost use Rattle.std.specs.Prelude.{◌≡◌, not, ◌+◌, ◌-◌, ◌*◌, ◌/◌, ◌%◌, ◌≤◌, ◌<◌, if◌then◌else◌};
ghost use Rattle.pack_rules.specs.Room.{range_room};
ghost use Rattle.pack_rules.specs.Stretch.{relation_by};
ghost use Rattle.check_laws.specs.Seek.{Alike};
ghost use Rattle.check_laws.specs.Fast.{listed, test, factor, passes};
ghost use Rattle.check_laws.specs.Levels.{level_of, own_one};
ghost use Rattle.check_laws.specs.Read.{cap};
ghost use Rattle.check_laws.specs.Ready.{Fit, Room};
ghost use Rattle.check_relation.specs.Runs.{tier, far, upwards};

use crate::{Run, range};
use check_laws::Query;
use pack_rules::{Pack, Single, letter};

// What the relation says of the remainder y, or of the value y where it has no modulus.
fn listed_run(pack: &Pack, s: Single, y: u64) -> Run
    requires { y ≤ cap }
    ensures alike { Alike (listed (relation_by pack.now.low pack.now.high s)) y result.says result.stop }
    ensures near { result.stop ≤ far }
{
    let r = range::range_run(pack, s.from, s.to, y);
    Run {
        says: r.says != s.negated,
        stop: r.stop,
    }
}

// Whether it holds of the value x.
pub fn holds_of(pack: &Pack, s: Single, x: u64) -> bool
    requires { x ≤ cap }
    ensures { result ≡ test (relation_by pack.now.low pack.now.high s) x }
{
    let rest = x.checked_rem(u64::from(s.modulus)).unwrap_or(x);
    listed_run(pack, s, rest).says
}

// The factor of an operand, by its letter.
pub fn factor_of(q: Query, o: u32) -> u64
    ensures { result ≡ factor q o }
{
    match o {
        letter::N => q.n,
        letter::I => q.i,
        letter::F => q.f,
        letter::T => q.t,
        _ => 0,
    }
}

// The same of an operand that is asked: 1, but for f.
fn asked_factor(q: Query, o: u32) -> u64
    requires { Fit q × (factor q o ≡ 0 → ⊥) }
    ensures { result ≡ factor q o }
{
    if o == letter::F { q.f } else { 1 }
}

// The level of a relation of x * s with the modulus w.
pub fn level_of(s: u64, w: u64) -> usize
    requires { s ≤ 1_000_000_000 }
    ensures value { result ≡ level_of s w }
    ensures upper_bound { result < 9 }
{
    if w == 0 {
        return 7;
    }
    if w <= s {
        if s % w == 0 {
            return 0;
        }
        return 8;
    }
    if w == 10 * s {
        return 1;
    }
    if w == 100 * s {
        return 2;
    }
    if w == 1_000 * s {
        return 3;
    }
    if w == 10_000 * s {
        return 4;
    }
    if w == 100_000 * s {
        return 5;
    }
    if w == 1_000_000 * s {
        return 6;
    }
    8
}

// The first number that s takes to y or further.
fn upwards_by(y: u64, s: u64) -> u64
    requires { (0 < s) × (s ≤ 1_000_000_000) × (y ≤ far) }
    ensures { result ≡ upwards y s }
{
    // One division less where the factor is 1, as it mostly is.
    if s == 1 { y } else { (y + (s - 1)) / s }
}

// What the relation, which is asked, asks of p at its level.
pub fn own_run(pack: &Pack, q: Query, level: usize, s: Single, p: u64) -> Run
    requires fit { Fit q }
    requires room { Room q p }
    requires level { (level < 9) × (level ≡ tier q (relation_by pack.now.low pack.now.high s)) }
    ensures alike { Alike (own_one q level (relation_by pack.now.low pack.now.high s)) p result.says result.stop }
    ensures near { result.stop ≤ far }
{
    let k = asked_factor(q, s.operand);
    let r = listed_run(pack, s, p * k);
    Run {
        says: r.says,
        stop: upwards_by(r.stop, k),
    }
}

// Whether x passes what the relation asks of it.
pub fn passes_of(pack: &Pack, q: Query, s: Single, x: u64) -> bool
    requires { Room q x }
    ensures { result ≡ passes q (relation_by pack.now.low pack.now.high s) x }
{
    let k = factor_of(q, s.operand);
    k == 0 || holds_of(pack, s, x * k)
}
