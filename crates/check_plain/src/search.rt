// The least number that meets two rules: every admitted number is tried, by e, then v, then i, then f.
ghost use Rattle.std.specs.Prelude.{◌≡◌, ◌+◌, ◌^◌, ◌≤◌, ◌<◌};
ghost use Rattle.number.specs.Limits.{max_exponent, max_digits, max_places};
ghost use Rattle.pack_rules.specs.Stretch.{table_of};
ghost use Rattle.check_laws.specs.Check.{lowest, clash_of};
ghost use Rattle.check_laws.specs.Read.{bare_rule};
ghost use Rattle.check_laws.specs.Spots.{spot_rank, Proper};
ghost use Rattle.check_plain.specs.Search.{meets_both, rank_at, Tried};

use crate::{limits, operands};
use answer::Witness;
use check_laws::limits::{INTEGER_LIMIT, NO_EXPONENT};
use decimal::{DigitValue, Places};
use number::Number;
use pack_rules::Pack;

// No number: its e is past the largest. It stands here a second time, since this engine
// shares none of the search of the other.
pub fn nowhere() -> Witness
    ensures { (max_exponent < result.e) × Proper result }
{
    Witness {
        e: NO_EXPONENT,
        v: Places(0),
        i: 0,
        f: DigitValue(0),
    }
}

// Whether the number meets both rules.
fn meets_both(pack: &Pack, first: usize, second: usize, x: Number) -> bool
    ensures { result ≡ meets_both (table_of pack.now) pack.now.relations pack.now.clauses first second x }
{
    select::meets_held(pack, first, x) && select::meets_held(pack, second, x)
}

// Every f below 10^v.
fn try_fractions(pack: &Pack, p: usize, q: usize, e: u8, v: u8, i: u64) -> Witness
    requires { (e ≤ max_exponent) × (v ≤ max_places) × (lowest e ≤ i) × (i < 10 ^ max_digits) }
    ensures { Tried (meets_both (table_of pack.now) pack.now.relations pack.now.clauses p q) (rank_at e v i 0) (rank_at e v (i + 1) 0) result }
{
    for f in 0..operands::power(v) {
        let x = operands::number_at(e, v, i, f);
        if meets_both(pack, p, q, x) {
            return Witness {
                e,
                v: Places(v),
                i,
                f: DigitValue(f),
            };
        }
    }
    nowhere()
}

// Every i from the least that e allows to below 10^15.
fn try_integers(pack: &Pack, p: usize, q: usize, e: u8, v: u8) -> Witness
    requires { (e ≤ max_exponent) × (v ≤ max_places) }
    ensures { Tried (meets_both (table_of pack.now) pack.now.relations pack.now.clauses p q) (rank_at e v 0 0) (rank_at e (v + 1) 0 0) result }
{
    for i in operands::lowest_of(e)..INTEGER_LIMIT {
        let s = try_fractions(pack, p, q, e, v, i);
        if s.e < NO_EXPONENT {
            return s;
        }
    }
    nowhere()
}

// Every v.
fn try_places(pack: &Pack, p: usize, q: usize, e: u8) -> Witness
    requires { e ≤ max_exponent }
    ensures { Tried (meets_both (table_of pack.now) pack.now.relations pack.now.clauses p q) (rank_at e 0 0 0) (rank_at (e + 1) 0 0 0) result }
{
    for v in 0..=limits::MAX_PLACES {
        let s = try_integers(pack, p, q, e, v);
        if s.e < NO_EXPONENT {
            return s;
        }
    }
    nowhere()
}

// Every e: the least number that meets the rules p and q.
pub fn try_all(pack: &Pack, p: usize, q: usize) -> Witness
    ensures { (spot_rank result ≡ clash_of (bare_rule (table_of pack.now) pack.now.relations pack.now.clauses p) (bare_rule (table_of pack.now) pack.now.relations pack.now.clauses q)) × Proper result }
{
    for e in 0..=limits::MAX_EXPONENT {
        let s = try_places(pack, p, q, e);
        if s.e < NO_EXPONENT {
            return s;
        }
    }
    nowhere()
}
