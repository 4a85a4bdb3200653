// The first rule behind a rule that clashes with it, and the answer made of it.
ghost use Rattle.std.specs.Prelude.{Result, ◌≡◌, Bool, List, ℕ, suc, ◌+◌, ◌-◌, ◌≤◌, ◌<◌};
ghost use Rattle.number.specs.Limits.{max_exponent};
ghost use Rattle.check_laws.specs.Check.{clash_of, against, first_pair};
ghost use Rattle.pack_rules.specs.Room.{rule_room};
ghost use Rattle.pack_rules.specs.Stretch.{stretch, table_of};
ghost use Rattle.check_laws.specs.Read.{bare_rule};
ghost use Rattle.check_laws.specs.Spots.{Proper, answered};

use crate::search;
use check_laws::limits::NO_EXPONENT;
use check_laws::{Clash, LaterClash};
use pack_rules::Pack;

// The first of the rules behind the rule p, below n, that clashes with it; n where none does. Crate
// check_pairs has such a walk of its own, over its own search.
fn later_clash(pack: &Pack, p: usize, n: usize) -> LaterClash
    requires { (p < n) × (n ≤ rule_room) }
    ensures { ((rest : Result (Unit {0}) Clash) → against clash_of (p + 1) (p + 1 + 1) (bare_rule (table_of pack.now) pack.now.relations pack.now.clauses p) (stretch (bare_rule (table_of pack.now) pack.now.relations pack.now.clauses) (p + 1) (n - (p + 1))) rest ≡ answered p n result.at result.spot rest) × (result.at < n → result.spot.e ≤ max_exponent) × Proper result.spot }
{
    for q in p + 1..n {
        let spot = search::try_all(pack, p, q);
        if spot.e < NO_EXPONENT {
            return LaterClash { at: q, spot };
        }
    }
    LaterClash {
        at: n,
        spot: search::nowhere(),
    }
}

// The first pair among the first n rules, with its least number.
pub fn first_pair(pack: &Pack, n: usize) -> Result<(), Clash>
    requires { n ≤ rule_room }
    ensures { result ≡ first_pair clash_of (0 + 1) (stretch (bare_rule (table_of pack.now) pack.now.relations pack.now.clauses) 0 (n - 0)) }
{
    for k in 0..n {
        let c = later_clash(pack, k, n);
        if c.at < n {
            return Err(Clash::of_rules(k, c.at, c.spot));
        }
    }
    Ok(())
}
