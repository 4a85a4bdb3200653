// The first rule behind a rule that clashes with it, and the answer made of it.
ghost use Rattle.std.specs.Prelude.{Result, ◌≡◌, Bool, List, ℕ, suc, ◌+◌, ◌-◌, ◌≤◌, ◌<◌};
ghost use Rattle.number.specs.Limits.{max_exponent};
ghost use Rattle.check_laws.specs.Check.{against, first_pair};
ghost use Rattle.check_laws.specs.Fast.{fast_clash};
ghost use Rattle.check_laws.specs.Floors.{Floored};
ghost use Rattle.check_laws.specs.Profile.{ProfiledRules};
ghost use Rattle.pack_rules.specs.Room.{rule_room};
ghost use Rattle.pack_rules.specs.Stretch.{stretch, table_of};
ghost use Rattle.check_laws.specs.Read.{bare_rule};
ghost use Rattle.check_laws.specs.Spots.{Proper, answered};

use crate::joined;
use check_clauses::{ClauseFloors, PerClause};
use check_laws::{Clash, LaterClash, limits};
use check_places::order;
use pack_rules::Pack;

// The first of the rules behind the rule p, below n, that clashes with it; n where none does.
pub fn later_clash(
    pack: &Pack,
    floors: &ClauseFloors,
    profiles: &PerClause,
    p: usize,
    n: usize,
) -> LaterClash
    requires in_room { (p < n) × (n ≤ rule_room) × Floored (table_of pack.now) pack.now.relations floors.now.whole floors.now.part floors.now.tail }
    requires profiled_rules { ProfiledRules (table_of pack.now) pack.now.relations pack.now.clauses n profiles.now }
    ensures { ((rest : Result (Unit {0}) Clash) → against fast_clash (p + 1) (p + 1 + 1) (bare_rule (table_of pack.now) pack.now.relations pack.now.clauses p) (stretch (bare_rule (table_of pack.now) pack.now.relations pack.now.clauses) (p + 1) (n - (p + 1))) rest ≡ answered p n result.at result.spot rest) × (result.at < n → result.spot.e ≤ max_exponent) × Proper result.spot }
{
    for q in p + 1..n {
        let spot = joined::pair_spot(pack, floors, profiles, p, q);
        if spot.e < limits::NO_EXPONENT {
            return LaterClash { at: q, spot };
        }
    }
    LaterClash {
        at: n,
        spot: order::nowhere(),
    }
}

// The first pair among the first n rules, with its least number.
pub fn first_pair(
    pack: &Pack,
    floors: &ClauseFloors,
    profiles: &PerClause,
    n: usize,
) -> Result<(), Clash>
    requires in_room { (n ≤ rule_room) × Floored (table_of pack.now) pack.now.relations floors.now.whole floors.now.part floors.now.tail }
    requires profiled_rules { ProfiledRules (table_of pack.now) pack.now.relations pack.now.clauses n profiles.now }
    ensures { result ≡ first_pair fast_clash (0 + 1) (stretch (bare_rule (table_of pack.now) pack.now.relations pack.now.clauses) 0 (n - 0)) }
{
    for k in 0..n {
        let c = later_clash(pack, floors, profiles, k, n);
        if c.at < n {
            return Err(Clash::of_rules(k, c.at, c.spot));
        }
    }
    Ok(())
}
