// The pack check: the first two rules that one admitted number meets, with the least such number.
//
// Crate check_laws has the definition and its laws; crate check_clauses looks at each clause once, crate
// check_search finds the least number of two clauses joined. Below the entry the pack is lent with its
// clauses' profiles and the floors of its long ones. The entry is check.
#![tactic(auto)]

mod first;
mod joined;

ghost use Rattle.std.specs.Prelude.{◌≡◌, min};
ghost use Rattle.pack_rules.specs.Held.{held_rules};
ghost use Rattle.check_laws.specs.Check.{check_of};

use check_clauses::ends::clauses_end;
use check_clauses::{ClauseFloors, PerClause, floors as clause_floors, profiled};
use check_laws::Clash;
use pack_rules::{CLAUSE_ROOM, Pack, RULE_ROOM};

// The check of a parsed pack.
pub fn check(pack: &Pack) -> Result<(), Clash>
    ensures { result ≡ check_of (held_rules pack.now) }
{
    let n = pack.count.min(RULE_ROOM);
    let end = clauses_end(pack, n);
    let mut floors = ClauseFloors {
        whole: [0; CLAUSE_ROOM],
        part: [0; CLAUSE_ROOM],
        tail: [0; CLAUSE_ROOM],
    };
    let mut profiles: PerClause = [0; CLAUSE_ROOM];
    profiled::fill(pack, &mut profiles, end);
    clause_floors::fill(pack, &mut floors, end);
    first::first_pair(pack, &floors, &profiles, n)
}
