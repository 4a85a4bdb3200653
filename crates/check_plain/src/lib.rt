// The pack check by its definition: every admitted number is tried in document 01's order, one by one.
//
// It answers what crate check_pairs answers, and shares none of its search. It is not made to be quick:
// for two rules that no number meets it tries some 10^25 numbers. The entry is check.
#![tactic(auto)]

mod first;
mod limits;
mod operands;
mod search;

ghost use Rattle.std.specs.Prelude.{◌≡◌, min};
ghost use Rattle.pack_rules.specs.Held.{held_rules};
ghost use Rattle.check_laws.specs.Check.{check_of};

use check_laws::Clash;
use pack_rules::{Pack, RULE_ROOM};

// The check of a parsed pack.
pub fn check(pack: &Pack) -> Result<(), Clash>
    ensures { result ≡ check_of (held_rules pack.now) }
{
    let n = pack.count.min(RULE_ROOM);
    first::first_pair(pack, n)
}
