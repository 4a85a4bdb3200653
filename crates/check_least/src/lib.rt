// The least number that a clause allows, by a table of next numbers.
//
// The first number is tried, then what is asked of the number itself, then the table of crate
// check_table, in which the work depends on the ranges and not on the window. The entries are
// least_number, and least_from, which starts no lower than a floor.
#![tactic(auto)]

mod search;

ghost use Rattle.std.specs.Prelude.{◌≡◌};
ghost use Rattle.pack_rules.specs.Stretch.{table_of};
ghost use Rattle.check_laws.specs.Floors.{NoneBelow};
ghost use Rattle.check_laws.specs.Read.{joined_in};
ghost use Rattle.check_laws.specs.Ready.{ready, least_in};

use check_laws::limits::FRACTION_LIMIT;
use check_laws::{Query, Span};
use pack_rules::{Pack, RELATION_ROOM};

// 10^18: no value that is compared is above it
const CAP: u64 = 1_000_000_000_000_000_000;

// Whether a search has room: its operands stay within CAP, and its relations within the arrays.
fn is_ready(s: Span, q: Query, lo: u64, hi: u64) -> bool
    ensures { result ≡ ready s q lo hi }
{
    lo <= hi
        && s.to <= RELATION_ROOM
        && s.stop <= RELATION_ROOM
        && q.n <= 1
        && q.i <= 1
        && q.t <= 1
        && q.f <= FRACTION_LIMIT
        && hi <= if q.f == 0 { CAP } else { FRACTION_LIMIT }
}

// The least number from lo on and below hi that passes what the clause asks, or hi; hi too where the
// search has no room.
pub fn least_number(pack: &Pack, s: Span, q: Query, lo: u64, hi: u64) -> u64
    ensures { result ≡ least_in (table_of pack.now) s q lo hi }
{
    if is_ready(s, q, lo, hi) {
        return search::least(pack, s, q, lo, hi);
    }
    hi
}

// The least number from lo on and below hi that passes, or hi. Where the floor is not below hi there is
// no search.
pub fn least_from(pack: &Pack, s: Span, q: Query, lo: u64, floor: u64, hi: u64) -> u64
    requires { NoneBelow q (joined_in (table_of pack.now) s) floor }
    ensures { result ≡ least_in (table_of pack.now) s q lo hi }
{
    let from = lo.max(floor);
    if hi <= from {
        return hi;
    }
    least_number(pack, s, q, from, hi)
}
