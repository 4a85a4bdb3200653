// The least admitted number that chosen relations allow, with v within bounds: one search for every
// caller.
//
// Crate check_laws has the definition, the search that is run and the proof that they agree; crate
// check_least searches for one number, crate check_fraction for v and f. The
// entries are least_admitted and floors_of.
#![tactic(auto)]

mod clause;

ghost use Rattle.std.specs.Prelude.{◌≡◌, true, false, ◌^◌, ◌≤◌};
ghost use Rattle.decimal.specs.Choice.{both};
ghost use Rattle.number.specs.Limits.{max_digits, max_places};
ghost use Rattle.number.specs.declared.Number.{Number};
ghost use Rattle.meaning.specs.Meaning.{clause_holds};
ghost use Rattle.pack_rules.specs.Room.{relation_room};
ghost use Rattle.pack_rules.specs.Stretch.{table_of};
ghost use Rattle.check_laws.specs.Bounded.{within_places};
ghost use Rattle.check_laws.specs.Check.{least_rank};
ghost use Rattle.check_laws.specs.Fast.{query_i, alone, search};
ghost use Rattle.check_laws.specs.Floors.{Under};
ghost use Rattle.check_laws.specs.Profile.{profile_of};
ghost use Rattle.check_laws.specs.Read.{joined_in};
ghost use Rattle.check_laws.specs.Spots.{spot_rank, Proper};

use answer::Witness;
use check_fraction::alone_of;
use check_laws::{Bounds, Floors, Span};
use check_places::floor;
use pack_rules::Pack;

// The least admitted number that meets the relations of both stretches and whose v is within the
// bounds; order::nowhere() where there is none. p is the relations' profile; the floors, and the profile's last
// digits, spare the search what lies below them.
pub fn least_admitted(pack: &Pack, s: Span, b: Bounds, p: u64, l: Floors) -> Witness
    requires { (s.to ≤ relation_room) × (s.stop ≤ relation_room) × (p ≡ profile_of (joined_in (table_of pack.now) s)) × Under (joined_in (table_of pack.now) s) l }
    ensures { (spot_rank result ≡ least_rank (λ (x : Number). both (within_places b x) (clause_holds (joined_in (table_of pack.now) s) x))) × Proper result }
{
    clause::clause_spot(pack, s, b, check_profile::within(p, b), floor::raise(p, l))
}

// The least i where f is 0, the least i where it is not, and the least t, of the relations of both
// stretches: floors of each clause that they are a part of.
pub fn floors_of(pack: &Pack, s: Span) -> Floors
    requires { (s.to ≤ relation_room) × (s.stop ≤ relation_room) }
    ensures under { Under (joined_in (table_of pack.now) s) result }
    ensures each_least { (result.whole ≡ search (query_i true) (joined_in (table_of pack.now) s) 0 (10 ^ max_digits)) × (result.part ≡ search (query_i false) (joined_in (table_of pack.now) s) 0 (10 ^ max_digits)) × (result.tail ≡ search alone (joined_in (table_of pack.now) s) 0 (10 ^ max_places)) }
{
    let whole = clause::integer_of(pack, s, true, 0, 0);
    let part = clause::integer_of(pack, s, false, 0, 0);
    let tail = alone_of(pack, s, 0);
    Floors { whole, part, tail }
}
