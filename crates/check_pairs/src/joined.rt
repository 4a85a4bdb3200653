// The least number that meets two rules: each clause of one joined with each of the other.
ghost use Rattle.std.specs.Prelude.{◌≡◌, Bool, List, ◌++◌, ℕ, suc, ◌+◌, ◌-◌, ◌≤◌, ◌<◌, min, max, get_or};
ghost use Rattle.check_laws.specs.Floors.{Floored};
ghost use Rattle.check_laws.specs.Fast.{clause_rank, fast_rank, with_each, both_of};
ghost use Rattle.check_laws.specs.Profile.{profile_of, Profiled};
ghost use Rattle.pack_rules.specs.Room.{clause_room, rule_room};
ghost use Rattle.pack_rules.specs.Stretch.{table_of, clause_at, clauses_in};
ghost use Rattle.check_laws.specs.Read.{rule_clauses};
ghost use Rattle.check_laws.specs.Spots.{spot_rank, Proper};

use answer::Witness;
use check_clauses::{ClauseFloors, PerClause, floors as clause_floors};
use check_laws::{Bounds, Span, limits};
use check_places::order;
use decimal::Places;
use pack_rules::{CLAUSE_ROOM, Pack, RELATION_ROOM, start_at, stop_at};

// The least number of the clauses k and l joined, with any v.
fn joined_spot(
    pack: &Pack,
    floors: &ClauseFloors,
    profiles: &PerClause,
    k: usize,
    l: usize,
) -> Witness
    requires in_room { (k < clause_room) × (l < clause_room) × Floored (table_of pack.now) pack.now.relations floors.now.whole floors.now.part floors.now.tail }
    requires profiles { (get_or profiles.now k 0 ≡ profile_of (clause_at (table_of pack.now) pack.now.relations k)) × (get_or profiles.now l 0 ≡ profile_of (clause_at (table_of pack.now) pack.now.relations l)) }
    ensures { (spot_rank result ≡ clause_rank (clause_at (table_of pack.now) pack.now.relations k ++ clause_at (table_of pack.now) pack.now.relations l)) × Proper result }
{
    let from = start_at(&pack.relations, k);
    let to = stop_at(&pack.relations, k, RELATION_ROOM);
    let start = start_at(&pack.relations, l);
    let stop = stop_at(&pack.relations, l, RELATION_ROOM);
    let s = Span {
        from,
        to,
        start,
        stop,
    };
    let b = Bounds {
        least: Places(0),
        most: Places(limits::MAX_PLACES as u8),
    };
    let p = profiles[k] & profiles[l];
    let pair = clause_floors::pair_floors(floors, k, l);
    check_search::least_admitted(pack, s, b, p, pair)
}

// The earliest of `best` and the least numbers of the clause k with each of those from place `from` to before `to`.
fn with_each(
    pack: &Pack,
    floors: &ClauseFloors,
    profiles: &PerClause,
    k: usize,
    from: usize,
    to: usize,
    first: Witness,
) -> Witness
    requires in_room { (k < clause_room) × (to ≤ clause_room) × Proper first × Floored (table_of pack.now) pack.now.relations floors.now.whole floors.now.part floors.now.tail }
    requires profiles { (get_or profiles.now k 0 ≡ profile_of (clause_at (table_of pack.now) pack.now.relations k)) × Profiled (table_of pack.now) pack.now.relations profiles.now to }
    ensures { (spot_rank result ≡ min (spot_rank first) (fast_rank (with_each (clause_at (table_of pack.now) pack.now.relations k) (clauses_in (table_of pack.now) pack.now.relations from to)))) × Proper result }
{
    let mut best = first;
    for l in from..to {
        best = order::earlier(best, joined_spot(pack, floors, profiles, k, l));
    }
    best
}

// The least number of the clauses from place `from` to before `to` with those from `start` to before `stop`.
fn both_spot(
    pack: &Pack,
    floors: &ClauseFloors,
    profiles: &PerClause,
    from: usize,
    to: usize,
    start: usize,
    stop: usize,
) -> Witness
    requires in_room { (to ≤ clause_room) × (stop ≤ clause_room) × Floored (table_of pack.now) pack.now.relations floors.now.whole floors.now.part floors.now.tail }
    requires profiled { Profiled (table_of pack.now) pack.now.relations profiles.now to × Profiled (table_of pack.now) pack.now.relations profiles.now stop }
    ensures { (spot_rank result ≡ fast_rank (both_of (clauses_in (table_of pack.now) pack.now.relations from to) (clauses_in (table_of pack.now) pack.now.relations start stop))) × Proper result }
{
    let mut best = order::nowhere();
    for k in from..to {
        best = with_each(pack, floors, profiles, k, start, stop, best);
    }
    best
}

// The least number that meets the rules p and q.
pub fn pair_spot(
    pack: &Pack,
    floors: &ClauseFloors,
    profiles: &PerClause,
    p: usize,
    q: usize,
) -> Witness
    requires in_room { (p < rule_room) × (q < rule_room) × Floored (table_of pack.now) pack.now.relations floors.now.whole floors.now.part floors.now.tail }
    requires profiled { Profiled (table_of pack.now) pack.now.relations profiles.now (min (get_or pack.now.clauses p 0) clause_room) × Profiled (table_of pack.now) pack.now.relations profiles.now (min (get_or pack.now.clauses q 0) clause_room) }
    ensures { (spot_rank result ≡ fast_rank (both_of (rule_clauses (table_of pack.now) pack.now.relations pack.now.clauses p) (rule_clauses (table_of pack.now) pack.now.relations pack.now.clauses q))) × Proper result }
{
    let from = start_at(&pack.clauses, p);
    let to = stop_at(&pack.clauses, p, CLAUSE_ROOM);
    let start = start_at(&pack.clauses, q);
    let stop = stop_at(&pack.clauses, q, CLAUSE_ROOM);
    both_spot(pack, floors, profiles, from, to, start, stop)
}
