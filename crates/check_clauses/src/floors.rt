// The floors of a pack's long clauses, each worked out once: they serve every pair that the clause stands in.
ghost use Rattle.std.specs.Prelude.{◌≡◌, Bool, List, ℕ, max, ◌≤◌, ◌<◌, get_or};
ghost use Rattle.check_laws.specs.Floors.{Floored, Under, long_in};
ghost use Rattle.pack_rules.specs.Room.{clause_room, relation_room};
ghost use Rattle.pack_rules.specs.Stretch.{table_of, clause_at};

use crate::{ClauseFloors, PerClause};
use check_laws::{Floors, Span};
use pack_rules::{Pack, RELATION_ROOM, from_at, start_at, stop_at};

// A clause with more ranges is long: a shorter one is searched as quickly as its floors are found.
const LONG: usize = 24;

// Whether the relations from place `from` to before `to` have many ranges.
fn is_long(pack: &Pack, from: usize, to: usize) -> bool
    requires { to ≤ relation_room }
    ensures { result ≡ long_in pack.now.columns 24 from to }
{
    from < to && LONG < from_at(pack, to).saturating_sub(from_at(pack, from))
}

// The floors of the clause j: zeros where it is not long.
fn clause_floors(pack: &Pack, j: usize) -> Floors
    requires { j < clause_room }
    ensures { Under (clause_at (table_of pack.now) pack.now.relations j) result }
{
    let from = start_at(&pack.relations, j);
    let to = stop_at(&pack.relations, j, RELATION_ROOM);
    if !is_long(pack, from, to) {
        return Floors {
            whole: 0,
            part: 0,
            tail: 0,
        };
    }
    let s = Span {
        from,
        to,
        start: 0,
        stop: 0,
    };
    check_search::floors_of(pack, s)
}

// The floors of the clauses k and l joined: what one of them does not allow, both do not.
pub fn pair_floors(floors: &ClauseFloors, k: usize, l: usize) -> Floors
    requires { (k < clause_room) × (l < clause_room) }
    ensures { (result.whole ≡ max (get_or floors.now.whole k 0) (get_or floors.now.whole l 0)) × (result.part ≡ max (get_or floors.now.part k 0) (get_or floors.now.part l 0)) × (result.tail ≡ max (get_or floors.now.tail k 0) (get_or floors.now.tail l 0)) }
{
    Floors {
        whole: floors.whole[k].max(floors.whole[l]),
        part: floors.part[k].max(floors.part[l]),
        tail: floors.tail[k].max(floors.tail[l]),
    }
}

// Fills in the floors of the first `to` clauses.
pub fn fill(pack: &Pack, floors: &mut ClauseFloors, to: usize)
    requires { (to ≤ clause_room) × Floored (table_of pack.now) pack.now.relations floors.old.whole floors.old.part floors.old.tail }
    ensures { Floored (table_of pack.now) pack.now.relations floors.new.whole floors.new.part floors.new.tail }
{
    for j in 0..to {
        let l = clause_floors(pack, j);
        floors.whole[j] = l.whole;
        floors.part[j] = l.part;
        floors.tail[j] = l.tail;
    }
}
