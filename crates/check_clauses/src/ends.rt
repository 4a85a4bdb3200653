// Where the clauses of a pack's first rules end.
ghost use Rattle.std.specs.Prelude.{◌≡◌, ℕ, ◌≤◌, ◌<◌, min, get_or};
ghost use Rattle.pack_rules.specs.Room.{clause_room, relation_room, rule_room};
ghost use Rattle.pack_rules.specs.Stretch.{start_at};

use pack_rules::{CLAUSE_ROOM, Pack, stop_at};

// Past the clauses that the first n rules have.
pub fn clauses_end(pack: &Pack, n: usize) -> usize
    requires { n ≤ rule_room }
    ensures { (result ≤ clause_room) × ((p : ℕ) → p < n → min (get_or pack.now.clauses p 0) clause_room ≤ result) }
{
    let mut end = 0;
    for p in 0..n {
        end = end.max(stop_at(&pack.clauses, p, CLAUSE_ROOM));
    }
    end
}
