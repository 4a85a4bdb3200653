// The profiles of a pack's clauses, each worked out once: they serve every pair that the clause stands in.
ghost use Rattle.std.specs.Prelude.{◌≡◌, ℕ, ◌≤◌, ◌<◌, get_or};
ghost use Rattle.check_laws.specs.Profile.{profile_of, Profiled};
ghost use Rattle.pack_rules.specs.Room.{clause_room};
ghost use Rattle.pack_rules.specs.Stretch.{table_of, clause_at};

use crate::PerClause;
use pack_rules::{Pack, RELATION_ROOM, start_at, stop_at};

// The profile of the clause j.
fn profile_of(pack: &Pack, j: usize) -> u64
    requires { j < clause_room }
    ensures { result ≡ profile_of (clause_at (table_of pack.now) pack.now.relations j) }
{
    let from = start_at(&pack.relations, j);
    let to = stop_at(&pack.relations, j, RELATION_ROOM);
    check_profile::clause_profile(pack, from, to)
}

// Fills in the profiles of the first `to` clauses.
pub fn fill(pack: &Pack, profiles: &mut PerClause, to: usize)
    requires { to ≤ clause_room }
    ensures { Profiled (table_of pack.now) pack.now.relations profiles.new to }
{
    for j in 0..to {
        profiles[j] = profile_of(pack, j);
    }
}
