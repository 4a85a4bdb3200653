// The least number that the relations of one level allow and that passes the levels below it.
ghost use Rattle.std.specs.Prelude.{◌≡◌, ◌≤◌, ◌<◌, min};
ghost use Rattle.pack_rules.specs.Room.{relation_room};
ghost use Rattle.pack_rules.specs.Stretch.{table_of};
ghost use Rattle.check_laws.specs.Levels.{own, below};
ghost use Rattle.check_laws.specs.Read.{joined_in};
ghost use Rattle.check_laws.specs.Ready.{Fit, Room};
ghost use Rattle.check_runs.specs.Kept.{kept_room, size_of, Kept, Listed};
ghost use Rattle.check_next.specs.Table.{Laid, Tabled};
ghost use Rattle.check_table.specs.Building.{Looked, Opens};

use crate::Found;
use check_laws::{Query, Span};
use check_next::{NextTable, next};
use check_runs::clause::clause_run;
use check_runs::{LevelList, Runs};
use pack_rules::Pack;

// Looks at the run of p. Where the relations of the level do not hold, its end is where to go on; where
// they do, the next number of the levels below j is: it is found where it lies in the run.
fn look(
    pack: &Pack,
    s: Span,
    q: Query,
    list: &LevelList,
    table: &NextTable,
    j: usize,
    p: u64,
    end: u64,
    runs: &mut Runs,
) -> Found
    requires fit { Fit q × Room q end × (p < end) × (s.to ≤ relation_room) × (s.stop ≤ relation_room) × (size_of s ≤ kept_room) × Listed (table_of pack.now) s q list.now.level list.now.at list.now.count }
    requires laid { Laid table.now.starts table.now.ends table.now.at j }
    requires tabled { Tabled (below q (joined_in (table_of pack.now) s)) table.now.starts table.now.ends table.now.at j }
    requires kept { Kept (table_of pack.now) s q list.now.level p runs.old.says runs.old.stop }
    ensures looked { Looked (own q (joined_in (table_of pack.now) s) list.now.level) (below q (joined_in (table_of pack.now) s) j) p end result.at result.stop }
    ensures kept_after { Kept (table_of pack.now) s q list.now.level p runs.new.says runs.new.stop }
{
    let run = clause_run(pack, s, q, list, p, runs);
    if run.says {
        return Found {
            at: next(table, j, p),
            stop: run.stop.min(end),
        };
    }
    Found {
        at: run.stop,
        stop: run.stop,
    }
}

// The least number from `from` on and below `end` that the relations of the level allow and that passes
// the levels below j, and up to where the relations of the level hold; or `end`, and past the numbers
// that were looked at.
pub fn find(
    pack: &Pack,
    s: Span,
    q: Query,
    list: &LevelList,
    table: &NextTable,
    j: usize,
    from: u64,
    end: u64,
    runs: &mut Runs,
) -> Found
    requires fit { Fit q × Room q end × (from ≤ end) × (s.to ≤ relation_room) × (s.stop ≤ relation_room) × (size_of s ≤ kept_room) × Listed (table_of pack.now) s q list.now.level list.now.at list.now.count }
    requires laid { Laid table.now.starts table.now.ends table.now.at j }
    requires tabled { Tabled (below q (joined_in (table_of pack.now) s)) table.now.starts table.now.ends table.now.at j }
    requires kept { Kept (table_of pack.now) s q list.now.level from runs.old.says runs.old.stop }
    ensures opens { Opens (own q (joined_in (table_of pack.now) s) list.now.level) (below q (joined_in (table_of pack.now) s) j) from end result.at result.stop }
    ensures kept_after { Kept (table_of pack.now) s q list.now.level result.stop runs.new.says runs.new.stop }
{
    let mut p = from;
    // By runs: a turn goes on where the run ends.
    while p < end {
        let f = look(pack, s, q, list, table, j, p, end, runs);
        if f.at < f.stop {
            return f;
        }
        p = f.at;
    }
    Found { at: end, stop: p }
}
